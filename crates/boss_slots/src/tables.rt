//! The tables of leases and reversions, and the timers of both.

ghost use Rattle.std.specs.Prelude.{◌≡◌, ℕ, ◌≤◌, ◌<◌, ◌+◌, ◌*◌, None, Some, IfNone, IfSome, IsSome, length, slice_index_or, slice_set};
ghost use Rattle.std.specs.Option.{option_copied};
ghost use Rattle.boss_model.specs.declared.state.Lease.{Lease};
ghost use Rattle.boss_array.specs.declared.array.Entry.TheVariants as entry;
ghost use Rattle.boss_slots.specs.Tables.{IsAwaited, IsKept, IsMoved, IsTimed, entry_in, lease_at, number, pending_at};

use crate::entries::{clear_entry, entry_at, number, set_entry};
use crate::timing::{remove_timer, set_timer};
use boss_array::{Array, Entry};
use boss_leases::Leases;
use boss_model::{Lease, Pending, PointId, Priority};
use boss_timers::Timers;

/// Leases and reversions by key, where each stands, and when the next thing comes of each.
#[derive(Drop)]
pub struct Tables {
    /// One for each point.
    pub arrays: Vec<Array>,
    pub leases: Leases,
    /// By the numbers of slots.
    pub pending: Vec<Option<Pending>>,
    /// By the keys of leases and, behind them, the numbers of slots. A timer may go off too early, and never too late.
    pub timers: Timers,
    /// How many leases there are.
    pub live: u32,
    /// How many reversions are under way.
    pub under_way: u32,
}

/// The reversion of a key, if there is one.
pub fn pending_of(pending: &[Option<Pending>], key: u32) -> Option<&Pending>
    ensures { option_copied result ≡ slice_index_or pending.now key None }
{
    pending.get(key as usize)?.as_ref()
}

/// The key of the lease in a slot, if there is one.
pub fn lease_key(tables: &Tables, point: PointId, priority: Priority) -> Option<u32>
    requires point { point < length tables.now.arrays.items }
    requires level { (1 ≤ priority) × (priority ≤ 16) }
    ensures some { IfSome result (λ key. entry_in tables.now.arrays.items point priority ≡ Some (entry.Lease key)) }
    ensures none { IfNone result (lease_at tables.now point priority ≡ None) }
{
    match entry_at(&tables.arrays, point, priority) {
        Some(Entry::Lease(key)) => Some(key),
        Some(Entry::Pending(_)) => None,
        None => None,
    }
}

/// The lease of a key, which has to be there, goes out of its slot.
pub fn take_lease(tables: &mut Tables, key: u32) -> Lease
    requires kept { IsKept tables.old }
    requires live { IsSome (slice_index_or tables.old.leases key None) }
    ensures lease { slice_index_or tables.old.leases key None ≡ Some result }
    ensures kept { IsKept tables.new }
    ensures moved { IsMoved tables.old tables.new result.point result.priority None None }
    ensures timed { (last : ℕ) → IsTimed last tables.old → IsTimed last tables.new }
    ensures timers { tables.new.timers ≡ slice_set tables.old.timers key None }
    ensures leases { tables.new.leases ≡ slice_set tables.old.leases key None }
{
    let lease = tables.leases.take(key).unwrap();
    clear_entry(&mut tables.arrays, lease.point, lease.priority);
    remove_timer(&mut tables.timers, key);
    tables.live -= 1;
    lease
}

/// A lease takes its slot, which has to be empty.
pub fn put_lease(tables: &mut Tables, lease: Lease)
    requires kept { IsKept tables.old }
    requires point { lease.point < length tables.old.arrays.items }
    requires level { (1 ≤ lease.priority) × (lease.priority ≤ 16) }
    requires empty { entry_in tables.old.arrays.items lease.point lease.priority ≡ None }
    ensures kept { IsKept tables.new }
    ensures moved { IsMoved tables.old tables.new lease.point lease.priority (Some lease) None }
    ensures timed { (last : ℕ) → IsTimed last tables.old → IsTimed last tables.new }
{
    let (point, priority, until) = (lease.point, lease.priority, lease.until);
    let key = tables.leases.add(lease);
    set_entry(&mut tables.arrays, point, priority, Entry::Lease(key));
    set_timer(&mut tables.timers, key, until);
    tables.live += 1;
}

/// A reversion takes its slot, which has to be empty. The first thing that comes of it comes at `next`.
pub fn put_pending(tables: &mut Tables, reversion: Pending, next: u64)
    requires kept { IsKept tables.old }
    requires point { reversion.point < length tables.old.arrays.items }
    requires level { (1 ≤ reversion.priority) × (reversion.priority ≤ 16) }
    requires empty { entry_in tables.old.arrays.items reversion.point reversion.priority ≡ None }
    ensures kept { IsKept tables.new }
    ensures moved { IsMoved tables.old tables.new reversion.point reversion.priority None (Some reversion) }
    ensures timed { (last : ℕ) → IsTimed last tables.old → IsAwaited last reversion (Some next) → IsTimed last tables.new }
    ensures timers { tables.new.timers ≡ slice_set tables.old.timers (16 * length tables.old.arrays.items + number reversion.point reversion.priority) (Some next) }
    ensures leases { tables.new.leases ≡ tables.old.leases }
{
    let (point, priority) = (reversion.point, reversion.priority);
    let key = number(point, priority);
    set_entry(&mut tables.arrays, point, priority, Entry::Pending(key));
    tables.pending[key as usize] = Some(reversion);
    set_timer(&mut tables.timers, tables.leases.keys() + key, next);
    tables.under_way += 1;
}

/// The reversion in a slot, which has to be there, goes out.
pub fn take_pending(tables: &mut Tables, point: PointId, priority: Priority)
    requires kept { IsKept tables.old }
    requires there { entry_in tables.old.arrays.items point priority ≡ Some (entry.Pending (number point priority)) }
    ensures kept { IsKept tables.new }
    ensures moved { IsMoved tables.old tables.new point priority None None }
    ensures timed { (last : ℕ) → IsTimed last tables.old → IsTimed last tables.new }
    ensures timers { tables.new.timers ≡ slice_set tables.old.timers (16 * length tables.old.arrays.items + number point priority) None }
{
    let key = number(point, priority);
    clear_entry(&mut tables.arrays, point, priority);
    tables.pending[key as usize] = None;
    remove_timer(&mut tables.timers, tables.leases.keys() + key);
    tables.under_way -= 1;
}

/// The lease of a key, which has to be there, ends at `until`, which is no earlier than before.
pub fn extend_lease(tables: &mut Tables, key: u32, until: u64)
    requires kept { IsKept tables.old }
    requires live { IsSome (slice_index_or tables.old.leases key None) }
    ensures kept { IsKept tables.new }
    ensures moved { (lease : Lease) → slice_index_or tables.old.leases key None ≡ Some lease → IsMoved tables.old tables.new lease.point lease.priority (Some (record lease { until = until })) None }
    ensures timed { (last : ℕ) (lease : Lease) → slice_index_or tables.old.leases key None ≡ Some lease → lease.until ≤ until → IsTimed last tables.old → IsTimed last tables.new }
{
    tables.leases.extend(key, until);
}
