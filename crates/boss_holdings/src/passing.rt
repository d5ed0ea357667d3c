//! Time passes: leases end at their moments and start their reversions then, and reversions end at theirs.

ghost use Rattle.std.specs.Prelude.{◌≡◌, ◌≢◌, ℕ, ◌≤◌, ◌<◌, ◌+◌, ◌*◌, ◌^◌, Bool, false, List, None, Some, IfNone, IfSome, IsSome, count_by, length, nat_lt, slice_index_or, slice_set, vec_capacity};
ghost use Rattle.std.specs.Option.{option_copied};
ghost use Rattle.boss_array.specs.declared.array.Entry.TheVariants as entry;
ghost use Rattle.boss_model.specs.declared.state.Lease.{Lease};
ghost use Rattle.boss_model.specs.declared.state.Pending.{Pending};
ghost use Rattle.boss_model.specs.Limits.{last_moment};
ghost use Rattle.boss_model.specs.Reversions.{end_of, reversion_of};
ghost use Rattle.boss_booking.specs.Books.{Telling as Told};
ghost use Rattle.law_due.specs.Playing.{IsPlayable};
ghost use Rattle.boss_slots.specs.Ending.{AreBy, IsPassable, IsPassing, is_due};
ghost use Rattle.boss_slots.specs.Slots.{keep};
ghost use Rattle.boss_slots.specs.Tables.{IsAwaited, IsBy, IsKept, IsMoved, IsTimed, entry_in, number};
ghost use Rattle.boss_slots.specs.declared.tables.Tables.{Tables};

use crate::telling::{last_of_lease, tell_lease, tell_pending};
use boss_booking::Telling;
use boss_model::{Lease, Pending};
use boss_reversion::{last_turn, next_boundary};
use boss_slots::{
    Flags, Tables, pending_of, put_pending, remove_timer, set_timer, take_lease, take_pending,
};
use boss_timers::Timers;

/// The reversion that starts when the lease ends.
pub fn reversion_of(lease: Lease) -> Pending
    ensures { result ≡ reversion_of lease }
{
    let Lease {
        txn,
        owner,
        point,
        priority,
        until,
        revert,
        ..
    } = lease;
    Pending {
        txn,
        owner,
        point,
        priority,
        steps: revert,
        start: until,
    }
}

/// A reversion gets under way in its slot, which has to be empty, unless it is over by `n`.
pub fn start_reversion(tables: &mut Tables, reversion: Pending, n: u64)
    requires kept { IsKept tables.old }
    requires point { reversion.point < length tables.old.arrays.items }
    requires level { (1 ≤ reversion.priority) × (reversion.priority ≤ 16) }
    requires empty { entry_in tables.old.arrays.items reversion.point reversion.priority ≡ None }
    requires playable { IsPlayable reversion }
    requires started { reversion.start ≤ n }
    ensures kept { IsKept tables.new }
    ensures moved { IsMoved tables.old tables.new reversion.point reversion.priority None (keep (λ r. nat_lt n (end_of r)) (Some reversion)) }
    ensures timed { (last : ℕ) → last ≤ n → AreBy n last reversion.start reversion.steps → IsTimed last tables.old → IsTimed last tables.new }
    ensures others { (slot : ℕ) → slot ≢ 16 * length tables.old.arrays.items + number reversion.point reversion.priority → slice_index_or tables.new.timers slot None ≡ slice_index_or tables.old.timers slot None }
    ensures leases { tables.new.leases ≡ tables.old.leases }
    ensures fewer { count_by (is_due n) tables.new.timers ≤ count_by (is_due n) tables.old.timers }
{
    if let Some(next) = next_boundary(&reversion, n) {
        put_pending(tables, reversion, next);
    }
}

/// The first moment at which a timer goes off; 2^64 - 1 where none is set.
pub fn first_moment(timers: &Timers) -> u64
    ensures { (n slot : ℕ) → n < result → is_due n (slice_index_or timers.now slot None) ≡ false }
{
    match timers.first() {
        Some((_, moment)) => moment,
        None => u64::MAX,
    }
}

/// The first timer that goes off by `n`.
fn first_due(timers: &Timers, n: u64) -> Option<u32>
    ensures some { IfSome result (λ slot. IsBy n (slice_index_or timers.now slot None)) }
    ensures none { IfNone result ((slot : ℕ) → is_due n (slice_index_or timers.now slot None) ≡ false) }
{
    let (slot, moment) = timers.first()?;
    if moment <= n { Some(slot) } else { None }
}

/// A timer of a lease that is there and has ended by `n`: it goes out of its slot, and its reversion gets under way. Gives the
/// last moment at which something was due so far.
fn pass_lease(
    tables: &mut Tables,
    touched: &mut Flags,
    key: u32,
    n: u64,
    last: u64,
    told: &mut Vec<Telling>,
) -> u64
    requires passable { IsPassable n last tables.old told.old.items (vec_capacity told.old) touched.old }
    requires far { n ≤ last_moment }
    requires live { IsSome (slice_index_or tables.old.leases key None) }
    requires ended { (lease : Lease) → slice_index_or tables.old.leases key None ≡ Some lease → lease.until ≤ n }
    requires due { IsBy n (slice_index_or tables.old.timers key None) }
    ensures passable { IsPassable n result tables.new told.new.items (vec_capacity told.new) touched.new }
    ensures passing { (began : ℕ) (first : Tables) (told_before : List Told) (touched_before : List Bool) →
        IsPassing n began last first tables.old told_before told.old.items touched_before touched.old →
        IsPassing n began result first tables.new told_before told.new.items touched_before touched.new }
    ensures fewer { count_by (is_due n) tables.new.timers < count_by (is_due n) tables.old.timers }
    ensures room { vec_capacity told.new ≡ vec_capacity told.old }
{
    let lease = take_lease(tables, key);
    tell_lease(&lease, n, told);
    let reached = last_of_lease(&lease, last, n);
    touched.set(lease.point);
    start_reversion(tables, reversion_of(lease), n);
    reached
}

/// The timer of a reversion one of whose steps has ended by `n`: it waits for the next one, or the reversion goes out of its
/// slot where there is none.
fn go_on(tables: &mut Tables, key: u32, n: u64)
    requires kept { IsKept tables.old }
    requires there { IsSome (slice_index_or tables.old.pending.items key None) }
    requires playable { (reversion : Pending) → slice_index_or tables.old.pending.items key None ≡ Some reversion → IsPlayable reversion × (reversion.start ≤ n) }
    requires due { IsBy n (slice_index_or tables.old.timers (16 * length tables.old.arrays.items + key) None) }
    ensures kept { IsKept tables.new }
    ensures moved { (reversion : Pending) → slice_index_or tables.old.pending.items key None ≡ Some reversion →
        IsMoved tables.old tables.new reversion.point reversion.priority None (keep (λ r. nat_lt n (end_of r)) (Some reversion)) }
    ensures timed { (last : ℕ) (reversion : Pending) → slice_index_or tables.old.pending.items key None ≡ Some reversion →
        AreBy n last reversion.start reversion.steps → IsTimed last tables.old → IsTimed last tables.new }
    ensures others { (slot : ℕ) → slot ≢ 16 * length tables.old.arrays.items + key → slice_index_or tables.new.timers slot None ≡ slice_index_or tables.old.timers slot None }
    ensures fewer { count_by (is_due n) tables.new.timers < count_by (is_due n) tables.old.timers }
{
    let reversion = pending_of(&tables.pending, key).unwrap();
    let (point, priority) = (reversion.point, reversion.priority);
    match next_boundary(reversion, n) {
        Some(next) => {
            let slot = tables.leases.keys() + key;
            set_timer(&mut tables.timers, slot, next);
        }
        None => take_pending(tables, point, priority),
    }
}

/// A timer of a reversion that is there: what has come of it by `n` is told. Gives the last moment at which something was due
/// so far.
fn pass_pending(
    tables: &mut Tables,
    touched: &mut Flags,
    key: u32,
    n: u64,
    last: u64,
    told: &mut Vec<Telling>,
) -> u64
    requires passable { IsPassable n last tables.old told.old.items (vec_capacity told.old) touched.old }
    requires there { IsSome (slice_index_or tables.old.pending.items key None) }
    requires due { IsBy n (slice_index_or tables.old.timers (16 * length tables.old.arrays.items + key) None) }
    ensures passable { IsPassable n result tables.new told.new.items (vec_capacity told.new) touched.new }
    ensures passing { (began : ℕ) (first : Tables) (told_before : List Told) (touched_before : List Bool) →
        IsPassing n began last first tables.old told_before told.old.items touched_before touched.old →
        IsPassing n began result first tables.new told_before told.new.items touched_before touched.new }
    ensures fewer { count_by (is_due n) tables.new.timers < count_by (is_due n) tables.old.timers }
    ensures room { vec_capacity told.new ≡ vec_capacity told.old }
{
    let reversion = pending_of(&tables.pending, key).unwrap();
    tell_pending(reversion, n, told);
    let reached = last_turn(reversion.start, reversion.steps.slice(), last, n);
    touched.set(reversion.point);
    go_on(tables, key, n);
    reached
}

/// A timer went off whose slot is the key of a lease.
fn take_up_lease(
    tables: &mut Tables,
    touched: &mut Flags,
    key: u32,
    n: u64,
    last: u64,
    told: &mut Vec<Telling>,
) -> u64
    requires passable { IsPassable n last tables.old told.old.items (vec_capacity told.old) touched.old }
    requires far { n ≤ last_moment }
    requires key { key < length tables.old.leases }
    requires due { IsBy n (slice_index_or tables.old.timers key None) }
    ensures passable { IsPassable n result tables.new told.new.items (vec_capacity told.new) touched.new }
    ensures passing { (began : ℕ) (first : Tables) (told_before : List Told) (touched_before : List Bool) →
        IsPassing n began last first tables.old told_before told.old.items touched_before touched.old →
        IsPassing n began result first tables.new told_before told.new.items touched_before touched.new }
    ensures fewer { count_by (is_due n) tables.new.timers < count_by (is_due n) tables.old.timers }
    ensures room { vec_capacity told.new ≡ vec_capacity told.old }
{
    let Some(lease) = tables.leases.get(key) else {
        remove_timer(&mut tables.timers, key);
        return last;
    };
    let until = lease.until;
    if n < until {
        set_timer(&mut tables.timers, key, until);
        return last;
    }
    pass_lease(tables, touched, key, n, last, told)
}

/// A timer went off whose slot is that of a reversion.
fn take_up_pending(
    tables: &mut Tables,
    touched: &mut Flags,
    key: u32,
    n: u64,
    last: u64,
    told: &mut Vec<Telling>,
) -> u64
    requires passable { IsPassable n last tables.old told.old.items (vec_capacity told.old) touched.old }
    requires key { key < length tables.old.pending.items }
    requires due { IsBy n (slice_index_or tables.old.timers (16 * length tables.old.arrays.items + key) None) }
    ensures passable { IsPassable n result tables.new told.new.items (vec_capacity told.new) touched.new }
    ensures passing { (began : ℕ) (first : Tables) (told_before : List Told) (touched_before : List Bool) →
        IsPassing n began last first tables.old told_before told.old.items touched_before touched.old →
        IsPassing n began result first tables.new told_before told.new.items touched_before touched.new }
    ensures fewer { count_by (is_due n) tables.new.timers < count_by (is_due n) tables.old.timers }
    ensures room { vec_capacity told.new ≡ vec_capacity told.old }
{
    if pending_of(&tables.pending, key).is_some() {
        return pass_pending(tables, touched, key, n, last, told);
    }
    let slot = tables.leases.keys() + key;
    remove_timer(&mut tables.timers, slot);
    last
}

/// A timer went off by `n`. Gives the last moment at which something was due so far. It stands apart, since mostly none did.
#[inline(never)]
fn take_up(
    tables: &mut Tables,
    touched: &mut Flags,
    slot: u32,
    n: u64,
    last: u64,
    told: &mut Vec<Telling>,
) -> u64
    requires passable { IsPassable n last tables.old told.old.items (vec_capacity told.old) touched.old }
    requires far { n ≤ last_moment }
    requires due { IsBy n (slice_index_or tables.old.timers slot None) }
    ensures passable { IsPassable n result tables.new told.new.items (vec_capacity told.new) touched.new }
    ensures passing { (began : ℕ) (first : Tables) (told_before : List Told) (touched_before : List Bool) →
        IsPassing n began last first tables.old told_before told.old.items touched_before touched.old →
        IsPassing n began result first tables.new told_before told.new.items touched_before touched.new }
    ensures fewer { count_by (is_due n) tables.new.timers < count_by (is_due n) tables.old.timers }
    ensures room { vec_capacity told.new ≡ vec_capacity told.old }
{
    let keys = tables.leases.keys();
    if slot < keys {
        take_up_lease(tables, touched, slot, n, last, told)
    } else {
        take_up_pending(tables, touched, slot - keys, n, last, told)
    }
}

/// Time passes to `n`. Gives the last moment at which something was due, or `now` where nothing was.
pub fn pass_to(
    tables: &mut Tables,
    touched: &mut Flags,
    now: u64,
    n: u64,
    told: &mut Vec<Telling>,
) -> u64
    requires passable { IsPassable n now tables.old told.old.items (vec_capacity told.old) touched.old }
    requires far { n ≤ last_moment }
    ensures passable { IsPassable n result tables.new told.new.items (vec_capacity told.new) touched.new }
    ensures passing { IsPassing n now result tables.old tables.new told.old.items told.new.items touched.old touched.new }
    ensures none { (slot : ℕ) → is_due n (slice_index_or tables.new.timers slot None) ≡ false }
    ensures room { vec_capacity told.new ≡ vec_capacity told.old }
{
    let mut last = now;
    while let Some(slot) = first_due(&tables.timers, n) {
        last = take_up(tables, touched, slot, n, last, told);
    }
    last
}
