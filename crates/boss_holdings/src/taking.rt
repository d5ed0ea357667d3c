//! New leases take their slots, and what stood there goes out.

ghost use Rattle.std.specs.Prelude.{◌≡◌, ℕ, ◌≤◌, ◌<◌, ◌+◌, ◌++◌, List, None, Some, false, true, find, length, slice_index_or, slice_set, vec_capacity};
ghost use Rattle.std.specs.List.{AllByRecursion};
ghost use Rattle.std.specs.Option.{option_or};
ghost use Rattle.boss_model.specs.declared.state.Lease.{Lease};
ghost use Rattle.boss_slots.specs.Ending.{IsClearing, replaced_at};
ghost use Rattle.boss_holdings.specs.Held.{AreApart, is_at};
ghost use Rattle.boss_slots.specs.Tables.{IsKept, IsMoved, IsTimed, entry_in, lease_at, pending_at};

use crate::telling::{cut, superseded};
use boss_array::Entry;
use boss_booking::Telling;
use boss_model::{Lease, PointId, Priority, Txn};
use boss_slots::{Flags, Tables, entry_at, pending_of, put_lease, take_lease, take_pending};

/// What stands in a slot goes out, and it is told that the transaction `by` takes the slot at `n`.
fn clear_slot(
    tables: &mut Tables,
    point: PointId,
    priority: Priority,
    by: Txn,
    n: u64,
    told: &mut Vec<Telling>,
)
    requires kept { IsKept tables.old }
    requires point { point < length tables.old.arrays.items }
    requires level { (1 ≤ priority) × (priority ≤ 16) }
    requires room { length told.old.items + length (replaced_at by n (lease_at tables.old point priority) (pending_at tables.old point priority)) ≤ vec_capacity told.old }
    ensures kept { IsKept tables.new }
    ensures moved { IsMoved tables.old tables.new point priority None None }
    ensures timed { (last : ℕ) → IsTimed last tables.old → IsTimed last tables.new }
    ensures told { told.new.items ≡ told.old.items ++ replaced_at by n (lease_at tables.old point priority) (pending_at tables.old point priority) }
    ensures room { vec_capacity told.new ≡ vec_capacity told.old }
{
    match entry_at(&tables.arrays, point, priority) {
        Some(Entry::Lease(key)) => {
            let lease = take_lease(tables, key);
            told.push_reserved(superseded(&lease, by, n));
        }
        Some(Entry::Pending(key)) => {
            let reversion = pending_of(&tables.pending, key).unwrap();
            told.push_reserved(cut(reversion, by, n));
            take_pending(tables, point, priority);
        }
        None => {}
    }
}

/// What stands in the slots of new leases goes out.
pub fn clear_slots(
    tables: &mut Tables,
    touched: &mut Flags,
    new: &[Lease],
    by: Txn,
    n: u64,
    told: &mut Vec<Telling>,
)
    requires clearing { IsClearing new.now by n tables.old tables.old told.old.items told.old.items (vec_capacity told.old) touched.old touched.old }
    requires slots { AllByRecursion (λ lease. (lease.point < length tables.old.arrays.items) × (1 ≤ lease.priority) × (lease.priority ≤ 16)) new.now }
    ensures clearing { IsClearing new.now by n tables.old tables.new told.old.items told.new.items (vec_capacity told.new) touched.old touched.new }
    ensures clear { AllByRecursion (λ lease. (lease_at tables.new lease.point lease.priority ≡ None) × (pending_at tables.new lease.point lease.priority ≡ None)) new.now }
    ensures marked { AllByRecursion (λ lease. slice_index_or touched.new lease.point false ≡ true) new.now }
    ensures room { vec_capacity told.new ≡ vec_capacity told.old }
{
    for lease in new {
        clear_slot(tables, lease.point, lease.priority, by, n, told);
        touched.set(lease.point);
    }
}

/// New leases take their slots, which have to be empty; none is left in the list.
pub fn put_leases(tables: &mut Tables, new: &mut Vec<Lease>)
    requires kept { IsKept tables.old }
    requires apart { AreApart new.old.items }
    requires slots { AllByRecursion (λ lease. (lease.point < length tables.old.arrays.items) × (1 ≤ lease.priority) × (lease.priority ≤ 16)) new.old.items }
    requires clear { AllByRecursion (λ lease. (lease_at tables.old lease.point lease.priority ≡ None) × (pending_at tables.old lease.point lease.priority ≡ None)) new.old.items }
    ensures kept { IsKept tables.new }
    ensures leases { (p q : ℕ) → lease_at tables.new p q ≡ option_or (find (is_at p q) new.old.items) (lease_at tables.old p q) }
    ensures pending { (p q : ℕ) → pending_at tables.new p q ≡ pending_at tables.old p q }
    ensures timed { (last : ℕ) → IsTimed last tables.old → IsTimed last tables.new }
    ensures points { length tables.new.arrays.items ≡ length tables.old.arrays.items }
{
    while let Some(lease) = new.pop() {
        put_lease(tables, lease);
    }
}
