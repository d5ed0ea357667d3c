//! Leases end before their time, and start their reversions then.

ghost use Rattle.std.specs.Prelude.{◌≡◌, ℕ, ◌≤◌, ◌<◌, ◌+◌, ◌==◌, ◌++◌, ◌∷◌, [], Bool, List, None, Some, IsSome, false, true, length, nat_lt, slice_index_or, slice_set, vec_capacity};
ghost use Rattle.std.specs.List.{AllByRecursion};
ghost use Rattle.boss_model.specs.declared.state.Lease.{Lease};
ghost use Rattle.boss_model.specs.Ends.{is_owned_by, shortened};
ghost use Rattle.boss_model.specs.Limits.{last_moment};
ghost use Rattle.boss_model.specs.Reversions.{end_of, reversion_of};
ghost use Rattle.boss_booking.specs.Books.{Telling as Told};
ghost use Rattle.boss_booking.specs.Gathered.{ended_with};
ghost use Rattle.law_due.specs.Playing.{IsEndable};
ghost use Rattle.boss_slots.specs.Ending.{IsOrderly, told_by};
ghost use Rattle.boss_holdings.specs.Held.{in_slots};
ghost use Rattle.boss_slots.specs.Slots.{keep};
ghost use Rattle.boss_slots.specs.Tables.{IsKept, IsMoved, IsTimed, lease_at};
ghost use Rattle.boss_slots.specs.declared.tables.Tables.{Tables};

use crate::passing::{reversion_of, start_reversion};
use crate::telling::ended;
use boss_booking::Telling;
use boss_model::{Cause, PointId, Priority, ProcId};
use boss_slots::{Flags, Place, Tables, lease_key, take_lease};

/// The lease of a key, which has to be there, ends at `n`: it goes out of its slot, and its reversion gets under way.
pub fn end_lease(
    tables: &mut Tables,
    touched: &mut Flags,
    key: u32,
    cause: &Cause,
    n: u64,
    told: &mut Vec<Telling>,
)
    requires kept { IsKept tables.old }
    requires live { IsSome (slice_index_or tables.old.leases key None) }
    requires endable { (lease : Lease) → slice_index_or tables.old.leases key None ≡ Some lease → IsEndable lease }
    requires far { n ≤ last_moment }
    requires flags { length touched.old ≡ length tables.old.arrays.items }
    requires room { length told.old.items < vec_capacity told.old }
    ensures kept { IsKept tables.new }
    ensures moved { (lease : Lease) → slice_index_or tables.old.leases key None ≡ Some lease →
        IsMoved tables.old tables.new lease.point lease.priority None (keep (λ r. nat_lt n (end_of r)) (Some (reversion_of (shortened n lease)))) }
    ensures timed { IsTimed n tables.old → IsTimed n tables.new }
    ensures touched { (lease : Lease) → slice_index_or tables.old.leases key None ≡ Some lease → touched.new ≡ slice_set touched.old lease.point true }
    ensures told { (lease : Lease) → slice_index_or tables.old.leases key None ≡ Some lease →
        told.new.items ≡ told.old.items ++ ended_with cause.now (reversion_of (shortened n lease)) ∷ [] }
    ensures leases { tables.new.leases ≡ slice_set tables.old.leases key None }
    ensures room { vec_capacity told.new ≡ vec_capacity told.old }
{
    let mut lease = take_lease(tables, key);
    told.push_reserved(ended(&lease, cause, n));
    touched.set(lease.point);
    lease.until = n;
    start_reversion(tables, reversion_of(lease), n);
}

/// The lease in a slot, if there is one, ends at `n`.
fn end_slot(
    tables: &mut Tables,
    touched: &mut Flags,
    point: PointId,
    priority: Priority,
    cause: &Cause,
    n: u64,
    told: &mut Vec<Telling>,
)
    requires kept { IsKept tables.old }
    requires point { point < length tables.old.arrays.items }
    requires level { (1 ≤ priority) × (priority ≤ 16) }
    requires endable { (lease : Lease) → lease_at tables.old point priority ≡ Some lease → IsEndable lease }
    requires far { n ≤ last_moment }
    requires flags { length touched.old ≡ length tables.old.arrays.items }
    requires room { (lease : Lease) → lease_at tables.old point priority ≡ Some lease → length told.old.items < vec_capacity told.old }
    ensures orderly { (which : Lease → Bool) (first : Tables) (told_before : List Told) (touched_before : List Bool) →
        ((lease : Lease) → lease_at tables.old point priority ≡ Some lease → which lease ≡ true) →
        IsOrderly which cause.now n first tables.old told_before told.old.items (vec_capacity told.old) touched_before touched.old →
        IsOrderly which cause.now n first tables.new told_before told.new.items (vec_capacity told.new) touched_before touched.new }
    ensures gone { lease_at tables.new point priority ≡ None }
    ensures none { (a b : ℕ) → lease_at tables.old a b ≡ None → lease_at tables.new a b ≡ None }
    ensures room { vec_capacity told.new ≡ vec_capacity told.old }
{
    if let Some(key) = lease_key(tables, point, priority) {
        end_lease(tables, touched, key, cause, n, told);
    }
}

/// The leases in some slots end at `n`.
pub fn end_slots(
    tables: &mut Tables,
    touched: &mut Flags,
    slots: &[Place],
    cause: &Cause,
    n: u64,
    told: &mut Vec<Telling>,
)
    requires orderly { IsOrderly (in_slots slots.now) cause.now n tables.old tables.old told.old.items told.old.items (vec_capacity told.old) touched.old touched.old }
    requires slots { AllByRecursion (λ slot. (slot.point < length tables.old.arrays.items) × (1 ≤ slot.priority) × (slot.priority ≤ 16)) slots.now }
    requires far { n ≤ last_moment }
    ensures orderly { IsOrderly (in_slots slots.now) cause.now n tables.old tables.new told.old.items told.new.items (vec_capacity told.new) touched.old touched.new }
    ensures gone { (point priority : ℕ) (lease : Lease) → lease_at tables.new point priority ≡ Some lease → in_slots slots.now lease ≡ false }
    ensures room { vec_capacity told.new ≡ vec_capacity told.old }
{
    for slot in slots {
        end_slot(tables, touched, slot.point, slot.priority, cause, n, told);
    }
}

/// The lease of a key, if it is there and a process's own, ends at `n`.
fn end_if_owned(
    tables: &mut Tables,
    touched: &mut Flags,
    key: u32,
    owner: ProcId,
    cause: &Cause,
    n: u64,
    told: &mut Vec<Telling>,
)
    requires orderly { (first : Tables) × (told_before : List Told) × (touched_before : List Bool) × IsOrderly (is_owned_by owner) cause.now n first tables.old told_before told.old.items (vec_capacity told.old) touched_before touched.old }
    requires far { n ≤ last_moment }
    ensures orderly { (first : Tables) (told_before : List Told) (touched_before : List Bool) →
        IsOrderly (is_owned_by owner) cause.now n first tables.old told_before told.old.items (vec_capacity told.old) touched_before touched.old →
        IsOrderly (is_owned_by owner) cause.now n first tables.new told_before told.new.items (vec_capacity told.new) touched_before touched.new }
    ensures gone { (other : ℕ) (lease : Lease) → other ≤ key → slice_index_or tables.new.leases other None ≡ Some lease →
        ((before : ℕ) (one : Lease) → before < key → slice_index_or tables.old.leases before None ≡ Some one → is_owned_by owner one ≡ false) → is_owned_by owner lease ≡ false }
    ensures keys { length tables.new.leases ≡ length tables.old.leases }
    ensures room { vec_capacity told.new ≡ vec_capacity told.old }
{
    let Some(lease) = tables.leases.get(key) else {
        return;
    };
    if lease.owner == owner {
        end_lease(tables, touched, key, cause, n, told);
    }
}

/// All leases of a process end at `n`. It goes through all keys.
pub fn end_owned(
    tables: &mut Tables,
    touched: &mut Flags,
    owner: ProcId,
    cause: &Cause,
    n: u64,
    told: &mut Vec<Telling>,
)
    requires orderly { IsOrderly (is_owned_by owner) cause.now n tables.old tables.old told.old.items told.old.items (vec_capacity told.old) touched.old touched.old }
    requires far { n ≤ last_moment }
    ensures orderly { IsOrderly (is_owned_by owner) cause.now n tables.old tables.new told.old.items told.new.items (vec_capacity told.new) touched.old touched.new }
    ensures gone { (point priority : ℕ) (lease : Lease) → lease_at tables.new point priority ≡ Some lease → is_owned_by owner lease ≡ false }
    ensures room { vec_capacity told.new ≡ vec_capacity told.old }
{
    for key in 0..tables.leases.keys() {
        end_if_owned(tables, touched, key, owner, cause, n, told);
    }
}
