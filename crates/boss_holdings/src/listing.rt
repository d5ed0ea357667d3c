//! The lists of leases and reversions, copied out of their slots.

ghost use Rattle.std.specs.Prelude.{◌≡◌, ◌≤◌, ◌<◌, ◌++◌, length, IfOk, OnOk};
ghost use Rattle.boss_model.specs.Limits.{most_points};
ghost use Rattle.std.specs.Option.{option_to_list};
ghost use Rattle.boss_slots.specs.Slots.{all, row};
ghost use Rattle.boss_slots.specs.Tables.{lease_at, pending_at};

use boss_model::{Items, LEVELS, Lease, NoMemory, Pending, PointId, Priority};
use boss_slots::{Tables, lease_in, pending_in};
use std::alloc::Global;

/// All leases, in the order of their slots.
pub fn all_leases(alloc: Global, tables: &Tables) -> Result<Vec<Lease>, NoMemory>
    requires { length tables.now.arrays.items ≤ most_points }
    ensures { IfOk result (λ leases. leases.items ≡ all (lease_at tables.now) (length tables.now.arrays.items)) }
{
    let mut leases = Vec::with_capacity(alloc, tables.live as usize)?;
    for point in 0..tables.arrays.len() {
        add_leases(alloc, tables, PointId(point as u32), &mut leases)?;
    }
    Ok(leases)
}

/// The leases on a point are listed.
fn add_leases(
    alloc: Global,
    tables: &Tables,
    point: PointId,
    into: &mut Vec<Lease>,
) -> Result<(), NoMemory>
    requires { point < length tables.now.arrays.items }
    ensures { OnOk result (into.new.items ≡ into.old.items ++ row (lease_at tables.now) point) }
{
    for place in 0..LEVELS {
        add_lease(alloc, tables, point, Priority(place + 1), into)?;
    }
    Ok(())
}

/// The lease in a slot, if there is one, is listed.
fn add_lease(
    alloc: Global,
    tables: &Tables,
    point: PointId,
    priority: Priority,
    into: &mut Vec<Lease>,
) -> Result<(), NoMemory>
    requires point { point < length tables.now.arrays.items }
    requires level { (1 ≤ priority) × (priority ≤ 16) }
    ensures { OnOk result (into.new.items ≡ into.old.items ++ option_to_list (lease_at tables.now point priority)) }
{
    match lease_in(tables, point, priority) {
        Some(lease) => into.push(copied_lease(alloc, lease)?)?,
        None => {}
    }
    Ok(())
}

/// The same lease once more.
pub fn copied_lease(alloc: Global, lease: &Lease) -> Result<Lease, NoMemory>
    ensures { IfOk result (λ copy. copy ≡ lease.now) }
{
    let revert = Vec::from_slice(alloc, lease.revert.slice())?;
    Ok(Lease {
        txn: lease.txn,
        owner: lease.owner,
        point: lease.point,
        priority: lease.priority,
        value: lease.value,
        until: lease.until,
        revert: Items::from_vec(revert),
        policy: lease.policy,
    })
}

/// All reversions, in the order of their slots.
pub fn all_pending(alloc: Global, tables: &Tables) -> Result<Vec<Pending>, NoMemory>
    requires { length tables.now.arrays.items ≤ most_points }
    ensures { IfOk result (λ pending. pending.items ≡ all (pending_at tables.now) (length tables.now.arrays.items)) }
{
    let mut pending = Vec::with_capacity(alloc, tables.under_way as usize)?;
    for point in 0..tables.arrays.len() {
        add_reversions(alloc, tables, PointId(point as u32), &mut pending)?;
    }
    Ok(pending)
}

/// The reversions on a point are listed.
fn add_reversions(
    alloc: Global,
    tables: &Tables,
    point: PointId,
    into: &mut Vec<Pending>,
) -> Result<(), NoMemory>
    requires { point < length tables.now.arrays.items }
    ensures { OnOk result (into.new.items ≡ into.old.items ++ row (pending_at tables.now) point) }
{
    for place in 0..LEVELS {
        add_reversion(alloc, tables, point, Priority(place + 1), into)?;
    }
    Ok(())
}

/// The reversion in a slot, if there is one, is listed.
fn add_reversion(
    alloc: Global,
    tables: &Tables,
    point: PointId,
    priority: Priority,
    into: &mut Vec<Pending>,
) -> Result<(), NoMemory>
    requires point { point < length tables.now.arrays.items }
    requires level { (1 ≤ priority) × (priority ≤ 16) }
    ensures { OnOk result (into.new.items ≡ into.old.items ++ option_to_list (pending_at tables.now point priority)) }
{
    match pending_in(tables, point, priority) {
        Some(reversion) => into.push(copied_reversion(alloc, reversion)?)?,
        None => {}
    }
    Ok(())
}

/// The same reversion once more.
pub fn copied_reversion(alloc: Global, reversion: &Pending) -> Result<Pending, NoMemory>
    ensures { IfOk result (λ copy. copy ≡ reversion.now) }
{
    let steps = Vec::from_slice(alloc, reversion.steps.slice())?;
    Ok(Pending {
        txn: reversion.txn,
        owner: reversion.owner,
        point: reversion.point,
        priority: reversion.priority,
        steps: Items::from_vec(steps),
        start: reversion.start,
    })
}
