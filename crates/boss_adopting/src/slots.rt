//! Leases and reversions on their new points, in the order of their new slots.

ghost use Rattle.std.specs.Prelude.{◌≡◌, not, map, IfOk};
ghost use Rattle.std.specs.Ordering.{is_lt};
ghost use Rattle.boss_model.specs.Order.{comes_before, in_order};
ghost use Rattle.boss_model.specs.Sound.{Rising};
ghost use Rattle.boss_model.specs.State.{lease_slot, pending_slot};
ghost use Rattle.law_adoption.specs.Adopted.{moved_lease, moved_pending};
ghost use Rattle.law_due.specs.Telling.{AreApart};
ghost use Rattle.boss_adopting.specs.Places.{places_of};

use crate::numbering::Numbering;
use boss_model::{Items, Lease, NoMemory, Pending};
use std::alloc::Global;
use std::cmp::Ordering;

/// These leases on their new points, in order.
pub(crate) fn leases_in_order(
    alloc: Global,
    numbering: &Numbering,
    leases: &[Lease],
) -> Result<Vec<Lease>, NoMemory>
    requires { Rising lease_slot (in_order lease_slot (map (moved_lease (places_of numbering.now)) leases.now)) }
    ensures { IfOk result (λ moved. moved.items ≡ in_order lease_slot (map (moved_lease (places_of numbering.now)) leases.now)) }
{
    let mut moved = moved_leases(alloc, numbering, leases)?;
    put_leases_in_order(&mut moved);
    Ok(moved)
}

/// These leases on their new points.
fn moved_leases(
    alloc: Global,
    numbering: &Numbering,
    leases: &[Lease],
) -> Result<Vec<Lease>, NoMemory>
    ensures { IfOk result (λ moved. moved.items ≡ map (moved_lease (places_of numbering.now)) leases.now) }
{
    let mut moved = Vec::with_capacity(alloc, leases.len())?;
    for lease in leases {
        moved.push(moved_lease(alloc, numbering, lease)?)?;
    }
    Ok(moved)
}

/// The lease on its new point.
fn moved_lease(alloc: Global, numbering: &Numbering, lease: &Lease) -> Result<Lease, NoMemory>
    ensures { IfOk result (λ moved. moved ≡ moved_lease (places_of numbering.now) lease.now) }
{
    let revert = Vec::from_slice(alloc, lease.revert.slice())?;
    Ok(Lease {
        txn: lease.txn,
        owner: lease.owner,
        point: numbering.at(lease.point),
        priority: lease.priority,
        value: lease.value,
        until: lease.until,
        revert: Items::from_vec(revert),
        policy: lease.policy,
    })
}

/// Puts leases in the order of their slots.
fn put_leases_in_order(leases: &mut Vec<Lease>)
    requires { AreApart lease_slot leases.old.items }
    ensures { leases.new.items ≡ in_order lease_slot leases.old.items }
{
    leases.sort_unstable_by(|one, other| compare_leases(one, other));
}

/// Whether the slot of the first lease stands before that of the second.
fn compare_leases(one: &Lease, other: &Lease) -> Ordering
    ensures { is_lt result ≡ not (comes_before (lease_slot other.now) (lease_slot one.now)) }
{
    one.point
        .cmp(&other.point)
        .then(one.priority.cmp(&other.priority))
}

/// These reversions on their new points, in order.
pub(crate) fn pending_in_order(
    alloc: Global,
    numbering: &Numbering,
    pending: &[Pending],
) -> Result<Vec<Pending>, NoMemory>
    requires { Rising pending_slot (in_order pending_slot (map (moved_pending (places_of numbering.now)) pending.now)) }
    ensures { IfOk result (λ moved. moved.items ≡ in_order pending_slot (map (moved_pending (places_of numbering.now)) pending.now)) }
{
    let mut moved = moved_pending(alloc, numbering, pending)?;
    put_pending_in_order(&mut moved);
    Ok(moved)
}

/// These reversions on their new points.
fn moved_pending(
    alloc: Global,
    numbering: &Numbering,
    pending: &[Pending],
) -> Result<Vec<Pending>, NoMemory>
    ensures { IfOk result (λ moved. moved.items ≡ map (moved_pending (places_of numbering.now)) pending.now) }
{
    let mut moved = Vec::with_capacity(alloc, pending.len())?;
    for reversion in pending {
        moved.push(moved_reversion(alloc, numbering, reversion)?)?;
    }
    Ok(moved)
}

/// The reversion on its new point.
fn moved_reversion(
    alloc: Global,
    numbering: &Numbering,
    reversion: &Pending,
) -> Result<Pending, NoMemory>
    ensures { IfOk result (λ moved. moved ≡ moved_pending (places_of numbering.now) reversion.now) }
{
    let steps = Vec::from_slice(alloc, reversion.steps.slice())?;
    Ok(Pending {
        txn: reversion.txn,
        owner: reversion.owner,
        point: numbering.at(reversion.point),
        priority: reversion.priority,
        steps: Items::from_vec(steps),
        start: reversion.start,
    })
}

/// Puts reversions in the order of their slots.
fn put_pending_in_order(pending: &mut Vec<Pending>)
    requires { AreApart pending_slot pending.old.items }
    ensures { pending.new.items ≡ in_order pending_slot pending.old.items }
{
    pending.sort_unstable_by(|one, other| compare_pending(one, other));
}

/// Whether the slot of the first reversion stands before that of the second.
fn compare_pending(one: &Pending, other: &Pending) -> Ordering
    ensures { is_lt result ≡ not (comes_before (pending_slot other.now) (pending_slot one.now)) }
{
    one.point
        .cmp(&other.point)
        .then(one.priority.cmp(&other.priority))
}
