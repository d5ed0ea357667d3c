ghost use Rattle.std.specs.Prelude.{◌≡◌, ◌==◌};
ghost use Rattle.std.specs.List.{list_all, list_any};
ghost use Rattle.boss_model.specs.Sound.{Rising};
ghost use Rattle.boss_model.specs.State.{lease_slot};
ghost use Rattle.boss_state_check.specs.Tests.{is_slot, is_part, is_past, have_own_points, is_transaction};

use crate::searches::is_held;
use boss_model::{
    Actuator, Cause, Kept, KeptPart, KeptTxn, Lease, MOST_WRITES, PointId, Priority, Txn,
};

/// Whether each of the records may stand in this state.
pub fn are_transactions(plant: &[Actuator], kept: &Kept) -> bool
    requires { Rising lease_slot kept.now.leases }
    ensures { result ≡ list_all (is_transaction plant.now kept.entry.now) kept.entry.now.txns }
{
    kept.txns
        .slice()
        .iter()
        .all(|transaction| is_transaction(plant, kept, transaction))
}

/// Whether the record may stand in this state.
fn is_transaction(plant: &[Actuator], kept: &Kept, transaction: &KeptTxn) -> bool
    requires { Rising lease_slot kept.now.leases }
    ensures { result ≡ is_transaction plant.now kept.entry.now transaction.now }
{
    let parts = transaction.parts.slice();
    1 <= transaction.txn.0
        && transaction.txn < kept.next
        && (transaction.owner.0 as usize) < kept.processes.slice().len()
        && 1 <= parts.len()
        && parts.len() <= MOST_WRITES
        && have_own_points(parts)
        && are_parts(plant, kept.now, transaction.txn, kept.leases.slice(), parts)
}

/// Whether no two parts are on one point.
fn have_own_points(parts: &[KeptPart]) -> bool
    ensures { result ≡ have_own_points parts.now }
{
    let mut rest = parts;
    while let Some((part, others)) = rest.split_first() {
        if is_written(others, part.point) {
            return false;
        }
        rest = others;
    }
    true
}

/// Whether one of the parts is on this point.
fn is_written(parts: &[KeptPart], point: PointId) -> bool
    ensures { result ≡ list_any (λ part. part.point == point) parts.now }
{
    parts.iter().any(|part| part.point == point)
}

/// Whether each of the parts may stand in the record of this transaction.
fn are_parts(plant: &[Actuator], now: u64, txn: Txn, leases: &[Lease], parts: &[KeptPart]) -> bool
    requires { Rising lease_slot leases.now }
    ensures { result ≡ list_all (is_part plant.now now txn leases.now) parts.now }
{
    parts
        .iter()
        .all(|part| is_part(plant, now, txn, leases, part))
}

/// Whether the part may stand in the record of this transaction.
fn is_part(plant: &[Actuator], now: u64, txn: Txn, leases: &[Lease], part: &KeptPart) -> bool
    requires { Rising lease_slot leases.now }
    ensures { result ≡ is_part plant.now now txn leases.now part.now }
{
    is_slot(plant.len(), part.point, part.priority)
        && is_past(now, part.end)
        && part.end.is_none() == is_held(leases, txn, (part.point, part.priority))
}

/// Whether the slot is one of one of so many points. Its priority may be any.
fn is_slot(points: usize, point: PointId, _priority: Priority) -> bool
    ensures { result ≡ is_slot points point _priority }
{
    (point.0 as usize) < points
}

/// Whether an end, if there is one, is no later than this moment.
fn is_past(now: u64, end: Option<(Cause, u64)>) -> bool
    ensures { result ≡ is_past now end }
{
    match end {
        Some((_, at)) => at <= now,
        None => true,
    }
}
