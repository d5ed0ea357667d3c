ghost use Rattle.std.specs.Prelude.{◌≡◌, ◌==◌, ◌&&◌, is_none};
ghost use Rattle.std.specs.List.{list_all, list_any};
ghost use Rattle.boss_model.specs.Sound.{Rising, is_superseded};
ghost use Rattle.boss_state_check.specs.Searches.{kept_rank};
ghost use Rattle.boss_state_check.specs.Tests.{tells_lease, is_told_lease, is_start, tells_pending, is_told_pending};

use crate::searches::transaction_of;
use boss_model::{Cause, KeptPart, KeptTxn, Lease, Pending, PointId, Priority};

/// Whether each lease has its part in the record of its transaction.
pub fn leases_are_told(txns: &[KeptTxn], leases: &[Lease]) -> bool
    requires { Rising kept_rank txns.now }
    ensures { result ≡ list_all (is_told_lease txns.now) leases.now }
{
    leases.iter().all(|lease| is_told_lease(txns, lease))
}

/// Whether the lease has its part in the record of its transaction.
fn is_told_lease(txns: &[KeptTxn], lease: &Lease) -> bool
    requires { Rising kept_rank txns.now }
    ensures { result ≡ is_told_lease txns.now lease.now }
{
    match transaction_of(txns, lease.txn) {
        Some(transaction) => tells_lease(transaction, lease),
        None => false,
    }
}

/// Whether the record is one that the lease may have.
fn tells_lease(transaction: &KeptTxn, lease: &Lease) -> bool
    ensures { result ≡ tells_lease lease.now transaction.now }
{
    transaction.owner == lease.owner
        && transaction.policy == lease.policy
        && has_open_part(transaction.parts.slice(), lease.point, lease.priority)
}

/// Whether a part in this slot has no end.
fn has_open_part(parts: &[KeptPart], point: PointId, priority: Priority) -> bool
    ensures { result ≡ list_any (λ part. (part.point == point) && (part.priority == priority) && is_none part.end) parts.now }
{
    parts.iter().any(|part| part.point == point && part.priority == priority && part.end.is_none())
}

/// Whether each reversion has its part in the record of its transaction.
pub fn pending_are_told(txns: &[KeptTxn], pending: &[Pending]) -> bool
    requires { Rising kept_rank txns.now }
    ensures { result ≡ list_all (is_told_pending txns.now) pending.now }
{
    pending
        .iter()
        .all(|reversion| is_told_pending(txns, reversion))
}

/// Whether the reversion has its part in the record of its transaction.
fn is_told_pending(txns: &[KeptTxn], reversion: &Pending) -> bool
    requires { Rising kept_rank txns.now }
    ensures { result ≡ is_told_pending txns.now reversion.now }
{
    match transaction_of(txns, reversion.txn) {
        Some(transaction) => tells_pending(transaction, reversion),
        None => false,
    }
}

/// Whether the record is one that the reversion may have.
fn tells_pending(transaction: &KeptTxn, reversion: &Pending) -> bool
    ensures { result ≡ tells_pending reversion.now transaction.now }
{
    transaction.owner == reversion.owner && has_started_part(transaction.parts.slice(), reversion)
}

/// Whether a part in the slot of the reversion ended as it started.
fn has_started_part(parts: &[KeptPart], reversion: &Pending) -> bool
    ensures { result ≡ list_any (λ part. (part.point == reversion.now.point) && (part.priority == reversion.now.priority) && is_start reversion.now.start part.end) parts.now }
{
    parts.iter().any(|part| {
        part.point == reversion.point
            && part.priority == reversion.priority
            && is_start(reversion.start, part.end)
    })
}

/// Whether the end started a reversion at this moment.
fn is_start(start: u64, end: Option<(Cause, u64)>) -> bool
    ensures { result ≡ is_start start end }
{
    match end {
        Some((cause, at)) => at == start && !is_superseded(cause),
        None => false,
    }
}

/// Whether another lease took the slot.
fn is_superseded(cause: Cause) -> bool
    ensures { result ≡ is_superseded cause }
{
    matches!(cause, Cause::Superseded { .. })
}
