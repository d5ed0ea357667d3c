ghost use Rattle.std.specs.Prelude.{◌≡◌, ◌≤◌, ◌∷◌, [], true, false, length, option_copied};
ghost use Rattle.std.specs.List.Sorted.{IsPartitionPoint};
ghost use Rattle.boss_model.specs.Sound.{Rising};
ghost use Rattle.boss_model.specs.State.{lease_slot, pending_slot};
ghost use Rattle.boss_state_check.specs.Searches.{precedes, rises, lease_at, pending_at, transaction_of, kept_rank, is_held, is_played};

use boss_model::{KeptTxn, Lease, Pending, PointId, Priority, Txn};

/// Whether one slot stands before another, by points and then by priorities.
fn precedes(one: (PointId, Priority), other: (PointId, Priority)) -> bool
    ensures { result ≡ precedes (one.0 ∷ one.1 ∷ []) (other.0 ∷ other.1 ∷ []) }
{
    one.0 < other.0 || (one.0 == other.0 && one.1 < other.1)
}

/// The slot that a lease holds.
fn slot_of(lease: &Lease) -> (PointId, Priority)
    ensures { result ≡ (lease.now.point, lease.now.priority) }
{
    (lease.point, lease.priority)
}

/// The slot that a reversion keeps.
fn place_of(reversion: &Pending) -> (PointId, Priority)
    ensures { result ≡ (reversion.now.point, reversion.now.priority) }
{
    (reversion.point, reversion.priority)
}

/// Whether each lease stands before the next, by their slots.
pub fn leases_rise(leases: &[Lease]) -> bool
    ensures { result ≡ rises lease_slot leases.now }
{
    leases
        .iter()
        .zip(leases.iter().skip(1))
        .all(|(lease, next)| precedes(slot_of(lease), slot_of(next)))
}

/// Whether each reversion stands before the next, by their slots.
pub fn pending_rise(pending: &[Pending]) -> bool
    ensures { result ≡ rises pending_slot pending.now }
{
    pending.iter().zip(pending.iter().skip(1)).all(|(reversion, next)| precedes(
        place_of(reversion),
        place_of(next),
    ))
}

/// Whether each transaction stands before the next, by their numbers.
pub fn transactions_rise(txns: &[KeptTxn]) -> bool
    ensures { result ≡ rises kept_rank txns.now }
{
    txns.iter()
        .zip(txns.iter().skip(1))
        .all(|(transaction, next)| transaction.txn < next.txn)
}

/// The place of the first lease that does not stand before the slot.
fn lease_place(leases: &[Lease], slot: (PointId, Priority)) -> usize
    requires { Rising lease_slot leases.now }
    ensures { IsPartitionPoint (λ lease. precedes (lease_slot lease) (slot.0 ∷ slot.1 ∷ []) ≡ true) (λ lease. precedes (lease_slot lease) (slot.0 ∷ slot.1 ∷ []) ≡ false) leases.now result }
{
    leases.partition_point(|lease| precedes(slot_of(lease), slot))
}

/// The lease in a slot, which is found by halves.
pub fn lease_at(leases: &[Lease], slot: (PointId, Priority)) -> Option<&Lease>
    requires { Rising lease_slot leases.now }
    ensures { option_copied result ≡ lease_at leases.now slot.0 slot.1 }
{
    match leases.get(lease_place(leases, slot)) {
        Some(lease) if slot_of(lease) == slot => Some(lease),
        _ => None,
    }
}

/// The place of the first reversion that does not stand before the slot.
fn reversion_place(pending: &[Pending], slot: (PointId, Priority)) -> usize
    requires { Rising pending_slot pending.now }
    ensures { IsPartitionPoint (λ reversion. precedes (pending_slot reversion) (slot.0 ∷ slot.1 ∷ []) ≡ true) (λ reversion. precedes (pending_slot reversion) (slot.0 ∷ slot.1 ∷ []) ≡ false) pending.now result }
{
    pending.partition_point(|reversion| precedes(place_of(reversion), slot))
}

/// The reversion under way in a slot, which is found by halves.
pub fn pending_at(pending: &[Pending], slot: (PointId, Priority)) -> Option<&Pending>
    requires { Rising pending_slot pending.now }
    ensures { option_copied result ≡ pending_at pending.now slot.0 slot.1 }
{
    match pending.get(reversion_place(pending, slot)) {
        Some(reversion) if place_of(reversion) == slot => Some(reversion),
        _ => None,
    }
}

/// The place of the first transaction that does not stand before the number.
fn transaction_place(txns: &[KeptTxn], txn: Txn) -> usize
    requires { Rising kept_rank txns.now }
    ensures { IsPartitionPoint (λ transaction. precedes (kept_rank transaction) (txn ∷ []) ≡ true) (λ transaction. precedes (kept_rank transaction) (txn ∷ []) ≡ false) txns.now result }
{
    txns.partition_point(|transaction| transaction.txn < txn)
}

/// The record of a transaction, which is found by halves.
pub fn transaction_of(txns: &[KeptTxn], txn: Txn) -> Option<&KeptTxn>
    requires { Rising kept_rank txns.now }
    ensures { option_copied result ≡ transaction_of txns.now txn }
{
    match txns.get(transaction_place(txns, txn)) {
        Some(transaction) if transaction.txn == txn => Some(transaction),
        _ => None,
    }
}

/// Whether the transaction holds the slot.
pub fn is_held(leases: &[Lease], txn: Txn, slot: (PointId, Priority)) -> bool
    requires { Rising lease_slot leases.now }
    ensures { result ≡ is_held leases.now txn slot.0 slot.1 }
{
    match lease_at(leases, slot) {
        Some(lease) => lease.txn == txn,
        None => false,
    }
}

/// Whether a reversion of the transaction is under way in the slot.
pub fn is_played(pending: &[Pending], txn: Txn, slot: (PointId, Priority)) -> bool
    requires { Rising pending_slot pending.now }
    ensures { result ≡ is_played pending.now txn slot.0 slot.1 }
{
    match pending_at(pending, slot) {
        Some(reversion) => reversion.txn == txn,
        None => false,
    }
}
