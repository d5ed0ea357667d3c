//! The records of transactions that name no removed point, on their new points, and which of them are done.

ghost use Rattle.std.specs.Prelude.{◌≡◌, ◌∷◌, [], true, false, map, filter, IfOk};
ghost use Rattle.std.specs.List.{list_all};
ghost use Rattle.std.specs.List.Sorted.{IsPartitionPoint};
ghost use Rattle.boss_model.specs.Seen.{seen_part, seen_txn};
ghost use Rattle.boss_model.specs.Sound.{Rising, is_kept, number_rank};
ghost use Rattle.boss_state_check.specs.Searches.{precedes, kept_rank};
ghost use Rattle.law_adoption.specs.Adopted.{moved_part, moved_txn, all_stay, staying};
ghost use Rattle.law_adoption.specs.Renumber.{stays};
ghost use Rattle.boss_adopting.specs.Places.{places_of};

use crate::numbering::Numbering;
use boss_model::{Items, KeptPart, KeptTxn, NoMemory, Txn};
use std::alloc::Global;

/// The records of these whose points all stay, on their new points.
pub(crate) fn moved_records(
    alloc: Global,
    numbering: &Numbering,
    txns: &[KeptTxn],
) -> Result<Vec<KeptTxn>, NoMemory>
    ensures { IfOk result (λ moved. map seen_txn moved.items ≡ map (moved_txn (places_of numbering.now)) (staying (places_of numbering.now) (map seen_txn txns.now))) }
{
    let mut moved = Vec::new(alloc);
    for transaction in txns {
        if all_stay(numbering, transaction) {
            moved.push(moved_record(alloc, numbering, transaction)?)?;
        }
    }
    Ok(moved)
}

/// Whether the record names no removed point.
fn all_stay(numbering: &Numbering, transaction: &KeptTxn) -> bool
    ensures { result ≡ all_stay (places_of numbering.now) (seen_txn transaction.now) }
{
    parts_stay(numbering, transaction.parts.slice())
}

/// Whether none of these parts is on a removed point.
fn parts_stay(numbering: &Numbering, parts: &[KeptPart]) -> bool
    ensures { result ≡ list_all (λ part. stays (places_of numbering.now) part.point) parts.now }
{
    parts.iter().all(|part| numbering.stays(part.point))
}

/// The record on its new points.
fn moved_record(
    alloc: Global,
    numbering: &Numbering,
    transaction: &KeptTxn,
) -> Result<KeptTxn, NoMemory>
    ensures { IfOk result (λ moved. seen_txn moved ≡ moved_txn (places_of numbering.now) (seen_txn transaction.now)) }
{
    let parts = moved_parts(alloc, numbering, transaction.parts.slice())?;
    Ok(KeptTxn {
        txn: transaction.txn,
        owner: transaction.owner,
        policy: transaction.policy,
        parts: Items::from_vec(parts),
    })
}

/// These parts on their new points.
fn moved_parts(
    alloc: Global,
    numbering: &Numbering,
    parts: &[KeptPart],
) -> Result<Vec<KeptPart>, NoMemory>
    ensures { IfOk result (λ moved. map seen_part moved.items ≡ map (moved_part (places_of numbering.now)) (map seen_part parts.now)) }
{
    let mut moved = Vec::with_capacity(alloc, parts.len())?;
    for part in parts {
        moved.push(moved_part(numbering, part))?;
    }
    Ok(moved)
}

/// The part on its new point.
fn moved_part(numbering: &Numbering, part: &KeptPart) -> KeptPart
    ensures { seen_part result ≡ moved_part (places_of numbering.now) (seen_part part.now) }
{
    KeptPart {
        point: numbering.at(part.point),
        priority: part.priority,
        end: part.end,
    }
}

/// The numbers of which there are records among these.
pub(crate) fn with_records(
    alloc: Global,
    txns: &[KeptTxn],
    numbers: &[Txn],
) -> Result<Vec<Txn>, NoMemory>
    requires { Rising number_rank (map seen_txn txns.now) }
    ensures { IfOk result (λ left. left.items ≡ filter (is_kept (map seen_txn txns.now)) numbers.now) }
{
    let mut left = Vec::with_capacity(alloc, numbers.len())?;
    for txn in numbers {
        if has_record(txns, *txn) {
            left.push(*txn)?;
        }
    }
    Ok(left)
}

/// Whether one of the records is the transaction's, which is found by halves.
fn has_record(txns: &[KeptTxn], txn: Txn) -> bool
    requires { Rising number_rank (map seen_txn txns.now) }
    ensures { result ≡ is_kept (map seen_txn txns.now) txn }
{
    match txns.get(record_place(txns, txn)) {
        Some(transaction) => transaction.txn == txn,
        None => false,
    }
}

/// The place of the first record that does not stand before the number.
fn record_place(txns: &[KeptTxn], txn: Txn) -> usize
    requires { Rising kept_rank txns.now }
    ensures { IsPartitionPoint (λ transaction. precedes (kept_rank transaction) (txn ∷ []) ≡ true) (λ transaction. precedes (kept_rank transaction) (txn ∷ []) ≡ false) txns.now result }
{
    txns.partition_point(|transaction| transaction.txn < txn)
}
