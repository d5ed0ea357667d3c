//! The records of transactions, whose parts ended earlier.

ghost use Rattle.std.specs.Prelude.{◌≡◌, map};
ghost use Rattle.boss_model.specs.Seen.{seen_part, seen_txn};
ghost use Rattle.law_shift.specs.Shifted.{shifted_part, shifted_txn};

use boss_model::{Items, KeptPart, KeptTxn};
use std::alloc::Global;
use std::mem;

/// These records, their ended parts ended as much earlier.
pub(crate) fn shifted_records(alloc: Global, txns: Items<KeptTxn>, by: u64) -> Items<KeptTxn>
    ensures { map seen_txn result ≡ map (shifted_txn by) (map seen_txn txns) }
{
    let mut txns = txns.into_vec();
    shift_records(alloc, txns.as_mut_slice(), by);
    Items::from_vec(txns)
}

fn shift_records(alloc: Global, txns: &mut [KeptTxn], by: u64)
    ensures { map seen_txn txns.new ≡ map (shifted_txn by) (map seen_txn txns.old) }
{
    for transaction in txns.iter_mut() {
        shift_record(alloc, transaction, by);
    }
}

fn shift_record(alloc: Global, transaction: &mut KeptTxn, by: u64)
    ensures { seen_txn transaction.new ≡ shifted_txn by (seen_txn transaction.old) }
{
    let parts = mem::replace(&mut transaction.parts, Items::new(alloc));
    transaction.parts = shifted_parts(parts, by);
}

/// These parts, those of them that ended ended as much earlier.
fn shifted_parts(parts: Items<KeptPart>, by: u64) -> Items<KeptPart>
    ensures { map seen_part result ≡ map (shifted_part by) (map seen_part parts) }
{
    let mut parts = parts.into_vec();
    shift_parts(parts.as_mut_slice(), by);
    Items::from_vec(parts)
}

fn shift_parts(parts: &mut [KeptPart], by: u64)
    ensures { map seen_part parts.new ≡ map (shifted_part by) (map seen_part parts.old) }
{
    for part in parts.iter_mut() {
        shift_part(part, by);
    }
}

fn shift_part(part: &mut KeptPart, by: u64)
    ensures { seen_part part.new ≡ shifted_part by (seen_part part.old) }
{
    if let Some((cause, at)) = part.end {
        part.end = Some((cause, at.saturating_sub(by)));
    }
}
