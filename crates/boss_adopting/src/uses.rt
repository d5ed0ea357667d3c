//! Whether a removed point is in use.

ghost use Rattle.std.specs.Prelude.{◌≡◌, ◌∷◌, [], if◌then◌else◌, map};
ghost use Rattle.boss_model.specs.Lists.{member};
ghost use Rattle.boss_model.specs.Seen.{seen, seen_txn};
ghost use Rattle.law_adoption.specs.MayMove.{in_use};
ghost use Rattle.boss_adopting.specs.Least.{least_removed, least_used};
ghost use Rattle.boss_adopting.specs.Places.{places_of};

use crate::least::lesser_of;
use crate::numbering::Numbering;
use boss_model::{Kept, KeptPart, KeptTxn, PointId, Txn};

/// The least removed point that the record of a transaction which is not done names.
pub(crate) fn least_in_use(numbering: &Numbering, kept: &Kept) -> Option<PointId>
    ensures { result ≡ in_use (places_of numbering.now) (seen kept.entry.now) }
{
    least_used(numbering, kept.done.slice(), kept.txns.slice())
}

/// The least removed point that these records name, but for those of the done transactions.
fn least_used(numbering: &Numbering, done: &[Txn], txns: &[KeptTxn]) -> Option<PointId>
    ensures { result ≡ least_used (places_of numbering.now) done.now (map seen_txn txns.now) }
{
    let mut found = None;
    for transaction in txns {
        found = lesser_of(found, least_used_by(numbering, done, transaction));
    }
    found
}

/// The least removed point that this record names, if its transaction is not done.
fn least_used_by(numbering: &Numbering, done: &[Txn], transaction: &KeptTxn) -> Option<PointId>
    ensures { result ≡ least_used (places_of numbering.now) done.now (seen_txn transaction.now ∷ []) }
{
    match least_removed(numbering, transaction.parts.slice()) {
        // few records name a removed point, and only for these the done ones are gone through
        Some(point) => unless_done(done, transaction.txn, point),
        None => None,
    }
}

/// The point, unless the transaction is done.
fn unless_done(done: &[Txn], txn: Txn, point: PointId) -> Option<PointId>
    ensures { result ≡ (if member txn done.now then None else Some point) }
{
    if is_among(done, txn) {
        None
    } else {
        Some(point)
    }
}

/// The least removed point of these parts.
fn least_removed(numbering: &Numbering, parts: &[KeptPart]) -> Option<PointId>
    ensures { result ≡ least_removed (places_of numbering.now) (map (λ part. part.point) parts.now) }
{
    let mut found = None;
    for part in parts {
        found = lesser_of(found, unless_staying(numbering, part.point));
    }
    found
}

/// The point, unless it stays.
fn unless_staying(numbering: &Numbering, point: PointId) -> Option<PointId>
    ensures { result ≡ least_removed (places_of numbering.now) (point ∷ []) }
{
    if numbering.stays(point) {
        None
    } else {
        Some(point)
    }
}

/// Whether the number stands in the list.
fn is_among(done: &[Txn], txn: Txn) -> bool
    ensures { result ≡ member txn done.now }
{
    done.iter().any(|other| *other == txn)
}
