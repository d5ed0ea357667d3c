ghost use Rattle.std.specs.Prelude.{◌≡◌, ◌||◌, is_none};
ghost use Rattle.std.specs.List.{list_all, list_any};
ghost use Rattle.boss_model.specs.Lists.{member};
ghost use Rattle.boss_model.specs.Sound.{Rising};
ghost use Rattle.boss_model.specs.State.{pending_slot};
ghost use Rattle.boss_state_check.specs.Searches.{kept_rank, is_played};
ghost use Rattle.boss_state_check.specs.Tests.{are_distinct, is_recorded, is_settled};

use crate::searches::{is_played, transaction_of};
use boss_model::{KeptPart, KeptTxn, Pending, Txn};

/// Whether no number stands twice.
pub fn are_distinct(done: &[Txn]) -> bool
    ensures { result ≡ are_distinct done.now }
{
    let mut rest = done;
    while let Some((txn, others)) = rest.split_first() {
        if is_among(others, *txn) {
            return false;
        }
        rest = others;
    }
    true
}

/// Whether the number stands in the list.
fn is_among(done: &[Txn], txn: Txn) -> bool
    ensures { result ≡ member txn done.now }
{
    done.iter().any(|other| *other == txn)
}

/// Whether there is a record of each of these transactions.
pub fn are_recorded(txns: &[KeptTxn], done: &[Txn]) -> bool
    requires { Rising kept_rank txns.now }
    ensures { result ≡ list_all (is_recorded txns.now) done.now }
{
    done.iter().all(|txn| is_recorded(txns, *txn))
}

/// Whether there is a record of the transaction.
fn is_recorded(txns: &[KeptTxn], txn: Txn) -> bool
    requires { Rising kept_rank txns.now }
    ensures { result ≡ is_recorded txns.now txn }
{
    transaction_of(txns, txn).is_some()
}

/// Whether each transaction is among the done ones exactly where it is over.
pub fn are_settled(pending: &[Pending], done: &[Txn], txns: &[KeptTxn]) -> bool
    requires { Rising pending_slot pending.now }
    ensures { result ≡ list_all (is_settled pending.now done.now) txns.now }
{
    txns.iter()
        .all(|transaction| is_settled(pending, done, transaction))
}

/// Whether the transaction is among the done ones exactly where it is over.
fn is_settled(pending: &[Pending], done: &[Txn], transaction: &KeptTxn) -> bool
    requires { Rising pending_slot pending.now }
    ensures { result ≡ is_settled pending.now done.now transaction.now }
{
    is_among(done, transaction.txn)
        != is_living(pending, transaction.txn, transaction.parts.slice())
}

/// Whether one of the parts of this transaction has a lease, or a reversion under way.
fn is_living(pending: &[Pending], txn: Txn, parts: &[KeptPart]) -> bool
    requires { Rising pending_slot pending.now }
    ensures { result ≡ list_any (λ part. is_none part.end || is_played pending.now txn part.point part.priority) parts.now }
{
    parts.iter().any(|part| part.end.is_none()
        || is_played(pending, txn, (part.point, part.priority)))
}
