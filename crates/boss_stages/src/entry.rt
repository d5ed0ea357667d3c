ghost use Rattle.std.specs.Prelude.{◌≡◌, option_and_then};
ghost use Rattle.boss_stages.specs.Entries.{entry_number, entry_kept, entry_with, is_kept};
ghost use Rattle.boss_stages.specs.Stages.{is_over, part_end, part_on, with_end, without_reversion};
ghost use Rattle.boss_stages.specs.declared.part.PartEnd.TheVariants.{Live};

use crate::transaction::Transaction;
use boss_model::{Cause, PointId, Txn};

/// A place in the list of transactions. One that is forgotten leaves its number there, so that none of the others moves.
#[derive(Drop)]
pub enum Entry {
    Kept(Transaction),
    Forgotten(Txn),
}

impl Entry {
    /// The number of the transaction that stands there, or stood.
    pub fn number(&self) -> u64
        ensures { result ≡ entry_number self.now }
    {
        match self {
            Entry::Kept(transaction) => transaction.number(),
            Entry::Forgotten(txn) => txn.0,
        }
    }

    /// Whether a transaction stands there.
    pub fn is_kept(&self) -> bool
        ensures { result ≡ is_kept self.now }
    {
        matches!(self, Entry::Kept(_))
    }

    /// The live lease of its part on the point ends so, and its reversion begins if it has one. The answer is whether nothing of the
    /// transaction is left.
    pub fn end_lease(&mut self, point: PointId, cause: Cause, at: u64, reverts: bool) -> bool
        requires { part_end (option_and_then (λ kept. part_on point kept.transaction.parts) (entry_kept self.old)) ≡ Live }
        ensures entry { self.new ≡ entry_with (with_end point cause at reverts) self.old }
        ensures over { result ≡ is_over (entry_kept self.new) }
    {
        match self {
            Entry::Kept(transaction) => {
                transaction.end_lease(point, cause, at, reverts);
                transaction.is_over()
            }
            Entry::Forgotten(_) => false,
        }
    }

    /// The pending reversion on the point ends. The answer is whether nothing of the transaction is left.
    pub fn end_reversion(&mut self, point: PointId) -> bool
        ensures entry { self.new ≡ entry_with (without_reversion point) self.old }
        ensures over { result ≡ is_over (entry_kept self.new) }
    {
        match self {
            Entry::Kept(transaction) => {
                transaction.end_reversion(point);
                transaction.is_over()
            }
            Entry::Forgotten(_) => false,
        }
    }
}
