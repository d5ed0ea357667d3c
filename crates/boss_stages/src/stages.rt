ghost use Rattle.std.specs.Prelude.{◌≡◌, ◌+◌, ◌<◌, ◌≤◌, ◌==◌, ◌∷◌, [], ◌++◌, true, length, map, option_copied, option_and_then, slice_get, Some, All, IfOk, IfSome, IsTrue, OnOk, OnErr};
ghost use Rattle.std.specs.Option.{option_map};
ghost use Rattle.boss_model.specs.Limits.{done_kept};
ghost use Rattle.boss_model.specs.Seen.{seen_txn};
ghost use Rattle.boss_stages.specs.declared.part.PartEnd.TheVariants.{Live};
ghost use Rattle.boss_stages.specs.Stages.{number, stage_of, slot_of, begun, kept_as, end_on, is_reverting, is_over, without, finished, finished_if_over, after_lease, after_reversion};

use crate::list::TransactionList;
use crate::part::PartEnd;
use crate::transaction::Transaction;
use boss_model::{
    Cause, DONE_KEPT, Items, KeptTxn, NoMemory, PointId, Policy, Priority, ProcId, Stage, Txn,
};
use circular_buffer::HeapCircularBuffer;
use std::alloc::Global;
use std::marker::Model;

/// What is kept of transactions: of all that are not done, and of at most 1,024 that are, the last that became done. A
/// transaction goes from stage to stage as in BOSS (Dawson-Haggerty et al., NSDI 2013): it runs, it reverts, and it is done.
#[derive(Drop)]
pub struct Stages {
    transactions: TransactionList,
    done: HeapCircularBuffer<Txn>,
}

impl Model for Stages {
    ghost use Rattle.std.specs.Prelude.{◌≡◌, ◌≤◌, length};
    ghost use Rattle.boss_model.specs.Limits.{done_kept};
    ghost use Rattle.boss_stages.specs.Stages.{Stages as Records};

    ghost Value = { Records };

    ghost view = { λ s. record { kept = s.transactions.kept; done = s.done.items; room = s.transactions.room } };

    ghost invariant = { λ s. (s.done.capacity ≡ done_kept) × (length s.done.items ≤ done_kept) };
}

impl Stages {
    /// No transaction, with room for this many that are not done and all that are kept of those that are.
    pub fn new(alloc: Global, capacity: u32) -> Result<Stages, NoMemory>
        ensures empty { IfOk result (λ stages. (stages.kept ≡ []) × (stages.done ≡ [])) }
        ensures room { IfOk result (λ stages. capacity + done_kept ≤ stages.room) }
    {
        Ok(Stages {
            transactions: TransactionList::new(alloc, capacity)?,
            done: HeapCircularBuffer::with_capacity(alloc, DONE_KEPT)?,
        })
    }

    /// A transaction more, all of whose parts have live leases. Its number is above that of each one that is kept. A
    /// transaction has 1 to 32 parts, on different points.
    pub fn begin(
        &mut self,
        alloc: Global,
        txn: Txn,
        owner: ProcId,
        policy: Policy,
        parts: &Items<(PointId, Priority)>,
    ) -> Result<(), NoMemory>
        requires { All (λ kept. number kept < txn) self.old.kept }
        ensures ok { OnOk result (self.new.kept ≡ self.old.kept ++ begun txn owner policy parts.now ∷ []) }
        ensures err { OnErr result (self.new.kept ≡ self.old.kept) }
        ensures done { self.new.done ≡ self.old.done }
        ensures room { self.old.room ≤ self.new.room }
    {
        let transaction = Transaction::new(alloc, txn, owner, policy, parts.slice())?;
        self.reserve()?;
        self.add(transaction);
        Ok(())
    }

    /// How many transactions there is room for, which no call makes less.
    pub fn room(&self) -> usize
        ensures { result ≡ self.now.room }
    {
        self.transactions.room()
    }

    /// Makes room for one transaction more.
    pub fn reserve(&mut self) -> Result<(), NoMemory>
        ensures ok { OnOk result (length self.new.kept < self.new.room) }
        ensures same { (self.new.kept ≡ self.old.kept) × (self.new.done ≡ self.old.done) }
        ensures room { self.old.room ≤ self.new.room }
    {
        self.transactions.reserve()
    }

    /// A transaction more, whose number is above that of each one that is kept. It takes no memory, since there is room.
    pub fn add(&mut self, transaction: Transaction)
        requires newest { All (λ kept. number kept < number transaction) self.old.kept }
        requires room { length self.old.kept < self.old.room }
        ensures { self.new ≡ record self.old { kept = self.old.kept ++ transaction ∷ [] } }
    {
        self.transactions.add(transaction);
    }

    /// The live lease of the transaction's part on the point ended for this cause at this moment, in milliseconds, and its
    /// reversion began if it has one. Where nothing of the transaction is left, it is done. The answer is whether it is kept and
    /// nothing of it is left. It takes no memory.
    pub fn lease_ended(
        &mut self,
        txn: Txn,
        point: PointId,
        cause: Cause,
        at: u64,
        reverts: bool,
    ) -> bool
        requires { end_on txn point self.old ≡ Live }
        ensures records { self.new ≡ after_lease txn point cause at reverts self.old }
        ensures done { result ≡ is_over (kept_as txn self.new.kept) }
    {
        if !self.transactions.end_lease(txn, point, cause, at, reverts) {
            return false;
        }
        self.finish(txn)
    }

    /// The pending reversion of the transaction's part on the point ended. Where nothing of the transaction is left, it
    /// is done. The answer is whether it is kept and nothing of it is left. It takes no memory.
    pub fn reversion_ended(&mut self, txn: Txn, point: PointId) -> bool
        requires { is_reverting txn point self.old ≡ true }
        ensures records { self.new ≡ after_reversion txn point self.old }
        ensures done { result ≡ is_over (kept_as txn self.new.kept) }
    {
        if !self.transactions.end_reversion(txn, point) {
            return false;
        }
        self.finish(txn)
    }

    /// How far the transaction has come; none where it is not kept.
    pub fn stage(&self, txn: Txn) -> Option<Stage>
        ensures { result ≡ option_map stage_of (kept_as txn self.now.kept) }
    {
        match self.find(txn) {
            Some(transaction) => Some(transaction.stage()),
            None => None,
        }
    }

    /// The process that submitted the transaction; none where it is not kept.
    pub fn owner(&self, txn: Txn) -> Option<ProcId>
        ensures { result ≡ option_map (λ kept. kept.transaction.owner) (kept_as txn self.now.kept) }
    {
        match self.find(txn) {
            Some(transaction) => Some(transaction.owner()),
            None => None,
        }
    }

    /// The slot of the transaction's part at this place, from 0; none where there is none.
    pub fn part(&self, txn: Txn, index: u32) -> Option<(PointId, Priority)>
        ensures { result ≡ option_and_then (λ kept. option_map slot_of (slice_get kept.transaction.parts index)) (kept_as txn self.now.kept) }
    {
        match self.find(txn) {
            Some(transaction) => transaction.slot(index as usize),
            None => None,
        }
    }

    /// How the transaction's part on the point stands.
    pub fn end_of(&self, txn: Txn, point: PointId) -> PartEnd
        ensures { result ≡ end_on txn point self.now }
    {
        match self.find(txn) {
            Some(transaction) => transaction.end_of(point),
            None => PartEnd::NotInTxn,
        }
    }

    /// What is kept of the transaction of this number; none where it is not kept.
    pub fn find(&self, txn: Txn) -> Option<&Transaction>
        ensures { option_copied result ≡ kept_as txn self.now.kept }
    {
        self.transactions.find(txn)
    }

    /// One more transaction is done, of which nothing is left. Where 1,024 are kept, the first of them is forgotten. The answer is
    /// whether it is still kept: whether it was not that one.
    fn finish(&mut self, txn: Txn) -> bool
        requires { is_over (kept_as txn self.old.kept) ≡ true }
        ensures records { self.new ≡ finished txn self.old }
        ensures done { result ≡ is_over (kept_as txn self.new.kept) }
    {
        match self.done.push_back(txn) {
            Some(oldest) => {
                self.transactions.forget(oldest);
                oldest != txn
            }
            None => true,
        }
    }
}

impl Stages {
    /// What outlasts a stop of the transactions, in order of number, and which of them are done, in the order of becoming done.
    pub fn keep(&self, alloc: Global) -> Result<(Items<KeptTxn>, Items<Txn>), NoMemory>
        ensures txns { IfOk result (λ kept. map seen_txn kept.0 ≡ map (λ one. one.transaction) self.now.kept) }
        ensures done { IfOk result (λ kept. kept.1 ≡ self.now.done) }
    {
        let txns = self.transactions.keep(alloc)?;
        let done = self.done.to_vec(alloc)?;
        Ok((txns, Items::from_vec(done)))
    }

    /// These of the transactions are done, in the order of becoming done; at most 1,024, where none was done before. The
    /// transactions themselves are put back by `add`. It takes no memory.
    pub fn put_back_done(&mut self, done: &[Txn])
        requires none { self.old.done ≡ [] }
        requires few { length done.now ≤ done_kept }
        ensures { self.new ≡ record self.old { done = done.now } }
    {
        self.done.extend_from_slice(done);
    }
}
