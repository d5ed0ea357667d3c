ghost use Rattle.std.specs.Prelude.{◌≡◌, ◌+◌, ◌<◌, ◌≤◌, ◌==◌, ◌∷◌, [], ◌++◌, All, filter, length, map, option_and_then, option_copied, vec_capacity, IfOk, IfSome, IsTrue, OnOk};
ghost use Rattle.std.specs.List.{position_from};
ghost use Rattle.std.specs.VecDeque.{deque_capacity};
ghost use Rattle.boss_model.specs.Limits.{done_kept};
ghost use Rattle.boss_model.specs.Seen.{seen_txn};
ghost use Rattle.boss_stages.specs.Entries.{all_kept, entry_number, is_kept, Rising};
ghost use Rattle.boss_stages.specs.Stages.{number, part_end, part_on, kept_as, changed, is_over, with_end, without, without_reversion};
ghost use Rattle.boss_stages.specs.declared.part.PartEnd.TheVariants.{Live};

use crate::entry::Entry;
use crate::transaction::Transaction;
use boss_model::{Cause, DONE_KEPT, Items, KeptTxn, NoMemory, PointId, Txn};
use std::alloc::Global;
use std::collections::VecDeque;
use std::marker::Model;

/// How many entries of forgotten transactions there are always fewer of.
const FORGOTTEN_LEFT: usize = 16_384;

/// The transactions that are kept, in order of number. A transaction mostly stands where its number makes likely, since one that
/// is forgotten leaves its entry.
#[derive(Drop)]
pub struct TransactionList {
    entries: VecDeque<Entry>,
    /// How many of the entries are of forgotten transactions.
    forgotten: usize,
    /// The number of the first entry, if no number was left out behind it.
    first: u64,
}

impl Model for TransactionList {
    ghost use Rattle.std.specs.Prelude.{◌≡◌, ◌+◌, ◌-◌, ◌<◌, length};
    ghost use Rattle.std.specs.VecDeque.{deque_capacity};
    ghost use Rattle.boss_stages.specs.Entries.{Listed, all_kept, forgotten_left, Rising};

    ghost Value = { Listed };

    ghost view = { λ l. record { kept = all_kept l.entries.items; room = deque_capacity l.entries - forgotten_left } };

    ghost invariant = { λ l. Rising l.entries.items × (length l.entries.items ≡ length (all_kept l.entries.items) + l.forgotten) × (l.forgotten < forgotten_left) };
}

impl TransactionList {
    /// No transaction, with room for this many and all that are kept of the done ones.
    pub fn new(alloc: Global, capacity: u32) -> Result<TransactionList, NoMemory>
        ensures empty { IfOk result (λ list. list.kept ≡ []) }
        ensures room { IfOk result (λ list. capacity + done_kept ≤ list.room) }
    {
        let places = capacity as usize + DONE_KEPT + FORGOTTEN_LEFT;
        Ok(TransactionList {
            entries: VecDeque::with_capacity(alloc, places)?,
            forgotten: 0,
            first: 0,
        })
    }

    /// How many transactions there is room for, which no call makes less.
    pub fn room(&self) -> usize
        ensures { result ≡ self.now.room }
    {
        self.entries.capacity().saturating_sub(FORGOTTEN_LEFT)
    }

    /// Makes room for one transaction more.
    pub fn reserve(&mut self) -> Result<(), NoMemory>
        ensures ok { OnOk result (length self.new.kept < self.new.room) }
        ensures same { self.new.kept ≡ self.old.kept }
        ensures room { self.old.room ≤ self.new.room }
    {
        self.entries.reserve(FORGOTTEN_LEFT - self.forgotten + 1)?;
        Ok(())
    }

    /// A transaction more, whose number is above that of each one that is kept. It takes no memory, since there is room.
    pub fn add(&mut self, transaction: Transaction)
        requires newest { All (λ kept. number kept < number transaction) self.old.kept }
        requires room { length self.old.kept < self.old.room }
        ensures { self.new ≡ record self.old { kept = self.old.kept ++ transaction ∷ [] } }
    {
        let number = transaction.number();
        self.forgotten -= leave_below(&mut self.entries, number);
        self.first = number.wrapping_sub(self.entries.len() as u64);
        self.entries.push_back_reserved(Entry::Kept(transaction));
    }

    /// What is kept of the transaction of this number; none where it is not kept.
    pub fn find(&self, txn: Txn) -> Option<&Transaction>
        ensures { option_copied result ≡ kept_as txn self.now.kept }
    {
        let Some(place) = place_of(&self.entries, txn, self.likely_place(txn)) else {
            return None;
        };
        match &self.entries[place] {
            Entry::Kept(transaction) => Some(transaction),
            Entry::Forgotten(_) => None,
        }
    }

    /// The live lease of the transaction's part on the point ends so, and its reversion begins if it has one. The answer is whether
    /// nothing of the transaction is left.
    pub fn end_lease(
        &mut self,
        txn: Txn,
        point: PointId,
        cause: Cause,
        at: u64,
        reverts: bool,
    ) -> bool
        requires { part_end (option_and_then (λ kept. part_on point kept.transaction.parts) (kept_as txn self.old.kept)) ≡ Live }
        ensures kept { self.new ≡ record self.old { kept = changed txn (with_end point cause at reverts) self.old.kept } }
        ensures over { result ≡ is_over (kept_as txn self.new.kept) }
    {
        let Some(place) = place_of(&self.entries, txn, self.likely_place(txn)) else {
            return false;
        };
        self.entries[place].end_lease(point, cause, at, reverts)
    }

    /// The pending reversion of the transaction's part on the point ends. The answer is whether nothing of the transaction is left.
    pub fn end_reversion(&mut self, txn: Txn, point: PointId) -> bool
        ensures kept { self.new ≡ record self.old { kept = changed txn (without_reversion point) self.old.kept } }
        ensures over { result ≡ is_over (kept_as txn self.new.kept) }
    {
        let Some(place) = place_of(&self.entries, txn, self.likely_place(txn)) else {
            return false;
        };
        self.entries[place].end_reversion(point)
    }

    /// The transaction of this number is no longer kept.
    pub fn forget(&mut self, txn: Txn)
        ensures { self.new ≡ record self.old { kept = without (txn ∷ []) self.old.kept } }
    {
        let Some(place) = place_of(&self.entries, txn, self.likely_place(txn)) else {
            return;
        };
        if !self.entries[place].is_kept() {
            return;
        }
        self.entries[place] = Entry::Forgotten(txn);
        self.forgotten += 1;
        if self.forgotten == FORGOTTEN_LEFT {
            let taken = close_up(&mut self.entries);
            self.first = self.first.wrapping_add(taken as u64);
            self.forgotten = 0;
            return;
        }
        self.drop_passed();
        self.drop_passed();
    }

    /// If the first entry is of a forgotten transaction, it is taken out.
    fn drop_passed(&mut self)
        ensures { self.new ≡ self.old }
    {
        if let Some(Entry::Forgotten(_)) = self.entries.front() {
            let _ = self.entries.pop_front();
            self.forgotten -= 1;
            self.first = self.first.wrapping_add(1);
        }
    }

    /// Where the transaction of this number stands if no number was left out behind it.
    fn likely_place(&self, txn: Txn) -> usize {
        txn.0.wrapping_sub(self.first) as usize
    }

    /// What outlasts a stop of the transactions, in order of number.
    pub fn keep(&self, alloc: Global) -> Result<Items<KeptTxn>, NoMemory>
        ensures { IfOk result (λ kept. map seen_txn kept ≡ map (λ one. one.transaction) self.now.kept) }
    {
        keep_all(alloc, &self.entries)
    }
}

/// What outlasts a stop of the transactions of these entries.
fn keep_all(alloc: Global, entries: &VecDeque<Entry>) -> Result<Items<KeptTxn>, NoMemory>
    ensures { IfOk result (λ kept. map seen_txn kept ≡ map (λ one. one.transaction) (all_kept entries.now.items)) }
{
    let mut kept = Vec::with_capacity(alloc, entries.len())?;
    for place in 0..entries.len() {
        keep_entry(alloc, &entries[place], &mut kept)?;
    }
    Ok(Items::from_vec(kept))
}

/// What outlasts a stop of the entry's transaction, if it has one, comes to what is kept.
fn keep_entry(alloc: Global, entry: &Entry, kept: &mut Vec<KeptTxn>) -> Result<(), NoMemory>
    requires { length kept.old.items < vec_capacity kept.old }
    ensures kept { OnOk result (map seen_txn kept.new.items ≡ map seen_txn kept.old.items ++ map (λ one. one.transaction) (all_kept (entry.now ∷ []))) }
    ensures room { vec_capacity kept.new ≡ vec_capacity kept.old }
    ensures one { length kept.new.items ≤ length kept.old.items + 1 }
{
    if let Entry::Kept(transaction) = entry {
        kept.push_reserved(transaction.keep(alloc)?);
    }
    Ok(())
}

/// The place of the entry of this number: the one that is likely, or else one that a binary search finds.
fn place_of(entries: &VecDeque<Entry>, txn: Txn, likely: usize) -> Option<usize>
    requires { Rising entries.now.items }
    ensures place { result ≡ position_from (λ entry. entry_number entry == txn) 0 entries.now.items }
    ensures within { IfSome result (λ place. place < length entries.now.items) }
{
    if stands_at(entries, likely, txn) {
        return Some(likely);
    }
    searched_place(entries, txn)
}

/// Whether the entry of this number stands at the place.
fn stands_at(entries: &VecDeque<Entry>, place: usize, txn: Txn) -> bool
    requires { Rising entries.now.items }
    ensures { IsTrue result → (place < length entries.now.items) × (position_from (λ entry. entry_number entry == txn) 0 entries.now.items ≡ Some place) }
{
    match entries.get(place) {
        Some(entry) => entry.number() == txn.0,
        None => false,
    }
}

/// The place of the entry of this number, which a binary search finds. It stands apart, since it is seldom called.
#[inline(never)]
fn searched_place(entries: &VecDeque<Entry>, txn: Txn) -> Option<usize>
    requires { Rising entries.now.items }
    ensures place { result ≡ position_from (λ entry. entry_number entry == txn) 0 entries.now.items }
    ensures within { IfSome result (λ place. place < length entries.now.items) }
{
    entries
        .binary_search_by_key(&txn.0, |entry| entry.number())
        .ok()
}

/// Leaves only entries below this number, which is above that of each transaction that is kept. The answer is how many were
/// taken out: mostly none, since numbers grow.
fn leave_below(entries: &mut VecDeque<Entry>, limit: u64) -> usize
    requires rising { Rising entries.old.items }
    requires newest { All (λ kept. number kept < limit) (all_kept entries.old.items) }
    ensures kept { all_kept entries.new.items ≡ all_kept entries.old.items }
    ensures rising { Rising entries.new.items }
    ensures below { All (λ entry. entry_number entry < limit) entries.new.items }
    ensures taken { length entries.new.items + result ≡ length entries.old.items }
    ensures room { deque_capacity entries.new ≡ deque_capacity entries.old }
{
    if are_below(entries, limit) {
        return 0;
    }
    close_up(entries)
}

/// Whether each entry has a number below this one.
fn are_below(entries: &VecDeque<Entry>, limit: u64) -> bool
    requires { Rising entries.now.items }
    ensures { IsTrue result → All (λ entry. entry_number entry < limit) entries.now.items }
{
    match entries.back() {
        Some(last) => last.number() < limit,
        None => true,
    }
}

/// The entries of forgotten transactions are taken out. The answer is how many there were.
#[inline(never)]
fn close_up(entries: &mut VecDeque<Entry>) -> usize
    ensures items { entries.new.items ≡ filter is_kept entries.old.items }
    ensures taken { length entries.new.items + result ≡ length entries.old.items }
    ensures room { deque_capacity entries.new ≡ deque_capacity entries.old }
{
    let before = entries.len();
    entries.retain(|entry| entry.is_kept());
    before - entries.len()
}
