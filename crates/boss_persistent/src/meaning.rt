//! The leases of a transaction that a command means, by the slots of the parts of its record.

ghost use Rattle.std.specs.Prelude.{◌≡◌, ◌≤◌, ◌<◌, ◌+◌, ◌++◌, [], ◌∷◌, filter_map, length, vec_len, vec_capacity};
ghost use Rattle.boss_model.specs.Limits.{most_writes};
ghost use Rattle.boss_model.specs.Renew.{named_parts, part_on, transaction_of};
ghost use Rattle.boss_persistent.specs.Lasting.{IsKept, IsSoundOfSome, persistent_of};
ghost use Rattle.boss_persistent.specs.Meant.{meant_places, open_places};

use crate::lasting::Lasting;
use boss_model::{PointId, Txn};
use boss_slots::Place;
use boss_stages::{Part, Transaction};

impl Lasting {
    /// The slots of a transaction's parts without an end that are on these points, or of all where no point is named, are put
    /// into `slots`; none where the transaction is not kept. It takes no memory.
    pub fn fill_slots(&mut self, txn: Txn, points: &[PointId])
        requires sound { IsSoundOfSome self.old }
        requires kept { IsKept self.old }
        requires points { length points.now ≤ most_writes }
        ensures slots { self.new.slots.items ≡ meant_places points.now (transaction_of (persistent_of self.old).txns txn) }
        ensures others { self.new ≡ record self.old { slots = self.new.slots } }
        ensures capacity { vec_capacity self.new.slots ≡ vec_capacity self.old.slots }
    {
        self.slots.clear();
        if let Some(transaction) = self.stages.find(txn) {
            gather_slots(transaction, points, &mut self.slots);
        }
    }
}

/// The same of a transaction that is kept.
fn gather_slots(transaction: &Transaction, points: &[PointId], slots: &mut Vec<Place>)
    requires empty { slots.old.items ≡ [] }
    requires parts { length transaction.now.transaction.parts ≤ vec_capacity slots.old }
    requires points { length points.now ≤ vec_capacity slots.old }
    ensures slots { slots.new.items ≡ open_places (named_parts points.now transaction.now.transaction.parts) }
    ensures capacity { vec_capacity slots.new ≡ vec_capacity slots.old }
{
    if points.is_empty() {
        gather_all(transaction.parts(), slots);
    } else {
        gather_named(transaction, points, slots);
    }
}

/// Gathers the slots of all these parts that have no end.
fn gather_all(parts: &[Part], slots: &mut Vec<Place>)
    requires room { vec_len slots.old + length parts.now ≤ vec_capacity slots.old }
    ensures slots { slots.new.items ≡ slots.old.items ++ open_places parts.now }
    ensures capacity { vec_capacity slots.new ≡ vec_capacity slots.old }
{
    for part in parts {
        gather_open(part, slots);
    }
}

/// Gathers the slots of the transaction's parts on these points that have no end.
fn gather_named(transaction: &Transaction, points: &[PointId], slots: &mut Vec<Place>)
    requires room { vec_len slots.old + length points.now ≤ vec_capacity slots.old }
    ensures slots { slots.new.items ≡ slots.old.items ++ open_places (filter_map (part_on transaction.now.transaction.parts) points.now) }
    ensures capacity { vec_capacity slots.new ≡ vec_capacity slots.old }
{
    for point in points {
        gather_on(transaction, *point, slots);
    }
}

/// Gathers the slot of the transaction's part on this point, if it has one without an end.
fn gather_on(transaction: &Transaction, point: PointId, slots: &mut Vec<Place>)
    requires room { vec_len slots.old < vec_capacity slots.old }
    ensures slots { slots.new.items ≡ slots.old.items ++ open_places (filter_map (part_on transaction.now.transaction.parts) (point ∷ [])) }
    ensures len { vec_len slots.new ≤ vec_len slots.old + 1 }
    ensures capacity { vec_capacity slots.new ≡ vec_capacity slots.old }
{
    if let Some(part) = transaction.part_on(point) {
        gather_open(part, slots);
    }
}

/// Gathers the part's slot, if it has no end.
fn gather_open(part: &Part, slots: &mut Vec<Place>)
    requires room { vec_len slots.old < vec_capacity slots.old }
    ensures slots { slots.new.items ≡ slots.old.items ++ open_places (part.now ∷ []) }
    ensures len { vec_len slots.new ≤ vec_len slots.old + 1 }
    ensures capacity { vec_capacity slots.new ≡ vec_capacity slots.old }
{
    if part.is_live() {
        slots.push_reserved(Place {
            point: part.point,
            priority: part.priority,
        });
    }
}
