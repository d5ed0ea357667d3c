ghost use Rattle.std.specs.Prelude.{◌≡◌, ◌==◌, ◌+◌, ◌≤◌, true, not, ◌&&◌, length, map, filter, find, slice_get, option_copied, IfOk};
ghost use Rattle.std.specs.List.{list_any, AllByRecursion};
ghost use Rattle.std.specs.Option.{option_map};
ghost use Rattle.boss_model.specs.Lists.{member};
ghost use Rattle.boss_model.specs.Seen.{seen_part, seen_txn};
ghost use Rattle.boss_stages.specs.declared.part.PartEnd.TheVariants.{Live};
ghost use Rattle.boss_stages.specs.Stages.{number, is_live, has_live, has_pending, stage_of, slot_of, part_end, part_on, begun, HasLevel, write_slot, ended_on, with_end, without_reversion};

use crate::part::{Part, PartEnd};
use boss_model::{
    Cause, Items, KeptPart, KeptTxn, NoMemory, PointId, Policy, Priority, ProcId, Setting, Stage,
    Txn,
};
use smallvec::SmallVec;
use std::alloc::Global;
use std::marker::Model;

/// What is kept of one transaction, with room for a pending reversion of each part. It stands apart, so that a list of
/// transactions closes up at little cost. Up to two parts and eight points that revert stand in the record itself.
#[derive(Drop)]
pub struct Transaction {
    record: Box<Record>,
}

#[derive(Drop)]
struct Record {
    txn: Txn,
    owner: ProcId,
    policy: Policy,
    parts: SmallVec<Part, 2>,
    reverting: SmallVec<u32, 8>,
}

impl Model for Transaction {
    ghost use Rattle.std.specs.Prelude.{◌+◌, ◌≤◌, length, filter};
    ghost use Rattle.boss_model.specs.Records.{Transaction as Recorded};
    ghost use Rattle.boss_stages.specs.Stages.{Tracked, is_live};

    ghost Value = { Tracked };

    ghost view = { λ t. record { transaction = record { txn = t.record.value.txn; owner = t.record.value.owner; policy = t.record.value.policy; parts = t.record.value.parts.items }; reverting = t.record.value.reverting.items } };

    ghost invariant = { λ t. length t.record.value.reverting.items + length (filter is_live t.record.value.parts.items) ≤ t.record.value.reverting.capacity };
}

impl Transaction {
    /// A transaction whose parts, on these slots, have live leases.
    pub fn new(
        alloc: Global,
        txn: Txn,
        owner: ProcId,
        policy: Policy,
        slots: &[(PointId, Priority)],
    ) -> Result<Transaction, NoMemory>
        ensures { IfOk result (λ transaction. transaction ≡ begun txn owner policy slots.now) }
    {
        let mut parts = SmallVec::with_capacity(alloc, slots.len())?;
        for (point, priority) in slots {
            parts.push_reserved(Part::new(*point, *priority));
        }
        let record = Record {
            txn,
            owner,
            policy,
            parts,
            reverting: SmallVec::with_capacity(alloc, slots.len())?,
        };
        Ok(Transaction {
            record: Box::new(alloc, record)?,
        })
    }

    /// A transaction of these writes, whose parts have live leases.
    pub fn of_writes(
        alloc: Global,
        txn: Txn,
        owner: ProcId,
        policy: Policy,
        writes: &[Setting],
    ) -> Result<Transaction, NoMemory>
        requires { AllByRecursion HasLevel writes.now }
        ensures { IfOk result (λ transaction. transaction ≡ begun txn owner policy (map write_slot writes.now)) }
    {
        let mut parts = SmallVec::with_capacity(alloc, writes.len())?;
        for write in writes {
            parts.push_reserved(Part::new(write.point, Priority(write.priority as u8)));
        }
        let record = Record {
            txn,
            owner,
            policy,
            parts,
            reverting: SmallVec::with_capacity(alloc, writes.len())?,
        };
        Ok(Transaction {
            record: Box::new(alloc, record)?,
        })
    }

    /// The transaction's number.
    pub fn number(&self) -> u64
        ensures { result ≡ number self.now }
    {
        self.record.txn.0
    }

    /// The process that submitted it.
    pub fn owner(&self) -> ProcId
        ensures { result ≡ self.now.transaction.owner }
    {
        self.record.owner
    }

    /// Its parts, in the order of its writes.
    pub fn parts(&self) -> &[Part]
        ensures { result.now ≡ self.now.transaction.parts }
    {
        &self.record.parts
    }

    /// How far it has come.
    pub fn stage(&self) -> Stage
        ensures { result ≡ stage_of self.now }
    {
        if self.has_live() {
            return Stage::Run;
        }
        if self.has_pending() {
            return Stage::Revert;
        }
        Stage::Done
    }

    /// Whether nothing of it is left.
    pub fn is_over(&self) -> bool
        ensures { result ≡ (not (has_live self.now) && not (has_pending self.now)) }
    {
        !self.has_live() && !self.has_pending()
    }

    /// How many of its parts have live leases.
    pub fn live_parts(&self) -> u64
        ensures { result ≡ length (filter is_live self.now.transaction.parts) }
    {
        self.record
            .parts
            .iter()
            .filter(|part| part.is_live())
            .count() as u64
    }

    /// How many of its parts are on points with a pending reversion of it.
    pub fn pending_parts(&self) -> u64
        ensures { result ≡ length (filter (λ part. member part.point self.now.reverting) self.now.transaction.parts) }
    {
        self.record
            .parts
            .iter()
            .filter(|part| has_point(&self.record.reverting, part.point))
            .count() as u64
    }

    /// Whether it has a live lease.
    pub fn has_live(&self) -> bool
        ensures { result ≡ has_live self.now }
    {
        self.record.parts.iter().any(|part| part.is_live())
    }

    /// Whether it has a pending reversion.
    fn has_pending(&self) -> bool
        ensures { result ≡ has_pending self.now }
    {
        !self.record.reverting.is_empty()
    }

    /// The slot of its part at this place.
    pub fn slot(&self, place: usize) -> Option<(PointId, Priority)>
        ensures { result ≡ option_map slot_of (slice_get self.now.transaction.parts place) }
    {
        match self.record.parts.get(place) {
            Some(part) => Some(part.slot()),
            None => None,
        }
    }

    /// How its part on the point stands.
    pub fn end_of(&self, point: PointId) -> PartEnd
        ensures { result ≡ part_end (part_on point self.now.transaction.parts) }
    {
        match self.part_on(point) {
            Some(part) => part.standing(),
            None => PartEnd::NotInTxn,
        }
    }

    /// Its part on the point.
    pub fn part_on(&self, point: PointId) -> Option<&Part>
        ensures { option_copied result ≡ part_on point self.now.transaction.parts }
    {
        self.record.parts.iter().find(|part| part.is_on(point))
    }

    /// The live lease of its part on the point ends so, and its reversion begins if it has one.
    pub fn end_lease(&mut self, point: PointId, cause: Cause, at: u64, reverts: bool)
        requires { part_end (part_on point self.old.transaction.parts) ≡ Live }
        ensures { self.new ≡ with_end point cause at reverts self.old }
    {
        let record = &mut *self.record;
        end_parts(&mut record.parts, point, &cause, at);
        if reverts {
            record.reverting.push_reserved(point.0);
        }
    }

    /// The pending reversion on the point ends.
    pub fn end_reversion(&mut self, point: PointId)
        ensures { self.new ≡ without_reversion point self.old }
    {
        self.record.reverting.retain(|other| *other != point.0);
    }
}

/// Whether the point is one of these.
fn has_point(points: &[u32], point: PointId) -> bool
    ensures { result ≡ member point points.now }
{
    points.iter().any(|other| *other == point.0)
}

impl Transaction {
    /// The transaction of which this outlasted a stop, with pending reversions on these points, in the order in which they
    /// began. Where each of its parts has a live lease, a pending reversion or neither, there is room for all of them.
    pub fn put_back(
        alloc: Global,
        kept: &KeptTxn,
        reverting: &[PointId],
    ) -> Result<Transaction, NoMemory>
        requires { length reverting.now + length (filter is_live (map seen_part kept.now.parts)) ≤ length kept.now.parts }
        ensures { IfOk result (λ transaction. transaction ≡ record { transaction = seen_txn kept.now; reverting = reverting.now }) }
    {
        let parts = parts_put_back(alloc, kept.parts.slice())?;
        let mut pending = SmallVec::with_capacity(alloc, kept.parts.slice().len())?;
        for point in reverting {
            pending.push_reserved(point.0);
        }
        let record = Record {
            txn: kept.txn,
            owner: kept.owner,
            policy: kept.policy,
            parts,
            reverting: pending,
        };
        Ok(Transaction {
            record: Box::new(alloc, record)?,
        })
    }

    /// What outlasts a stop of it.
    pub fn keep(&self, alloc: Global) -> Result<KeptTxn, NoMemory>
        ensures { IfOk result (λ kept. seen_txn kept ≡ self.now.transaction) }
    {
        let parts = kept_parts(alloc, &self.record.parts)?;
        Ok(KeptTxn {
            txn: self.record.txn,
            owner: self.record.owner,
            policy: self.record.policy,
            parts,
        })
    }
}

/// The parts of which these outlasted a stop.
fn parts_put_back(alloc: Global, kept: &[KeptPart]) -> Result<SmallVec<Part, 2>, NoMemory>
    ensures { IfOk result (λ parts. parts.items ≡ map seen_part kept.now) }
{
    let mut parts = SmallVec::with_capacity(alloc, kept.len())?;
    for part in kept {
        parts.push_reserved(Part::put_back(part));
    }
    Ok(parts)
}

/// What outlasts a stop of these parts.
fn kept_parts(alloc: Global, parts: &[Part]) -> Result<Items<KeptPart>, NoMemory>
    ensures { IfOk result (λ kept. map seen_part kept ≡ parts.now) }
{
    let mut kept = Vec::with_capacity(alloc, parts.len())?;
    for part in parts {
        kept.push_reserved(part.keep());
    }
    Ok(Items::from_vec(kept))
}

/// The leases of the parts on the point end so.
fn end_parts(parts: &mut [Part], point: PointId, cause: &Cause, at: u64)
    ensures { parts.new ≡ map (ended_on point (record { cause = cause.now; at = at })) parts.old }
{
    for part in parts.iter_mut() {
        part.end_if_on(point, cause, at);
    }
}
