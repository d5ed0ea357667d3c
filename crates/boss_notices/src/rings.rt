ghost use Rattle.std.specs.Prelude.{◌≡◌, ◌+◌, ◌-◌, ◌<◌, ◌≤◌, [], ◌∷◌, ◌++◌, length, slice_set, vec_capacity, IfOk, IfSome, OnOk, OnErr};
ghost use Rattle.boss_model.specs.Limits.{most_processes, notices_kept, last_number};
ghost use Rattle.boss_model.specs.Sound.{NumberedFrom};
ghost use Rattle.boss_notices.specs.Rings.{ring_of, no_notices, posted, first_kept, start, notices_from};

use crate::ring::Ring;
use boss_model::{Items, MOST_PROCESSES, NoMemory, Notice, ProcId, Txn, What};
use std::alloc::Global;
use std::marker::Model;

/// For each process, in the order in which they were added, what it was told.
#[derive(Drop)]
pub struct Rings {
    rings: Vec<Ring>,
    /// Whether each process was told something since it was given out as one that was.
    noticed: Vec<bool>,
    /// Where it is not, none was.
    any_noticed: bool,
}

impl Model for Rings {
    ghost use Rattle.std.specs.Prelude.{List, ◌≤◌, length, vec_capacity};
    ghost use Rattle.boss_notices.specs.Rings.{Ring as Kept, AreRings};

    ghost Value = { List Kept };

    ghost view = { λ r. r.rings.items };

    ghost invariant = { λ r. AreRings (length r.rings.items) (length r.noticed.items) (vec_capacity r.rings) (vec_capacity r.noticed) };
}

impl Rings {
    /// No process so far.
    pub fn new(alloc: Global) -> Result<Rings, NoMemory>
        ensures { IfOk result (λ rings. rings ≡ []) }
    {
        Ok(Rings {
            rings: Vec::with_capacity(alloc, MOST_PROCESSES)?,
            noticed: Vec::with_capacity(alloc, MOST_PROCESSES)?,
            any_noticed: false,
        })
    }

    /// How many notices this process was told.
    pub fn count(&self, owner: ProcId) -> u64
        requires { owner < length self.now }
        ensures number { result ≡ (ring_of self.now owner).count }
        ensures few { result ≤ last_number }
    {
        self.rings[owner.0 as usize].count()
    }

    /// A process more, which was told what this ring has. There may be 256. It takes no memory.
    pub fn add(&mut self, ring: Ring)
        requires { length self.old < most_processes }
        ensures { self.new ≡ self.old ++ ring ∷ [] }
    {
        self.rings.push_reserved(ring);
        self.noticed.push_reserved(false);
    }

    /// A process more, which has been told nothing. There may be 256.
    pub fn add_process(&mut self, alloc: Global) -> Result<ProcId, NoMemory>
        requires { length self.old < most_processes }
        ensures process { IfOk result (λ process. process ≡ length self.old) }
        ensures ok { OnOk result (self.new ≡ self.old ++ no_notices ∷ []) }
        ensures err { OnErr result (self.new ≡ self.old) }
    {
        let process = ProcId(self.rings.len() as u16);
        let ring = Ring::new(alloc)?;
        self.add(ring);
        Ok(process)
    }

    /// A process more, which was told so many notices, of which these are the last: at most 2^62, and at most 1,024 of them are
    /// there, numbered up to the count without a gap. There may be 256 processes.
    pub fn put_back(
        &mut self,
        alloc: Global,
        count: u64,
        notices: &Items<Notice>,
    ) -> Result<ProcId, NoMemory>
        requires processes { length self.old < most_processes }
        requires count { count ≤ last_number }
        requires few { (length notices.now ≤ notices_kept) × (length notices.now ≤ count) }
        requires numbers { NumberedFrom (count + 1 - length notices.now) notices.now }
        ensures process { IfOk result (λ process. process ≡ length self.old) }
        ensures ok { OnOk result (self.new ≡ self.old ++ (record { count = count; kept = notices.now }) ∷ []) }
        ensures err { OnErr result (self.new ≡ self.old) }
    {
        let process = ProcId(self.rings.len() as u16);
        let ring = Ring::put_back(alloc, count, notices.slice())?;
        self.add(ring);
        Ok(process)
    }

    /// How many notices this process was told, and those that are kept.
    pub fn keep(&self, alloc: Global, owner: ProcId) -> Result<(u64, Items<Notice>), NoMemory>
        requires { owner < length self.now }
        ensures count { IfOk result (λ kept. kept.0 ≡ (ring_of self.now owner).count) }
        ensures notices { IfOk result (λ kept. kept.1 ≡ (ring_of self.now owner).kept) }
    {
        self.rings[owner.0 as usize].keep(alloc)
    }

    /// A notice more for this process, with the next number, if that is at most 2^62: what happened to its transaction at
    /// this moment, in milliseconds. At most 1,024 are kept, the last ones. It takes no memory.
    pub fn post(&mut self, owner: ProcId, at: u64, txn: Txn, what: What)
        requires { owner < length self.old }
        ensures { self.new ≡ slice_set self.old owner (posted at txn what (ring_of self.old owner)) }
    {
        self.rings[owner.0 as usize].post(at, txn, what);
        self.noticed[owner.0 as usize] = true;
        self.any_noticed = true;
    }

    /// A process that was told something since it was given out so: each is given out once, until one of its own is told again. None
    /// where there is none. A contract sees nothing of it.
    pub fn next_noticed(&mut self) -> Option<ProcId>
        ensures same { self.new ≡ self.old }
        ensures known { IfSome result (λ process. process < length self.old) }
    {
        if !self.any_noticed {
            return None;
        }
        let found = self.noticed.iter().position(|noticed| *noticed);
        match found {
            Some(place) => {
                self.noticed[place] = false;
                Some(ProcId(place as u16))
            }
            None => {
                self.any_noticed = false;
                None
            }
        }
    }

    /// The notices of this process from this number on, at most `max` of them, are left in `into`, which is emptied
    /// first. The answer is the least number that is kept, or the next one where none is, and the number to ask for
    /// next. It takes no memory: `into` has room for `max` notices. It is a `Vec` since a contract sees of a value with a
    /// meaning of its own that meaning alone, and not its room.
    pub fn from(&self, owner: ProcId, number: u64, max: u64, into: &mut Vec<Notice>) -> (u64, u64)
        requires owner { owner < length self.now }
        requires room { max ≤ vec_capacity into.old }
        ensures first { result.0 ≡ first_kept (ring_of self.now owner) }
        ensures next { result.1 ≡ start (ring_of self.now owner) number + length into.new.items }
        ensures list { into.new.items ≡ notices_from (ring_of self.now owner) number max }
        ensures room { vec_capacity into.new ≡ vec_capacity into.old }
    {
        self.rings[owner.0 as usize].from(number, max, into)
    }
}
