ghost use Rattle.std.specs.Prelude.{◌≡◌, ◌+◌, ◌-◌, ◌≤◌, ◌<◌, length, take, drop, vec_capacity, IfOk};
ghost use Rattle.boss_model.specs.Limits.{last_number, notices_kept};
ghost use Rattle.boss_model.specs.Sound.{NumberedFrom};
ghost use Rattle.boss_notices.specs.Rings.{no_notices, posted, first_kept, start, notices_from};

use boss_model::{Items, LAST_NUMBER, NOTICES_KEPT, NoMemory, Notice, Txn, What};
use circular_buffer::HeapCircularBuffer;
use std::alloc::Global;
use std::marker::Model;

/// The notices of one process.
#[derive(Drop)]
pub struct Ring {
    count: u64,
    kept: HeapCircularBuffer<Notice>,
}

impl Model for Ring {
    ghost use Rattle.std.specs.Prelude.{◌≡◌, ◌+◌, ◌-◌, ◌≤◌, length};
    ghost use Rattle.boss_model.specs.Limits.{last_number, notices_kept};
    ghost use Rattle.boss_model.specs.Sound.{NumberedFrom};
    ghost use Rattle.boss_notices.specs.Rings.{Ring as Kept};

    ghost Value = { Kept };

    ghost view = { λ r. record { count = r.count; kept = r.kept.items } };

    ghost invariant = { λ r. (r.kept.capacity ≡ notices_kept) × (length r.kept.items ≤ r.count) × (r.count ≤ last_number) × NumberedFrom (r.count - length r.kept.items + 1) r.kept.items };
}

impl Ring {
    /// No notice so far.
    pub fn new(alloc: Global) -> Result<Ring, NoMemory>
        ensures { IfOk result (λ ring. ring ≡ no_notices) }
    {
        let kept = HeapCircularBuffer::with_capacity(alloc, NOTICES_KEPT)?;
        Ok(Ring { count: 0, kept })
    }

    /// A process that was told so many notices, of which these are the last: at most 2^62, and at most 1,024 of them are
    /// there, numbered up to the count without a gap.
    pub fn put_back(alloc: Global, count: u64, notices: &[Notice]) -> Result<Ring, NoMemory>
        requires count { count ≤ last_number }
        requires few { (length notices.now ≤ notices_kept) × (length notices.now ≤ count) }
        requires numbers { NumberedFrom (count + 1 - length notices.now) notices.now }
        ensures { IfOk result (λ ring. ring ≡ record { count = count; kept = notices.now }) }
    {
        let mut kept = HeapCircularBuffer::with_capacity(alloc, NOTICES_KEPT)?;
        kept.extend_from_slice(notices);
        Ok(Ring { count, kept })
    }

    /// How many notices there were in all, and those that are kept.
    pub fn keep(&self, alloc: Global) -> Result<(u64, Items<Notice>), NoMemory>
        ensures count { IfOk result (λ kept. kept.0 ≡ self.now.count) }
        ensures notices { IfOk result (λ kept. kept.1 ≡ self.now.kept) }
    {
        let notices = self.kept.to_vec(alloc)?;
        Ok((self.count, Items::from_vec(notices)))
    }

    /// How many notices there were in all, kept or not.
    pub fn count(&self) -> u64
        ensures number { result ≡ self.now.count }
        ensures few { result ≤ last_number }
    {
        self.count
    }

    /// One notice more. It takes no memory.
    pub fn post(&mut self, at: u64, txn: Txn, what: What)
        ensures { self.new ≡ posted at txn what self.old }
    {
        if self.count == LAST_NUMBER {
            return;
        }
        self.count += 1;
        self.kept.push_back(Notice {
            number: self.count,
            at,
            txn,
            what,
        });
    }

    /// The kept notices from this number on, at most `most` of them, are left in `into`, which is emptied first and has
    /// room for them. The answer is the least number that is kept, and the number to ask for next. It takes no memory.
    pub fn from(&self, number: u64, most: u64, into: &mut Vec<Notice>) -> (u64, u64)
        requires { most ≤ vec_capacity into.old }
        ensures first { result.0 ≡ first_kept self.now }
        ensures next { result.1 ≡ start self.now number + length into.new.items }
        ensures list { into.new.items ≡ notices_from self.now number most }
        ensures room { vec_capacity into.new ≡ vec_capacity into.old }
    {
        let first = self.first();
        let start = number.max(first).min(self.count + 1);
        let wanted = most.min(self.count + 1 - start);
        self.copy((start - first) as usize, wanted as usize, into);
        (first, start + wanted)
    }

    /// The least number that is kept, or the next one where none is.
    fn first(&self) -> u64
        ensures first { result ≡ first_kept self.now }
        ensures place { result + length self.now.kept ≡ self.now.count + 1 }
        ensures count { self.now.count ≤ last_number }
        ensures numbered { NumberedFrom result self.now.kept }
    {
        self.count - self.kept.len() as u64 + 1
    }

    /// Leaves in `into` this many of the kept notices, from this place among them on.
    fn copy(&self, place: usize, count: usize, into: &mut Vec<Notice>)
        requires place { place + count ≤ length self.now.kept }
        requires room { count ≤ vec_capacity into.old }
        ensures list { into.new.items ≡ take count (drop place self.now.kept) }
        ensures room { vec_capacity into.new ≡ vec_capacity into.old }
    {
        let _kept = self.kept.len();
        into.clear();
        for index in place..place + count {
            if let Some(notice) = self.kept.get(index) {
                into.push_reserved(*notice);
            }
        }
    }
}
