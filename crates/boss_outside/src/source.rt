ghost use Rattle.std.specs.Prelude.{◌≡◌, ◌↔◌, ℕ, ◌+◌, ◌^◌, ◌<◌, List, length, Option, None, IfOk, IsTrue};
ghost use Rattle.boss_outside.specs.Plan.{new_plan, fails_next, after_call};
ghost use Rattle.boss_outside.specs.Stores.{bytes_left};
ghost use Rattle.boss_outside.specs.Streams.{count_of, FitsRoom, FillsRoom, Reads, ReadCause, IsSuffixOf};
ghost use Rattle.boss_outside.specs.Notes.{Notes};
ghost use Rattle.boss_outside.specs.declared.source.ReadAt.{ReadAt as Made};

use crate::plan::FaultPlan;
use boss_model::{Items, NoMemory};
use std::alloc::Global;
use std::marker::Model;

/// What a read gave.
#[derive(Clone, Copy, Debug, PartialEq, Eq)]
pub enum Got {
    /// This many bytes, at the front of the room: at least one.
    Bytes(usize),
    /// Nothing: the source has come to its end.
    Finish,
    /// Nothing: the read failed, and the source's count of faults rose.
    Failed,
}

impl Got {
    /// How many bytes the read gave.
    pub fn count(self) -> usize
        ensures { result ≡ count_of self }
    {
        match self {
            Got::Bytes(count) => count,
            Got::Finish | Got::Failed => 0,
        }
    }
}

/// At which point of all that went over a connection a read of it was made.
#[derive(Clone, Copy, Debug, PartialEq, Eq)]
pub struct ReadAt {
    /// How many bytes were left to read before it.
    pub left: usize,
    /// How many bytes the connection's sink had taken then, as far as the source was shown.
    pub told: usize,
}

/// Something that bytes are read from.
pub trait Source {
    /// That the values of this type tell which bytes they hold. A form in memory does; a real one can't.
    ghost tells: { Type 0 };

    /// The bytes that are left to read.
    ghost left: { Self → List ℕ };

    /// All bytes that it had when it was made.
    ghost held: { Self → List ℕ };

    /// The number of reads that failed, up to `2 ^ 64 - 1`, where it stands still.
    ghost faults: { Self → ℕ };

    /// Each read so far, in order, those that failed too; none where the values of this type don't tell, or one of them had no
    /// memory to note a read.
    ghost reads: { Self → Option (List Made) } = { λ _. None };

    /// How many bytes the connection's sink had taken when the source was shown it last, and 0 before.
    ghost told: { Self → ℕ } = { λ _. 0 };

    /// Reads some of the bytes that are left.
    fn read(&mut self, into: &mut [u8]) -> Got
        requires { 0 < length into.old }
        ensures count { FitsRoom (length into.old) result }
        ensures bytes { tells → Reads (left self.old) (left self.new) into.new result }
        ensures stays { tells → held self.new ≡ held self.old }
        ensures noted { tells → Notes (reads self.old) (reads self.new) (record { left = length (left self.old); told = told self.old }) }
        ensures shown { told self.new ≡ told self.old }
        ensures cause { ReadCause (faults self.old) (faults self.new) result };

    /// What is left is the end of what was held.
    ghost suffix: { (source : Self) → tells → IsSuffixOf (left source) (held source) };
}

/// A source in memory. Each read gives all that is left, as far as there is room.
#[derive(Debug, Drop)]
pub struct BytesSource {
    contents: Items<u8>,
    given: usize,
    plan: FaultPlan,
}

impl Model for BytesSource {
    ghost use Rattle.std.specs.Prelude.{◌≤◌, length};
    ghost use Rattle.boss_outside.specs.Stores.{Supply};

    ghost Value = { Supply };

    ghost view = { λ s. record { held = s.contents; given = s.given; plan = s.plan } };

    ghost invariant = { λ s. s.given ≤ length s.contents };
}

impl BytesSource {
    /// A source of these bytes, of which the reads with these numbers fail, counted from 1.
    pub fn new(
        _alloc: Global,
        contents: Items<u8>,
        fails: Items<u64>,
    ) -> Result<BytesSource, NoMemory>
        ensures { IfOk result (λ source. source
            ≡ record { held = contents; given = 0; plan = new_plan fails }) }
    {
        Ok(BytesSource {
            contents,
            given: 0,
            plan: FaultPlan::new(fails),
        })
    }

    /// The bytes that are left to read.
    pub(crate) fn left(&self) -> &[u8]
        ensures value { result.now ≡ bytes_left self.now }
        ensures fits { self.now.given + length result.now < 2 ^ 64 }
    {
        &self.contents.slice()[self.given..]
    }
}

impl Source for BytesSource {
    ghost use Rattle.std.specs.Prelude.{take};
    ghost use Rattle.std.proofs.Common.{sym};
    ghost use Rattle.std.proofs.lemmas.List.{take-append-drop};

    ghost tells = { Unit {0} };

    ghost left = { bytes_left };

    ghost held = { λ source. source.held };

    ghost faults = { λ source. source.plan.faults };

    fn read(&mut self, into: &mut [u8]) -> Got
        requires { 0 < length into.old }
        ensures count { FitsRoom (length into.old) result }
        ensures bytes { Reads (bytes_left self.old) (bytes_left self.new) into.new result }
        ensures stays { self.new.held ≡ self.old.held }
        ensures cause { ReadCause self.old.plan.faults self.new.plan.faults result }
        ensures room { FillsRoom (length into.old) (length (bytes_left self.old)) result }
        ensures fails { (result ≡ Got.Failed) ↔ IsTrue (fails_next self.old.plan) }
        ensures plan { self.new.plan ≡ after_call self.old.plan (fails_next self.old.plan) }
    {
        if self.plan.call().is_err() {
            return Got::Failed;
        }
        let left = self.left();
        if left.is_empty() {
            return Got::Finish;
        }
        let count = left.len().min(into.len());
        into[..count].copy_from_slice(&left[..count]);
        self.given += count;
        Got::Bytes(count)
    }

    ghost suffix = { λ source _. (take source.given source.held, sym (take-append-drop source.given source.held)) };
}
