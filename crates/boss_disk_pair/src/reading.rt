ghost use Rattle.std.specs.Prelude.{◌≡◌, ◌≤◌, ℕ, ◌++◌, List, length, true, false};
ghost use Rattle.boss_model.specs.Limits.{longest_record};
ghost use Rattle.def_bytes.specs.Batches.{batch_text};
ghost use Rattle.boss_journal.specs.Reads.{NextCause, NextStops};
ghost use Rattle.boss_model.specs.declared.event.Event.{Event};
ghost use Rattle.boss_model.specs.declared.state.Actuator.{Actuator};
ghost use Rattle.boss_model.specs.State.{Persistent};
ghost use Rattle.def_seal.specs.Seals.{sealed};
ghost use Rattle.def_disk_pair.specs.Contents.{IsNext};
ghost use Rattle.boss_disk_pair.specs.Reads.{reads_to, ends_at, stands_for, is_damaged_at, NoneLeads, Passes};

use crate::TwoDisks;
use boss_disk::Disk;
use boss_journal::NextRecord;
use boss_model::Buffer;
use boss_seal::{has_sums, unsealed};

impl<D: Disk> TwoDisks<D> {
    /// Reads the next record of the log into the buffer, which is emptied first, without its sum where the disk has sums. `Damaged`
    /// comes also where that sum is wrong. The disks stay as they are.
    pub fn next(&mut self, into: &mut Buffer) -> NextRecord
        requires { longest_record ≤ into.old.capacity }
        // A record of events that lead on; and one of any other bytes.
        ensures leads { (plant : List Actuator) (from d : Persistent) (before : ℕ) (events : List Event) → reads_to self.old plant from before events d
            → (place : ℕ) → result ≡ NextRecord.Bytes place → (batch : List Event) (after : Persistent) → into.new.bytes ≡ batch_text batch
            → IsNext plant self.old.journal.version d batch after → reads_to self.new plant from before (events ++ batch) after }
        ensures broken { (plant : List Actuator) (from d : Persistent) (before : ℕ) (events : List Event) → reads_to self.old plant from before events d
            → (place : ℕ) → result ≡ NextRecord.Bytes place → NoneLeads plant self.old.journal.version d into.new.bytes → is_damaged_at self.new plant place }
        ensures damaged { (plant : List Actuator) (from d : Persistent) (before : ℕ) (events : List Event) → reads_to self.old plant from before events d
            → (place : ℕ) → result ≡ NextRecord.Damaged place → is_damaged_at self.new plant place }
        ensures ends { (plant : List Actuator) (from d : Persistent) (before : ℕ) (events : List Event) → reads_to self.old plant from before events d
            → result ≡ NextRecord.Finish → ends_at self.new plant from before events d }
        ensures stands { (plant : List Actuator) (from d : Persistent) (before : ℕ) (events : List Event) → reads_to self.old plant from before events d
            → result ≡ NextRecord.Finish → stands_for self.new plant from before events }
        ensures room { into.new.capacity ≡ into.old.capacity }
        ensures reads { D.tells → D.reads self.new.journal.disk ≡ D.reads self.old.journal.disk }
        ensures windows { D.tells → D.story self.new.journal.disk ≡ D.story self.old.journal.disk }
        ensures cause { NextCause (D.faults self.old.journal.disk) (D.faults self.new.journal.disk) result }
        ensures stops { NextStops self.old.stopped self.new.stopped result }
        ensures passes { Passes self.old.journal.place self.new.journal.place into.new.bytes result }
        ensures first { self.new.journal.first ≡ self.old.journal.first }
        ensures version { self.new.journal.version ≡ self.old.journal.version }
        ensures generation { self.new.generation ≡ self.old.generation }
        ensures events { self.new.events ≡ self.old.events }
        ensures digest { self.new.digest ≡ self.old.digest }
        ensures seed { self.new.seed ≡ self.old.seed }
        ensures order { self.new.second ≡ self.old.second }
        ensures spare { self.new.spare ≡ self.old.spare }
    {
        match self.journal.next(into) {
            NextRecord::Bytes { place } => {
                if self.cut_sum(place, into) {
                    NextRecord::Bytes { place }
                } else {
                    NextRecord::Damaged { place }
                }
            }
            NextRecord::Finish => NextRecord::Finish,
            NextRecord::Damaged { place } => NextRecord::Damaged { place },
            NextRecord::DiskFault => {
                self.stopped = true;
                NextRecord::DiskFault
            }
        }
    }

    /// Whether the sum of a record is right whose gate is at this place, and whose bytes are in the buffer: then it is cut off. A
    /// disk without sums has none that is wrong.
    fn cut_sum(&self, place: u64, into: &mut Buffer) -> bool
        requires { length into.old.bytes ≤ longest_record }
        ensures right { result ≡ true → into.old.bytes ≡ sealed self.now.journal.version self.now.seed place into.new.bytes }
        ensures wrong { result ≡ false → (bytes : List ℕ) → into.old.bytes ≡ sealed self.now.journal.version self.now.seed place bytes → ⊥ }
        ensures shorter { length into.new.bytes ≤ length into.old.bytes }
        ensures room { into.new.capacity ≡ into.old.capacity }
    {
        if !has_sums(self.journal.version()) {
            return true;
        }
        match unsealed(&self.seed, place, into.bytes()) {
            Some(size) => {
                into.cut(size as u32);
                true
            }
            None => false,
        }
    }
}
