ghost use Rattle.std.specs.Prelude.{◌≡◌, ◌≤◌, ℕ, ◌+◌, min, List, length};
ghost use Rattle.def_bytes.specs.Batches.{batch_text};
ghost use Rattle.boss_journal.specs.Appends.{Stops};
ghost use Rattle.boss_model.specs.declared.event.Event.{Event};
ghost use Rattle.boss_model.specs.declared.state.Actuator.{Actuator};
ghost use Rattle.boss_model.specs.Limits.{last_number, longest_record};
ghost use Rattle.boss_model.specs.State.{Persistent};
ghost use Rattle.def_seal.specs.Seals.{sealed};
ghost use Rattle.def_disk_pair.specs.Contents.{IsNext};
ghost use Rattle.boss_disk_pair.specs.Causes.{AppendCause, counts_of};
ghost use Rattle.boss_disk_pair.specs.Rests.{rests, leaves, passes};

use crate::TwoDisks;
use boss_disk::Disk;
use boss_journal::Appended;
use boss_model::{Buffer, LAST_NUMBER};
use boss_seal::{has_sums, sum_of};

impl<D: Disk> TwoDisks<D> {
    /// Appends the bytes in the buffer, 1 to 65,527 that are so many events, as a record to the log of the disk that is in force, in
    /// four calls of this disk, without memory. Where that disk has sums, that of the record is put behind them. A pair that was
    /// stopped before stays as it is, and no disk is called.
    pub fn append(&mut self, into: &mut Buffer, events: u64) -> Appended
        requires some { 1 ≤ length into.old.bytes }
        requires within { length into.old.bytes + 8 ≤ longest_record }
        requires room { length into.old.bytes + 8 ≤ into.old.capacity }
        // The events lead on from the state that the pair stands for.
        ensures rests { (plant : List Actuator) (d : Persistent) (count : ℕ) → rests self.old plant d count
            → (batch : List Event) (after : Persistent) → into.old.bytes ≡ batch_text batch → length batch ≡ events
            → IsNext plant self.old.journal.version d batch after
            → result ≡ Appended.Done → rests self.new plant after (count + events) }
        ensures passes { (plant : List Actuator) (d : Persistent) (count : ℕ) → rests self.old plant d count
            → (batch : List Event) (after : Persistent) → into.old.bytes ≡ batch_text batch
            → IsNext plant self.old.journal.version d batch after
            → passes self.old self.new plant d after }
        ensures leaves { (plant : List Actuator) (d : Persistent) (count : ℕ) → rests self.old plant d count
            → (batch : List Event) (after : Persistent) → into.old.bytes ≡ batch_text batch
            → IsNext plant self.old.journal.version d batch after
            → leaves self.new plant d after }
        ensures cause { AppendCause (counts_of self.old) (counts_of self.new) result }
        ensures stops { Stops self.old.stopped self.new.stopped result }
        ensures still { result ≡ Appended.Stopped → self.new ≡ self.old }
        ensures log { result ≡ Appended.Done → self.new.journal.place ≤ self.old.journal.place + length into.old.bytes + 13 }
        ensures room { into.new.capacity ≡ into.old.capacity }
        ensures first { self.new.journal.first ≡ self.old.journal.first }
        ensures events { result ≡ Appended.Done → self.new.events ≡ min (self.old.events + events) last_number }
        ensures version { self.new.journal.version ≡ self.old.journal.version }
        ensures generation { self.new.generation ≡ self.old.generation }
        ensures digest { self.new.digest ≡ self.old.digest }
        ensures order { self.new.second ≡ self.old.second }
        ensures spare { self.new.spare ≡ self.old.spare }
    {
        if self.stopped {
            return Appended::Stopped;
        }
        self.put_sum(into);
        match self.journal.append(into.bytes()) {
            Appended::Done => {
                self.events = self.events.saturating_add(events).min(LAST_NUMBER);
                Appended::Done
            }
            Appended::DiskFault => {
                self.stopped = true;
                Appended::DiskFault
            }
            Appended::Stopped => Appended::Stopped,
        }
    }

    /// Puts the sum behind the bytes of the next record, where the disk in force has sums.
    fn put_sum(&self, into: &mut Buffer)
        requires { length into.old.bytes + 8 ≤ into.old.capacity }
        ensures sealed { into.new.bytes ≡ sealed self.now.journal.version self.now.seed self.now.journal.place into.old.bytes }
        ensures room { into.new.capacity ≡ into.old.capacity }
    {
        if has_sums(self.journal.version()) {
            let sum = sum_of(&self.seed, self.journal.place(), into.bytes());
            into.extend(&sum);
        }
    }
}
