ghost use Rattle.std.specs.Prelude.{◌≡◌, ◌≤◌, ℕ, ◌+◌, true, false, min, List, length, OnOk, OnErr};
ghost use Rattle.boss_model.specs.declared.event.Event.{Event};
ghost use Rattle.boss_model.specs.declared.state.Actuator.{Actuator};
ghost use Rattle.boss_model.specs.Limits.{last_number};
ghost use Rattle.boss_model.specs.State.{Persistent};
ghost use Rattle.boss_disk_pair.specs.Causes.{CallCause, counts_of};
ghost use Rattle.boss_disk_pair.specs.Reads.{ends_at, is_settled, is_clean, MayCome};
ghost use Rattle.boss_disk_pair.specs.Rests.{rests, passes};

use crate::TwoDisks;
use boss_disk::Disk;
use boss_model::LAST_NUMBER;
use boss_outside::Failed;

impl<D: Disk> TwoDisks<D> {
    /// Shuts the last gate, where it is not 0, so that records can be appended, and counts so many events that were read. After a
    /// failure the pair is stopped, and one that was stopped before stays as it is, without a call of a disk.
    pub fn ready(&mut self, events: u64) -> Result<(), Failed>
        ensures rests { (plant : List Actuator) (from d : Persistent) (before : ℕ) (found : List Event) → ends_at self.old plant from before found d
            → is_settled self.old → length found ≡ events → OnOk result (rests self.new plant d (before + events)) }
        // Where the pair is clean.
        ensures passes { D.tells → (plant : List Actuator) (from d : Persistent) (before count : ℕ) (found : List Event) → ends_at self.old plant from before found d
            → is_settled self.old → is_clean self.old plant d count
            → (after : Persistent) × MayCome plant self.old.journal.version self.old.seed self.old.journal.place (D.reads self.old.journal.disk) d after
            × passes self.old self.new plant d after }
        ensures cause { CallCause self.old.stopped (counts_of self.old) (counts_of self.new) result }
        ensures fine { OnOk result (self.new.stopped ≡ false) }
        ensures stops { OnErr result (self.new.stopped ≡ true) }
        ensures still { self.old.stopped ≡ true → self.new ≡ self.old }
        ensures events { OnOk result (self.new.events ≡ min (self.old.events + events) last_number) }
        ensures place { self.new.journal.place ≡ self.old.journal.place }
        ensures first { self.new.journal.first ≡ self.old.journal.first }
        ensures version { self.new.journal.version ≡ self.old.journal.version }
        ensures generation { self.new.generation ≡ self.old.generation }
        ensures digest { self.new.digest ≡ self.old.digest }
        ensures order { self.new.second ≡ self.old.second }
        ensures spare { self.new.spare ≡ self.old.spare }
    {
        if self.stopped {
            return Err(Failed);
        }
        match self.journal.ready() {
            Ok(()) => {
                self.events = self.events.saturating_add(events).min(LAST_NUMBER);
                Ok(())
            }
            Err(Failed) => {
                self.stopped = true;
                Err(Failed)
            }
        }
    }
}
