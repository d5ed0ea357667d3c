ghost use Rattle.std.specs.Prelude.{◌≡◌, ◌+◌, ◌-◌, ◌≤◌, ℕ, true, false, List, length, min, Some, OnOk, OnErr};
ghost use Rattle.boss_model.specs.Acts.{replay};
ghost use Rattle.boss_model.specs.Limits.{last_number, longest_record, most_held, record_room};
ghost use Rattle.boss_durable.specs.Taken.{Taken};
ghost use Rattle.def_history.specs.declared.entry.Entry.{Entry};
ghost use Rattle.def_history.specs.History.{events};
ghost use Rattle.boss_model.specs.declared.state.Actuator.{Actuator};
ghost use Rattle.boss_model.specs.State.{Persistent, State};
ghost use Rattle.def_bytes.specs.Events.{event as spelling};
ghost use Rattle.boss_disk_pair.specs.Causes.{CallCause, counts_of};
ghost use Rattle.boss_disk_pair.specs.Rests.{leaves, passes, rests};
ghost use Rattle.def_log.specs.Versions.{newest_version};

use crate::batch::Batch;
use boss_disk::Disk;
use boss_disk_pair::TwoDisks;
use boss_journal::Appended;
use boss_model::Event;
use boss_outside::Failed;
use boss_writing::put_event;

impl Batch {
    /// Appends the events to the log, as one record. Where there is none no disk is called.
    pub fn append_to<D: Disk>(&mut self, disks: &mut TwoDisks<D>) -> Result<(), Failed>
        requires going { disks.old.stopped ≡ false }
        requires version { disks.old.journal.version ≡ newest_version }
        requires room { self.old.bytes.capacity ≡ record_room }
        requires within { length self.old.bytes.bytes + 8 ≤ longest_record }
        // The events lead on from the state that the disks stand for.
        ensures rests { (plant : List Actuator) (made : List Entry) (start now : State) (count : ℕ) → rests disks.old plant start.persistent count →
            Taken plant made start now self.old → length made ≤ most_held → OnOk result (rests disks.new plant now.persistent (count + length (events plant made start))) }
        ensures passes { (plant : List Actuator) (made : List Entry) (start now : State) (count : ℕ) → rests disks.old plant start.persistent count →
            Taken plant made start now self.old → length made ≤ most_held → passes disks.old disks.new plant start.persistent now.persistent }
        ensures cause { CallCause false (counts_of disks.old) (counts_of disks.new) result }
        ensures fine { OnOk result (disks.new.stopped ≡ false) }
        ensures stops { OnErr result (disks.new.stopped ≡ true) }
        ensures log { OnOk result (disks.new.journal.place - disks.new.journal.first ≤ disks.old.journal.place - disks.old.journal.first + length self.old.bytes.bytes + 13) }
        ensures version { disks.new.journal.version ≡ newest_version }
        ensures generation { disks.new.generation ≡ disks.old.generation }
        ensures digest { disks.new.digest ≡ disks.old.digest }
        ensures capacity { self.new.bytes.capacity ≡ self.old.bytes.capacity }
    {
        if self.bytes.bytes().is_empty() {
            return Ok(());
        }
        match disks.append(&mut self.bytes, self.events) {
            Appended::Done => Ok(()),
            Appended::DiskFault | Appended::Stopped => Err(Failed),
        }
    }

    /// Appends an event to the log, alone, as one record.
    pub fn append_event<D: Disk>(
        &mut self,
        event: &Event,
        disks: &mut TwoDisks<D>,
    ) -> Result<(), Failed>
        requires going { disks.old.stopped ≡ false }
        requires version { disks.old.journal.version ≡ newest_version }
        requires room { self.old.bytes.capacity ≡ record_room }
        requires fits { spelling.fits event.now ≡ true }
        // The event leads on from the state that the disks stand for.
        ensures rests { (plant : List Actuator) (d to : Persistent) (count : ℕ) → rests disks.old plant d count → replay plant event.now d ≡ Some to →
            OnOk result (rests disks.new plant to (count + 1)) }
        ensures passes { (plant : List Actuator) (d to : Persistent) (count : ℕ) → rests disks.old plant d count → replay plant event.now d ≡ Some to →
            passes disks.old disks.new plant d to }
        ensures cause { CallCause false (counts_of disks.old) (counts_of disks.new) result }
        ensures fine { OnOk result (disks.new.stopped ≡ false) }
        ensures stops { OnErr result (disks.new.stopped ≡ true) }
        ensures log { OnOk result (disks.new.journal.place - disks.new.journal.first ≤ disks.old.journal.place - disks.old.journal.first + record_room) }
        ensures events { OnOk result (disks.new.events ≡ min (disks.old.events + 1) last_number) }
        ensures version { disks.new.journal.version ≡ newest_version }
        ensures digest { disks.new.digest ≡ disks.old.digest }
        ensures capacity { self.new.bytes.capacity ≡ self.old.bytes.capacity }
    {
        self.clear();
        put_event(&mut self.bytes, event);
        match disks.append(&mut self.bytes, 1) {
            Appended::Done => Ok(()),
            Appended::DiskFault | Appended::Stopped => Err(Failed),
        }
    }
}
