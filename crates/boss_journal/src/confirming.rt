ghost use Rattle.std.specs.Prelude.{◌≡◌, true, OnErr, OnOk};
ghost use Rattle.boss_outside.specs.Counts.{HasCause};
ghost use Rattle.boss_disk.specs.Story.{Steps};
ghost use Rattle.boss_disk.specs.Window.{settled};

use crate::Journal;
use boss_disk::Disk;
use boss_outside::Failed;

impl<D: Disk> Journal<D> {
    /// Syncs the disk, whether or not anything was written since the last time, so that one that is lost is found. After a failure
    /// the journal is stopped.
    pub fn confirm(&mut self) -> Result<(), Failed>
        ensures reads { D.tells → D.reads self.new.disk ≡ D.reads self.old.disk }
        ensures windows { D.tells → Steps (settled (D.reads self.old.disk)) (D.story self.old.disk).window (D.story self.old.disk) (D.story self.new.disk) result }
        ensures cause { HasCause (D.faults self.old.disk) (D.faults self.new.disk) result }
        ensures fine { OnOk result (self.new.stopped ≡ self.old.stopped) }
        ensures stops { OnErr result (self.new.stopped ≡ true) }
        ensures place { self.new.place ≡ self.old.place }
        ensures first { self.new.first ≡ self.old.first }
        ensures version { self.new.version ≡ self.old.version }
    {
        match self.disk.sync() {
            Ok(()) => Ok(()),
            Err(Failed) => {
                self.stopped = true;
                Err(Failed)
            }
        }
    }
}
