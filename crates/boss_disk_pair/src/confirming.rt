ghost use Rattle.std.specs.Prelude.{◌≡◌, ℕ, false, is_err, List, OnOk};
ghost use Rattle.boss_disk.specs.Story.{Moves};
ghost use Rattle.boss_disk.specs.Window.{settled};
ghost use Rattle.boss_model.specs.declared.state.Actuator.{Actuator};
ghost use Rattle.boss_model.specs.State.{Persistent};
ghost use Rattle.boss_disk_pair.specs.Causes.{CallCause, counts_of};
ghost use Rattle.boss_disk_pair.specs.Rests.{rests, leaves, passes};

use crate::TwoDisks;
use boss_disk::Disk;
use boss_outside::Failed;

impl<D: Disk> TwoDisks<D> {
    /// Syncs the disk that is in force while the pair is at rest: one that is lost, or that another one has taken over, is found so
    /// also where nothing changes. What the pair stands for stays, and what a crash leaves of it. After a failure the pair is
    /// stopped.
    pub fn confirm(&mut self) -> Result<(), Failed>
        requires going { self.old.stopped ≡ false }
        ensures rests { (plant : List Actuator) (d : Persistent) (count : ℕ) → rests self.old plant d count → OnOk result (rests self.new plant d count) }
        ensures passes { (plant : List Actuator) (d : Persistent) (count : ℕ) → rests self.old plant d count → passes self.old self.new plant d d }
        ensures leaves { (plant : List Actuator) (d : Persistent) (count : ℕ) → rests self.old plant d count → leaves self.new plant d d }
        // The disk was asked, once.
        ensures asked { D.tells → OnOk result (Moves (settled (D.reads self.old.journal.disk)) (D.story self.old.journal.disk) (D.story self.new.journal.disk)) }
        ensures cause { CallCause false (counts_of self.old) (counts_of self.new) result }
        ensures stops { self.new.stopped ≡ is_err result }
        ensures place { self.new.journal.place ≡ self.old.journal.place }
        ensures first { self.new.journal.first ≡ self.old.journal.first }
        ensures version { self.new.journal.version ≡ self.old.journal.version }
        ensures events { self.new.events ≡ self.old.events }
        ensures generation { self.new.generation ≡ self.old.generation }
        ensures digest { self.new.digest ≡ self.old.digest }
        ensures order { self.new.second ≡ self.old.second }
        ensures spare { self.new.spare ≡ self.old.spare }
    {
        match self.journal.confirm() {
            Ok(()) => Ok(()),
            Err(Failed) => {
                self.stopped = true;
                Err(Failed)
            }
        }
    }
}
