ghost use Rattle.std.specs.Prelude.{◌≡◌, ◌<◌, ℕ, List};
ghost use Rattle.boss_model.specs.declared.state.Actuator.{Actuator};
ghost use Rattle.boss_model.specs.Limits.{last_number};
ghost use Rattle.boss_model.specs.State.{Persistent};
ghost use Rattle.def_disk_pair.specs.Pairs.{OpensCleanly};
ghost use Rattle.boss_disk_pair.specs.Causes.{first_disk, second_disk};
ghost use Rattle.boss_disk_pair.specs.Images.{OpensToOne};
ghost use Rattle.boss_disk_pair.specs.Rests.{rests, leaves};

use crate::TwoDisks;
use boss_disk::Disk;

impl<D: Disk> TwoDisks<D> {
    /// The disks, the first and the second.
    pub fn close(self) -> (D, D)
        ensures disks { (result.0 ≡ first_disk self) × (result.1 ≡ second_disk self) }
        // Of a pair at rest they are clean, and open to what it stands for; of any other to what it may leave.
        ensures opens { D.tells → (plant : List Actuator) (d : Persistent) (count : ℕ) → rests self plant d count → count < last_number
            → OpensCleanly plant self.digest d count (D.reads result.0) (D.reads result.1) }
        ensures left { D.tells → (plant : List Actuator) (a b : Persistent) → leaves self plant a b
            → OpensToOne plant self.digest a b (D.reads result.0) (D.reads result.1) }
    {
        let disk = self.journal.close();
        if self.second {
            (self.spare, disk)
        } else {
            (disk, self.spare)
        }
    }
}
