ghost use Rattle.std.specs.Prelude.{◌≡◌, List, length};
ghost use Rattle.boss_durable.specs.Words.{keeps};
ghost use Rattle.boss_model.specs.declared.event.Event.{Event};
ghost use Rattle.boss_disk_pair.specs.Rests.{counted};

use crate::Durable;
use boss_disk::Disk;

impl<D: Disk> Durable<D> {
    /// How many events there were, up to `2 ^ 62`, where the number stands still.
    pub fn events(&self) -> u64
        ensures is { result ≡ self.now.disks.events }
        ensures kept { D.tells → (before : List Event) → keeps self.now before → result ≡ counted (length before) }
    {
        self.disks.events()
    }
}
