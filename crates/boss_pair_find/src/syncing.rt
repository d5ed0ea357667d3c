ghost use Rattle.std.specs.Prelude.{◌≡◌, OnOk};
ghost use Rattle.boss_disk.specs.Legs.{Legs, LeaveBoth};
ghost use Rattle.boss_disk.specs.Window.{settled};
ghost use Rattle.boss_pair_find.specs.Two.{counts, two, MightLeave, BothCause};

use boss_disk::Disk;
use boss_outside::Failed;

/// Makes all that was written and cut of both disks outlast a crash, of the first disk before the second. Meanwhile a crash leaves
/// nothing that it might not have left before.
pub fn sync_both<D: Disk>(first: &mut D, second: &mut D) -> Result<(), Failed>
    ensures settles { D.tells → OnOk result
        (((D.story first.new).window ≡ settled (D.reads first.new)) × ((D.story second.new).window ≡ settled (D.reads second.new))) }
    ensures images { D.tells → Legs (LeaveBoth (MightLeave (D.story first.old).window (D.story second.old).window))
        (two (D.story first.old) (D.story second.old)) (two (D.story first.new) (D.story second.new)) }
    ensures first_reads { D.tells → D.reads first.new ≡ D.reads first.old }
    ensures second_reads { D.tells → D.reads second.new ≡ D.reads second.old }
    ensures cause { BothCause (counts (D.faults first.old) (D.faults second.old)) (counts (D.faults first.new) (D.faults second.new)) result }
{
    first.sync()?;
    second.sync()
}
