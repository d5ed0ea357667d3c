ghost use Rattle.std.specs.Prelude.{◌≡◌, IfOk};
ghost use Rattle.boss_disk_pair.specs.Forces.{TellsForce};
ghost use Rattle.boss_pair_find.specs.Two.{BothCause, counts};
ghost use Rattle.def_log.specs.Kinds.{kind_of};

use boss_disk::Disk;
use boss_disk_pair::{Force, force_of};
use boss_outside::Failed;
use boss_snapshot::kind;

/// Which disk of a pair is in force, by the kinds of both; none, where one of them is not this program's. The disks stay as they are.
pub fn find_force<D: Disk>(first: &mut D, second: &mut D) -> Result<Option<Force>, Failed>
    ensures force { D.tells → IfOk result (TellsForce (kind_of (D.reads first.old)) (kind_of (D.reads second.old))) }
    ensures first_reads { D.tells → D.reads first.new ≡ D.reads first.old }
    ensures second_reads { D.tells → D.reads second.new ≡ D.reads second.old }
    ensures first_windows { D.tells → D.story first.new ≡ D.story first.old }
    ensures second_windows { D.tells → D.story second.new ≡ D.story second.old }
    ensures cause { BothCause (counts (D.faults first.old) (D.faults second.old)) (counts (D.faults first.new) (D.faults second.new)) result }
{
    let one = kind(first)?;
    let other = kind(second)?;
    Ok(force_of(one, other))
}
