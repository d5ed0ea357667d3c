ghost use Rattle.std.specs.Prelude.{◌≡◌, true, false, [], ◌∷◌, OnOk, IfOk};
ghost use Rattle.boss_disk.specs.Fronts.{KeepsFront};
ghost use Rattle.boss_disk.specs.Runs.{Since};
ghost use Rattle.boss_disk.specs.Window.{settled};
ghost use Rattle.boss_outside.specs.Counts.{HasCause};
ghost use Rattle.boss_snapshot.specs.Writes.{Clearing, IsZero};

use boss_disk::{Disk, write_through};
use boss_outside::Failed;

/// Leaves of a disk its byte 0, which is 0 then. No crash leaves another part of what it held in force.
pub fn clear<D: Disk>(disk: &mut D) -> Result<(), Failed>
    ensures reads { D.tells → OnOk result (D.reads disk.new ≡ 0 ∷ []) }
    ensures zero { D.tells → (D.story disk.old).window ≡ settled (D.reads disk.old)
        → OnOk result (KeepsFront (0 ∷ []) (D.story disk.new).window) }
    ensures images { D.tells → (D.story disk.old).window ≡ settled (D.reads disk.old)
        → Since (Clearing (D.reads disk.old)) (D.story disk.old) (D.story disk.new) }
    ensures cause { HasCause (D.faults disk.old) (D.faults disk.new) result }
{
    put_zero(disk)?;
    disk.cut(1)
}

/// Puts byte 0 to 0, where it is not.
fn put_zero<D: Disk>(disk: &mut D) -> Result<(), Failed>
    ensures zero { D.tells → OnOk result (IsZero (D.reads disk.new)) }
    ensures synced { D.tells → (D.story disk.old).window ≡ settled (D.reads disk.old)
        → OnOk result ((D.story disk.new).window ≡ settled (D.reads disk.new)) }
    ensures images { D.tells → (D.story disk.old).window ≡ settled (D.reads disk.old)
        → Since (Clearing (D.reads disk.old)) (D.story disk.old) (D.story disk.new) }
    ensures cause { HasCause (D.faults disk.old) (D.faults disk.new) result }
{
    if is_zero(disk)? {
        return Ok(());
    }
    write_through(disk, 0, &[0])
}

/// Whether byte 0 is there and is 0.
fn is_zero<D: Disk>(disk: &mut D) -> Result<bool, Failed>
    ensures zero { D.tells → IfOk result (λ zero. zero ≡ true → IsZero (D.reads disk.old)) }
    ensures other { D.tells → IfOk result (λ zero. zero ≡ false → IsZero (D.reads disk.old) → ⊥) }
    ensures reads { D.tells → D.reads disk.new ≡ D.reads disk.old }
    ensures windows { D.tells → D.story disk.new ≡ D.story disk.old }
    ensures cause { HasCause (D.faults disk.old) (D.faults disk.new) result }
{
    if disk.length()? == 0 {
        return Ok(false);
    }
    let mut first = [0u8];
    disk.read_at(0, &mut first)?;
    Ok(first[0] == 0)
}
