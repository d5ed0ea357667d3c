ghost use Rattle.std.specs.Prelude.{◌≡◌, ℕ, ◌≤◌, List, [], ◌∷◌, ◌++◌, length, OnOk, IfOk, Ok};
ghost use Rattle.boss_model.specs.Limits.{first_gate};
ghost use Rattle.boss_outside.specs.Counts.{HasCause};
ghost use Rattle.boss_disk.specs.Runs.{Since, WritesThrough};
ghost use Rattle.boss_disk.specs.Window.{settled, overwritten};
ghost use Rattle.boss_journal.specs.Fronts.{journal_front, fresh_rest, IsFresh, IsBegun, IsNew};
ghost use Rattle.boss_journal.specs.Opens.{IsStart, IsBare, Opens};
ghost use Rattle.def_log.specs.Versions.{newest_version};

use crate::start::{Start, fresh_head};
use boss_disk::{Disk, write_through};
use boss_outside::Failed;
use def_log::NEWEST_VERSION;

/// Makes a journal of bytes that are new, and tells its version. A journal that was found is left as it is.
pub fn make<D: Disk>(disk: &mut D, start: Start, digest: &[u8; 32]) -> Result<u8, Failed>
    requires { D.tells → IsStart digest.now (D.reads disk.old) (Ok start) }
    ensures opens { D.tells → (D.story disk.old).window ≡ settled (D.reads disk.old)
        → IfOk result (λ version. Opens digest.now (D.reads disk.old) version first_gate (D.reads disk.new) (D.story disk.new).window) }
    ensures images { D.tells → (D.story disk.old).window ≡ settled (D.reads disk.old) → IsNew digest.now (D.reads disk.old)
        → Since (IsNew digest.now) (D.story disk.old) (D.story disk.new) }
    ensures still { D.tells → (IsNew digest.now (D.reads disk.old) → ⊥) → D.story disk.new ≡ D.story disk.old }
    ensures cause { HasCause (D.faults disk.old) (D.faults disk.new) result }
{
    match start {
        Start::Short => {
            put_first(disk, digest)?;
            Ok(NEWEST_VERSION)
        }
        Start::Begun => {
            put_head(disk, digest)?;
            Ok(NEWEST_VERSION)
        }
        Start::Fresh { version } => {
            put_mark(disk)?;
            Ok(version)
        }
        Start::Old { version } => Ok(version),
    }
}

/// Makes a journal of at most one byte, which is written as 0 first.
fn put_first<D: Disk>(disk: &mut D, digest: &[u8; 32]) -> Result<(), Failed>
    requires { D.tells → length (D.reads disk.old) ≤ 1 }
    ensures made { D.tells → OnOk result (IsBare newest_version digest.now (D.reads disk.new) (D.story disk.new).window) }
    ensures images { D.tells → (D.story disk.old).window ≡ settled (D.reads disk.old)
        → Since (IsNew digest.now) (D.story disk.old) (D.story disk.new) }
    ensures cause { HasCause (D.faults disk.old) (D.faults disk.new) result }
{
    write_through(disk, 0, &[0])?;
    put_head(disk, digest)
}

/// Makes a journal of at most 42 bytes that begin with 0. The rest is written and synced before the first byte.
fn put_head<D: Disk>(disk: &mut D, digest: &[u8; 32]) -> Result<(), Failed>
    requires { D.tells → IsBegun (D.reads disk.old) }
    ensures made { D.tells → OnOk result (IsBare newest_version digest.now (D.reads disk.new) (D.story disk.new).window) }
    ensures images { D.tells → (D.story disk.old).window ≡ settled (D.reads disk.old)
        → Since (IsNew digest.now) (D.story disk.old) (D.story disk.new) }
    ensures cause { HasCause (D.faults disk.old) (D.faults disk.new) result }
{
    put_rest(disk, digest)?;
    put_mark(disk)
}

/// Writes all bytes of a journal without records but for the first, and syncs the disk.
fn put_rest<D: Disk>(disk: &mut D, digest: &[u8; 32]) -> Result<(), Failed>
    requires { D.tells → 1 ≤ length (D.reads disk.old) }
    ensures reads { D.tells → OnOk result (D.reads disk.new ≡ overwritten 1 (fresh_rest newest_version digest.now) (D.reads disk.old)) }
    ensures windows { D.tells → WritesThrough 1 (fresh_rest newest_version digest.now) (D.reads disk.old) (D.story disk.old) (D.story disk.new) result }
    ensures cause { HasCause (D.faults disk.old) (D.faults disk.new) result }
{
    let rest = fresh_head(NEWEST_VERSION, digest);
    write_through(disk, 1, &rest)
}

/// Writes the first byte of a journal that is whole but for it.
fn put_mark<D: Disk>(disk: &mut D) -> Result<(), Failed>
    ensures made { D.tells → (version : ℕ) (digest : List ℕ) → IsFresh version digest (D.reads disk.old)
        → OnOk result (IsBare version digest (D.reads disk.new) (D.story disk.new).window) }
    ensures images { D.tells → (version : ℕ) (digest : List ℕ) → IsFresh version digest (D.reads disk.old)
        → (D.story disk.old).window ≡ settled (D.reads disk.old)
        → Since (IsNew digest) (D.story disk.old) (D.story disk.new) }
    ensures cause { HasCause (D.faults disk.old) (D.faults disk.new) result }
{
    write_through(disk, 0, b"B")
}
