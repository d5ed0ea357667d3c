ghost use Rattle.std.specs.Prelude.{◌≡◌, ℕ, ◌^◌, ◌≤◌, ◌<◌, List, [], ◌∷◌, ◌++◌, length, slice_index, false, MatchResult, IfOk, IfErr};
ghost use Rattle.boss_model.specs.Limits.{first_gate};
ghost use Rattle.boss_disk.specs.Runs.{Since};
ghost use Rattle.boss_disk.specs.Window.{settled};
ghost use Rattle.boss_journal.specs.Fronts.{IsNew};
ghost use Rattle.boss_journal.specs.Opens.{Refuses, OpenCause, Untouched, Opens, WhileOpening};
ghost use Rattle.boss_journal.specs.Places.{IsAt, IsAtRest};

use crate::making::make;
use crate::start::{Start, find_start};
use crate::{Journal, OpenRefusal};
use boss_disk::Disk;
use boss_model::FIRST_GATE;

impl<D: Disk> Journal<D> {
    /// Opens the journal of the catalogue with this digest, after a sync. Where the bytes are new it makes one.
    pub fn open(disk: D, digest: &[u8; 32]) -> Result<Journal<D>, (D, OpenRefusal)>
        ensures opens { D.tells → IfOk result (λ journal. Opens digest.now (D.reads disk) journal.version journal.place (D.reads journal.disk) (D.story journal.disk).window) }
        ensures refuses { D.tells → IfErr result (λ refused. Refuses digest.now (D.reads disk) refused.1) }
        ensures images { D.tells → MatchResult result
            (λ journal. Since (WhileOpening digest.now (D.reads disk) (D.story disk).window) (D.story disk) (D.story journal.disk))
            (λ refused. Since (WhileOpening digest.now (D.reads disk) (D.story disk).window) (D.story disk) (D.story refused.0)) }
        ensures untouched { D.tells → IfErr result (λ refused. Untouched (D.reads disk) (D.reads refused.0) refused.1) }
        ensures cause { MatchResult result
            (λ journal. D.faults journal.disk ≡ D.faults disk)
            (λ refused. OpenCause (D.faults disk) (D.faults refused.0) refused.1) }
        ensures first { IfOk result (λ journal. (journal.first ≡ journal.place) × (journal.stopped ≡ false)) }
    {
        let mut disk = disk;
        match begin(&mut disk, digest) {
            Ok(version) => Ok(Journal {
                disk,
                first: FIRST_GATE,
                place: FIRST_GATE,
                version,
                stopped: false,
            }),
            Err(refusal) => Err((disk, refusal)),
        }
    }
}

/// Syncs a disk, and makes it a journal where it is new; its version.
fn begin<D: Disk>(disk: &mut D, digest: &[u8; 32]) -> Result<u8, OpenRefusal>
    ensures opens { D.tells → IfOk result (λ version. Opens digest.now (D.reads disk.old) version first_gate (D.reads disk.new) (D.story disk.new).window) }
    ensures inside { D.tells → IfOk result (λ _. first_gate < length (D.reads disk.new)) }
    ensures refuses { D.tells → IfErr result (Refuses digest.now (D.reads disk.old)) }
    ensures images { D.tells → Since (WhileOpening digest.now (D.reads disk.old) (D.story disk.old).window) (D.story disk.old) (D.story disk.new) }
    ensures untouched { D.tells → IfErr result (Untouched (D.reads disk.old) (D.reads disk.new)) }
    ensures fine { IfOk result (λ _. D.faults disk.new ≡ D.faults disk.old) }
    ensures cause { IfErr result (OpenCause (D.faults disk.old) (D.faults disk.new)) }
{
    disk.sync()?;
    match find_start(disk, digest) {
        Ok(start) => Ok(make(disk, start, digest)?),
        Err(refusal) => Err(refusal),
    }
}
