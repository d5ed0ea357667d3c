ghost use Rattle.std.specs.Prelude.{◌≡◌, ℕ, ◌^◌, ◌≤◌, ◌<◌, List, length, IfOk, IfErr, MatchResult};
ghost use Rattle.boss_journal.specs.Opens.{Refuses, OpenCause};
ghost use Rattle.boss_journal.specs.Looks.{looked_at, Finds};

use crate::start::{Start, find_start};
use crate::{Journal, OpenRefusal};
use boss_disk::Disk;
use boss_model::FIRST_GATE;

/// What a look at a disk finds.
#[derive(Drop)]
pub enum Looked<D: Disk> {
    /// A journal that is not made yet, or has no records.
    New(D),
    /// A journal, at its first gate.
    Old(Journal<D>),
}

impl<D: Disk> Journal<D> {
    /// Finds the journal of the catalogue with this digest, and leaves the disk as it is.
    pub fn look(disk: D, digest: &[u8; 32]) -> Result<Looked<D>, (D, OpenRefusal)>
        ensures finds { D.tells → IfOk result (Finds digest.now (D.reads disk)) }
        ensures refuses { D.tells → IfErr result (λ refused. Refuses digest.now (D.reads disk) refused.1) }
        ensures reads { D.tells → MatchResult result
            (λ looked. D.reads (looked_at looked) ≡ D.reads disk)
            (λ refused. D.reads refused.0 ≡ D.reads disk) }
        ensures windows { D.tells → MatchResult result
            (λ looked. D.story (looked_at looked) ≡ D.story disk)
            (λ refused. D.story refused.0 ≡ D.story disk) }
        ensures cause { MatchResult result
            (λ looked. D.faults (looked_at looked) ≡ D.faults disk)
            (λ refused. OpenCause (D.faults disk) (D.faults refused.0) refused.1) }
    {
        let mut disk = disk;
        match find_start(&mut disk, digest) {
            Ok(Start::Old { version }) => Ok(Looked::Old(Journal {
                disk,
                first: FIRST_GATE,
                place: FIRST_GATE,
                version,
                stopped: false,
            })),
            Ok(_) => Ok(Looked::New(disk)),
            Err(refusal) => Err((disk, refusal)),
        }
    }
}
