ghost use Rattle.std.specs.Prelude.{◌≡◌, false, List, IfOk, IfErr};
ghost use Rattle.boss_disk.specs.Legs.{Legs, LeaveBoth};
ghost use Rattle.boss_disk.specs.Window.{settled};
ghost use Rattle.boss_pair_find.specs.Finds.{IsAtStart};
ghost use Rattle.boss_pair_find.specs.Holds.{IsNewPair};
ghost use Rattle.boss_pair_find.specs.Makes.{HasVersion, made_first, made_second};
ghost use Rattle.boss_pair_find.specs.Refusals.{AnswerCause};
ghost use Rattle.boss_pair_find.specs.Two.{counts, two};
ghost use Rattle.boss_model.specs.declared.state.Actuator.{Actuator};
ghost use Rattle.boss_model.specs.State.{first_persistent};
ghost use Rattle.def_disk_pair.specs.Pairs.{OpensCleanly};
ghost use Rattle.boss_disk_pair.specs.Rests.{rests};

use crate::DurableRefusal;
use boss_disk::Disk;
use boss_disk_pair::TwoDisks;
use boss_journal::Journal;

/// Makes the journal of the catalogue with this digest on the first disk of a pair that holds nothing that counts. A journal that
/// was half made keeps its version, and else it is the newest. The second disk is not called.
pub fn make<D: Disk>(
    first: D,
    second: D,
    digest: &[u8; 32],
) -> Result<TwoDisks<D>, ((D, D), DurableRefusal)>
    requires { D.tells → IsNewPair (D.reads first) (D.reads second) }
    ensures rests { D.tells → (D.story second).window ≡ settled (D.reads second)
        → (plant : List Actuator) → IfOk result (λ pair. rests pair plant first_persistent 0) }
    // All the while, and after a fault, the pair stands for the first state with no event.
    ensures images { D.tells → (D.story first).window ≡ settled (D.reads first) → (D.story second).window ≡ settled (D.reads second)
        → (plant : List Actuator) → Legs (LeaveBoth (OpensCleanly plant digest.now first_persistent 0))
        (two (D.story first) (D.story second)) (two (D.story (made_first result)) (D.story (made_second result))) }
    ensures version { D.tells → IfOk result (λ pair. HasVersion digest.now (D.reads first) pair.journal.version) }
    ensures starts { IfOk result (IsAtStart digest.now) }
    ensures order { IfOk result (λ pair. pair.second ≡ false) }
    ensures second { made_second result ≡ second }
    ensures refuses { D.tells → IfErr result (λ refused. refused.1 ≡ DurableRefusal.DiskFault) }
    ensures cause { AnswerCause (counts (D.faults first) (D.faults second)) (counts (D.faults (made_first result)) (D.faults (made_second result))) result }
{
    match Journal::open(first, digest) {
        Ok(journal) => Ok(TwoDisks::begin(journal, second, false, 0, 0, digest)),
        Err((first, refusal)) => Err(((first, second), DurableRefusal::from(refusal))),
    }
}
