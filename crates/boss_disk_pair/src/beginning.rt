ghost use Rattle.std.specs.Prelude.{◌≡◌, ◌^◌, ◌≤◌, false, ℕ, [], List, slice_index};
ghost use Rattle.boss_model.specs.Limits.{first_gate};
ghost use Rattle.def_log.specs.declared.kind.DiskKind.TheVariants.{Plain, State};
ghost use Rattle.def_log.specs.Kinds.{kind_of, plain_mark};
ghost use Rattle.boss_model.specs.declared.state.Actuator.{Actuator};
ghost use Rattle.boss_model.specs.Sound.{IsSoundPersistent};
ghost use Rattle.boss_model.specs.State.{Persistent, first_persistent};
ghost use Rattle.def_disk_pair.specs.Fronts.{heading};
ghost use Rattle.def_seal.specs.Seals.{seed_of};
ghost use Rattle.boss_snapshot.specs.Fronts.{version_of, digest_of};
ghost use Rattle.def_log.specs.Versions.{IsKnown};
ghost use Rattle.boss_snapshot.specs.Refusals.{IsKeptState};
ghost use Rattle.boss_disk_pair.specs.Orders.{InOrder};
ghost use Rattle.boss_disk_pair.specs.Reads.{reads_to};
ghost use Rattle.boss_disk_pair.specs.Rests.{IsInForce};

use crate::TwoDisks;
use crate::seeds::seed_by;
use boss_disk::Disk;
use boss_journal::Journal;

impl<D: Disk> TwoDisks<D> {
    /// The pair whose disk in force holds this journal, at its first gate, under the catalogue with this digest. Of a journal from
    /// a kept state on, the generation is its and so are the events before it; of one from the first state on both are 0.
    pub fn begin(
        journal: Journal<D>,
        spare: D,
        second: bool,
        generation: u64,
        events: u64,
        digest: &[u8; 32],
    ) -> TwoDisks<D>
        requires going { journal.stopped ≡ false }
        requires few { events ≤ 2 ^ 62 }
        ensures kept { D.tells → InOrder (IsInForce second) second (D.reads journal.disk) (D.reads spare)
            → kind_of (D.reads journal.disk) ≡ State generation → journal.version ≡ version_of (D.reads journal.disk)
            → (d : Persistent) → IsKeptState digest.now (D.reads journal.disk) d events journal.place
            → (plant : List Actuator) → IsSoundPersistent plant d → reads_to result plant d events [] d }
        ensures plain { D.tells → InOrder (IsInForce second) second (D.reads journal.disk) (D.reads spare)
            → kind_of (D.reads journal.disk) ≡ Plain → journal.version ≡ version_of (D.reads journal.disk)
            → IsKnown journal.version → digest_of (D.reads journal.disk) ≡ digest.now → journal.place ≡ first_gate → events ≡ 0
            → (plant : List Actuator) → reads_to result plant first_persistent 0 [] first_persistent }
        // What a journal that was made without a read has to know of its sums.
        ensures seed { journal.place ≡ first_gate → (first : ℕ) → result.seed ≡ seed_of (heading first plain_mark journal.version digest.now) }
        ensures journal { result.journal ≡ journal }
        ensures spare { result.spare ≡ spare }
        ensures order { result.second ≡ second }
        ensures going { result.stopped ≡ false }
        ensures generation { result.generation ≡ generation }
        ensures events { result.events ≡ events }
        ensures digest { result.digest ≡ digest.now }
    {
        let seed = seed_by(
            journal.version(),
            journal.place(),
            generation,
            events,
            digest,
        );
        TwoDisks {
            journal,
            spare,
            second,
            stopped: false,
            generation,
            events,
            digest: *digest,
            seed,
        }
    }
}
