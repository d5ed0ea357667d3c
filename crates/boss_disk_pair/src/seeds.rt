ghost use Rattle.std.specs.Prelude.{◌≡◌, ◌≢◌, ℕ, ◌-◌, ◌∷◌};
ghost use Rattle.boss_model.specs.Limits.{first_gate};
ghost use Rattle.def_disk_pair.specs.Fronts.{heading, kept_head};
ghost use Rattle.def_log.specs.Kinds.{plain_mark};
ghost use Rattle.def_seal.specs.Seals.{seed_of};

use boss_model::FIRST_GATE;
use boss_seal::{seed_of_counts, seed_of_front};
use boss_snapshot::{PLAIN_MARK, STATE_MARK};

/// Where the state of a kept state begins that has sums.
const TEXT: u64 = 73;

/// The seed of a disk's sums whose first gate is at this place, by what its front tells; it means nothing on a disk without sums.
pub(crate) fn seed_by(
    version: u8,
    place: u64,
    generation: u64,
    events: u64,
    digest: &[u8; 32],
) -> [u8; 8]
    ensures plain { place ≡ first_gate → (first : ℕ) → result ≡ seed_of (heading first plain_mark version digest.now) }
    ensures kept { place ≢ first_gate → (first : ℕ) → result ≡ seed_of (first ∷ kept_head version digest.now generation events (place - 73)) }
{
    if place == FIRST_GATE {
        seed_of_front(&PLAIN_MARK, version, digest)
    } else {
        let size = place.saturating_sub(TEXT);
        seed_of_counts(&STATE_MARK, version, digest, generation, events, size)
    }
}
