ghost use Rattle.std.specs.Prelude.{◌≡◌, ℕ, ◌∷◌, ◌++◌};
ghost use Rattle.std.specs.Int.{w64, to_be_bytes};
ghost use Rattle.sha2.specs.Hashers.{Holds256};
ghost use Rattle.def_seal.specs.Seals.{seed_of};

use crate::sums::first_eight;
use sha2::{Digest, Sha256};

/// The seed of a disk whose front is a mark, a version and the digest of a catalogue, behind byte 0.
pub fn seed_of_front(mark: &[u8; 7], version: u8, digest: &[u8; 32]) -> [u8; 8]
    ensures { (first : ℕ) → result ≡ seed_of (first ∷ (mark.now ++ version ∷ digest.now)) }
{
    first_eight(&front_hasher(mark, version, digest).finalize())
}

/// The seed of one that has three numbers behind them: generation, events before, and length of the state.
pub fn seed_of_counts(
    mark: &[u8; 7],
    version: u8,
    digest: &[u8; 32],
    generation: u64,
    events: u64,
    size: u64,
) -> [u8; 8]
    ensures { (first : ℕ) → result ≡ seed_of (first ∷ (mark.now ++ version ∷ (digest.now
        ++ (to_be_bytes w64 generation ++ (to_be_bytes w64 events ++ to_be_bytes w64 size))))) }
{
    let mut hasher = front_hasher(mark, version, digest);
    hasher.update(&generation.to_be_bytes());
    hasher.update(&events.to_be_bytes());
    hasher.update(&size.to_be_bytes());
    first_eight(&hasher.finalize())
}

fn front_hasher(mark: &[u8; 7], version: u8, digest: &[u8; 32]) -> Sha256
    ensures { Holds256 result (mark.now ++ version ∷ digest.now) }
{
    let mut hasher = Sha256::new();
    hasher.update(mark);
    hasher.update(&[version]);
    hasher.update(digest);
    hasher
}
