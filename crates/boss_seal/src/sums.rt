ghost use Rattle.std.specs.Prelude.{◌≡◌, ◌↔◌, IsTrue, ℕ, ◌^◌, ◌<◌, ◌≤◌, ◌∷◌, ◌++◌, List, length, take, IfSome, None};
ghost use Rattle.def_seal.specs.Seals.{has_sums, seed_of, sum_of};

use sha2::{Digest, Sha256};

/// The seed of the sums of a disk, by the bytes 1 to 64 of its front, or by all behind byte 0 where it has fewer.
pub fn seed_of(rest: &[u8]) -> [u8; 8]
    requires { length rest.now ≤ 64 }
    ensures { (first : ℕ) → result ≡ seed_of (first ∷ rest.now) }
{
    first_eight(&Sha256::digest(rest))
}

/// The sum of bytes behind the gate at this place.
#[tactic(auto, unfolding(def_seal::specs::Seals::sum_of))]
pub fn sum_of(seed: &[u8; 8], place: u64, bytes: &[u8]) -> [u8; 8]
    ensures { result ≡ sum_of seed.now place bytes.now }
{
    let mut hasher = Sha256::new();
    hasher.update(seed);
    hasher.update(&place.to_be_bytes());
    hasher.update(bytes);
    first_eight(&hasher.finalize())
}

/// The first eight bytes of a digest.
pub(crate) fn first_eight(digest: &[u8; 32]) -> [u8; 8]
    ensures { result ≡ take 8 digest.now }
{
    let mut first = [0u8; 8];
    first.copy_from_slice(&digest[..8]);
    first
}

/// Whether records of a disk of this version have sums: from version 3 on.
pub fn has_sums(version: u8) -> bool
    ensures { result ≡ has_sums version }
{
    version >= 3
}

/// How many bytes a record has without its sum, where this sum is right.
pub fn unsealed(seed: &[u8; 8], place: u64, whole: &[u8]) -> Option<usize>
    ensures right { IfSome result (λ size. (size ≤ length whole.now) × (whole.now ≡ take size whole.now ++ sum_of seed.now place (take size whole.now))) }
    ensures wrong { result ≡ None → (bytes : List ℕ) → whole.now ≡ bytes ++ sum_of seed.now place bytes → ⊥ }
{
    if whole.len() < 8 {
        return None;
    }
    let size = whole.len() - 8;
    let (bytes, sum) = whole.split_at(size);
    let wanted = sum_of(seed, place, bytes);
    if are_same(sum, &wanted) {
        Some(size)
    } else {
        None
    }
}

/// Whether these are the same bytes.
fn are_same(some: &[u8], other: &[u8]) -> bool
    ensures { IsTrue result ↔ (some.now ≡ other.now) }
{
    some == other
}
