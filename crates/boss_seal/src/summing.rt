ghost use Rattle.std.specs.Prelude.{◌≡◌, ℕ, [], ◌++◌, List};
ghost use Rattle.boss_seal.specs.Taken.{Took};
ghost use Rattle.def_seal.specs.Seals.{sum_of};

use crate::sums::first_eight;
use sha2::{Digest, Sha256};

/// A sum of bytes that come piece by piece.
#[derive(Drop)]
pub struct Summing {
    pub(crate) hasher: Sha256,
}

impl Summing {
    /// The sum of no bytes, behind the gate at this place.
    pub fn begin(seed: &[u8; 8], place: u64) -> Summing
        ensures { Took result seed.now place [] }
    {
        let mut hasher = Sha256::new();
        hasher.update(seed);
        hasher.update(&place.to_be_bytes());
        Summing { hasher }
    }

    /// Takes these bytes, behind those that it has.
    pub fn take(&mut self, piece: &[u8])
        ensures { (seed : List ℕ) (place : ℕ) (taken : List ℕ) → Took self.old seed place taken → Took self.new seed place (taken ++ piece.now) }
    {
        self.hasher.update(piece);
    }

    /// The sum of all that it took.
    pub fn finish(self) -> [u8; 8]
        ensures { (seed : List ℕ) (place : ℕ) (bytes : List ℕ) → Took self seed place bytes → result ≡ sum_of seed place bytes }
    {
        first_eight(&self.hasher.finalize())
    }
}
