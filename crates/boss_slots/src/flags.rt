//! Which points were touched.

ghost use Rattle.std.specs.Prelude.{◌≡◌, ℕ, ◌*◌, ◌<◌, ◌≤◌, ◌^◌, true, false, IfNone, IfOk, IfSome, length, replicate, slice_index_or, slice_set};
ghost use Rattle.boss_slots.specs.Bits.{bit_of};
ghost use Rattle.boss_slots.specs.Flags.{AreFilled, IsFirst};

use crate::bits::{BITS, clear_bit, first_bit, set_bit, take_bit};
use boss_model::{NoMemory, PointId};
use std::alloc::Global;
use std::marker::Model;

/// A flag for each point. A contract sees them as a list. They are bits of words. A bit for each word says whether any of the
/// word's is set, so the first flag that is set is found by a look at two words, and at one more for each 4,096 points.
#[derive(Drop)]
pub struct Flags {
    count: usize,
    words: Vec<u64>,
    filled: Vec<u64>,
}

impl Model for Flags {
    ghost use Rattle.std.specs.Prelude.{List, Bool};
    ghost use Rattle.boss_slots.specs.Flags.{AreFlags, flags_of};

    ghost Value = { List Bool };

    ghost view = { λ f. flags_of f.count f.words.items };

    ghost invariant = { λ f. AreFlags f.count f.words.items f.filled.items };
}

impl Flags {
    /// So many flags, and none is set; `NoMemory` where there is no memory for so many.
    pub fn new(alloc: Global, points: u32) -> Result<Flags, NoMemory>
        ensures { IfOk result (λ flags. flags ≡ replicate points false) }
    {
        let count = points as usize;
        let words = count.div_ceil(BITS);
        Ok(Flags {
            count,
            words: vec![in alloc; 0; words]?,
            filled: vec![in alloc; 0; words.div_ceil(BITS)]?,
        })
    }

    /// Sets the flag of a point.
    pub fn set(&mut self, point: PointId)
        requires { point < length self.old }
        ensures { self.new ≡ slice_set self.old point true }
    {
        let place = point.0 as usize;
        set_bit(&mut self.words, place);
        set_bit(&mut self.filled, place / BITS);
    }

    /// Whether no flag is set. It looks at one word for each 4,096 points.
    pub fn are_clear(&self) -> bool
        ensures clear { result ≡ true → (point : ℕ) → slice_index_or self.now point false ≡ false }
        ensures set { result ≡ false → (point : ℕ) × (slice_index_or self.now point false ≡ true) }
    {
        are_zero(&self.words, &self.filled)
    }

    /// Takes the first flag that is set: gives its point, and clears it. It looks at one word for each 4,096 points.
    pub fn take_first(&mut self) -> Option<PointId>
        ensures first { IfSome result (λ point. IsFirst self.old point) }
        ensures cleared { IfSome result (λ point. self.new ≡ slice_set self.old point false) }
        ensures none { IfNone result ((point : ℕ) → slice_index_or self.old point false ≡ false) }
        ensures same { IfNone result (self.new ≡ self.old) }
    {
        let word = first_bit(&self.filled)?;
        let place = take_bit(&mut self.words, word);
        if self.words[word] == 0 {
            clear_bit(&mut self.filled, word);
        }
        Some(PointId(place as u32))
    }
}

/// Whether no bit of the words is set, where a bit of `filled` is set for each word that is not zero.
fn are_zero(words: &[u64], filled: &[u64]) -> bool
    requires filled { AreFilled words.now filled.now }
    requires few { 64 * length filled.now < 2 ^ 64 }
    ensures zero { result ≡ true → (place : ℕ) → bit_of words.now place ≡ 0 }
    ensures set { result ≡ false → (place : ℕ) × (bit_of words.now place ≡ 1) }
{
    match first_bit(filled) {
        Some(_) => false,
        None => true,
    }
}
