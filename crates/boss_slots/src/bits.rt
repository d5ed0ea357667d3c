//! Bits in words of 64.

ghost use Rattle.std.specs.Prelude.{◌≡◌, ◌≢◌, ℕ, ◌*◌, ◌/◌, ◌<◌, ◌≤◌, ◌^◌, length, slice_index, IfNone, IfSome};
ghost use Rattle.std.specs.Int.{bit_at};
ghost use Rattle.boss_slots.specs.Bits.{IsFirstBit, IsFirstIn, bit_of};

/// The bits of a word.
pub const BITS: usize = 64;

/// Sets a bit.
pub fn set_bit(words: &mut Vec<u64>, place: usize)
    requires { place < 64 * length words.old.items }
    ensures length { length words.new.items ≡ length words.old.items }
    ensures here { bit_of words.new.items place ≡ 1 }
    ensures bits { (other : ℕ) → other ≢ place → bit_of words.new.items other ≡ bit_of words.old.items other }
    ensures words { (word : ℕ) → word ≢ place / 64 → slice_index words.new.items word ≡ slice_index words.old.items word }
{
    words[place / BITS] |= 1 << (place % BITS);
}

/// Clears a bit.
pub fn clear_bit(words: &mut Vec<u64>, place: usize)
    requires { place < 64 * length words.old.items }
    ensures length { length words.new.items ≡ length words.old.items }
    ensures here { bit_of words.new.items place ≡ 0 }
    ensures bits { (other : ℕ) → other ≢ place → bit_of words.new.items other ≡ bit_of words.old.items other }
    ensures words { (word : ℕ) → word ≢ place / 64 → slice_index words.new.items word ≡ slice_index words.old.items word }
    ensures less { slice_index words.new.items (place / 64) ≤ slice_index words.old.items (place / 64) }
{
    words[place / BITS] &= !(1 << (place % BITS));
}

/// Takes the first bit that is set in a word, which must not be zero: clears it, and gives its place.
pub fn take_bit(words: &mut Vec<u64>, word: usize) -> usize
    requires some { 0 < slice_index words.old.items word }
    requires few { 64 * length words.old.items < 2 ^ 64 }
    ensures first { IsFirstIn words.old.items word result }
    ensures length { length words.new.items ≡ length words.old.items }
    ensures here { bit_of words.new.items result ≡ 0 }
    ensures bits { (other : ℕ) → other ≢ result → bit_of words.new.items other ≡ bit_of words.old.items other }
    ensures words { (other : ℕ) → other ≢ word → slice_index words.new.items other ≡ slice_index words.old.items other }
    ensures less { slice_index words.new.items word ≤ slice_index words.old.items word }
{
    let bit = first_of(words[word]);
    words[word] &= !(1 << bit);
    word * BITS + bit
}

/// The first bit that is set. It looks at each word up to that of the bit.
pub fn first_bit(words: &[u64]) -> Option<usize>
    requires { 64 * length words.now < 2 ^ 64 }
    ensures some { IfSome result (λ place. IsFirstBit words.now place) }
    ensures none { IfNone result ((place : ℕ) → bit_of words.now place ≡ 0) }
{
    for (place, word) in words.iter().enumerate() {
        if *word != 0 {
            return Some(place * BITS + first_of(*word));
        }
    }
    None
}

/// Which bit of a word is the first that is set. The word must not be zero.
fn first_of(word: u64) -> usize
    requires { 0 < word }
    ensures within { result < 64 }
    ensures is { bit_at word result ≡ 1 }
    ensures first { (bit : ℕ) → bit < result → bit_at word bit ≡ 0 }
{
    word.trailing_zeros() as usize
}
