ghost use Rattle.std.specs.Prelude.{◌≡◌, ℕ, ◌+◌, ◌≤◌, true, ◌++◌, length};
ghost use Rattle.std.specs.Int.{w16, w32, w64};
ghost use Rattle.def_bytes.specs.Fields.{byte, number};
ghost use Rattle.def_bytes.specs.Parts.{natural, signed64};

use crate::room::Room;

/// One byte.
pub fn put_u8<R: Room>(into: &mut R, number: u8)
    requires { length (R.bytes into.old) + 1 ≤ R.capacity into.old }
    ensures bytes { R.bytes into.new ≡ R.bytes into.old ++ byte.text number }
    ensures long { length (R.bytes into.new) ≡ length (R.bytes into.old) + 1 }
    ensures capacity { R.capacity into.new ≡ R.capacity into.old }
{
    into.put(number);
}

/// A number of 16 bits, the highest byte first.
#[tactic(auto, unfolding(def_bytes::specs::Fields::number_text))]
pub fn put_u16<R: Room>(into: &mut R, n: u16)
    requires { length (R.bytes into.old) + 2 ≤ R.capacity into.old }
    ensures bytes { R.bytes into.new ≡ R.bytes into.old ++ (number w16).text n }
    ensures long { length (R.bytes into.new) ≡ length (R.bytes into.old) + 2 }
    ensures capacity { R.capacity into.new ≡ R.capacity into.old }
{
    into.put_all(&n.to_be_bytes());
}

/// A number of 32 bits, the highest byte first.
#[tactic(auto, unfolding(def_bytes::specs::Fields::number_text))]
pub fn put_u32<R: Room>(into: &mut R, n: u32)
    requires { length (R.bytes into.old) + 4 ≤ R.capacity into.old }
    ensures bytes { R.bytes into.new ≡ R.bytes into.old ++ (number w32).text n }
    ensures long { length (R.bytes into.new) ≡ length (R.bytes into.old) + 4 }
    ensures capacity { R.capacity into.new ≡ R.capacity into.old }
{
    into.put_all(&n.to_be_bytes());
}

/// A number of 64 bits, the highest byte first.
#[tactic(auto, unfolding(def_bytes::specs::Fields::number_text))]
pub fn put_u64<R: Room>(into: &mut R, n: u64)
    requires { length (R.bytes into.old) + 8 ≤ R.capacity into.old }
    ensures bytes { R.bytes into.new ≡ R.bytes into.old ++ (number w64).text n }
    ensures long { length (R.bytes into.new) ≡ length (R.bytes into.old) + 8 }
    ensures capacity { R.capacity into.new ≡ R.capacity into.old }
{
    into.put_all(&n.to_be_bytes());
}

/// A whole number of 64 bits in two's complement, the highest byte first.
#[tactic(auto, using(crate::proofs::Signed::signed_text))]
pub fn put_i64<R: Room>(into: &mut R, value: i64)
    requires { length (R.bytes into.old) + 8 ≤ R.capacity into.old }
    ensures bytes { R.bytes into.new ≡ R.bytes into.old ++ signed64.text value }
    ensures long { length (R.bytes into.new) ≡ length (R.bytes into.old) + 8 }
    ensures capacity { R.capacity into.new ≡ R.capacity into.old }
{
    put_u64(into, value.cast_unsigned());
}

/// A whole number of at least 0 in one byte.
pub fn put_natural8<R: Room>(into: &mut R, value: i64)
    requires fits { (natural byte).fits value ≡ true }
    requires room { length (R.bytes into.old) + 1 ≤ R.capacity into.old }
    ensures bytes { R.bytes into.new ≡ R.bytes into.old ++ (natural byte).text value }
    ensures long { length (R.bytes into.new) ≡ length (R.bytes into.old) + 1 }
    ensures capacity { R.capacity into.new ≡ R.capacity into.old }
{
    put_u8(into, value as u8);
}

/// A whole number of at least 0 in 32 bits.
pub fn put_natural32<R: Room>(into: &mut R, value: i64)
    requires fits { (natural (number w32)).fits value ≡ true }
    requires room { length (R.bytes into.old) + 4 ≤ R.capacity into.old }
    ensures bytes { R.bytes into.new ≡ R.bytes into.old ++ (natural (number w32)).text value }
    ensures long { length (R.bytes into.new) ≡ length (R.bytes into.old) + 4 }
    ensures capacity { R.capacity into.new ≡ R.capacity into.old }
{
    put_u32(into, value as u32);
}
