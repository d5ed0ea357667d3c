ghost use Rattle.std.specs.Prelude.{◌≡◌, ◌≤◌, ◌<◌, ℕ, length};
ghost use Rattle.std.specs.Int.{w16, w32, w64};
ghost use Rattle.def_bytes.specs.Fields.{number, byte};
ghost use Rattle.def_bytes.specs.Parts.{within, signed64, natural};
ghost use Rattle.boss_records.specs.Given.{Finds};

use crate::unread::NoSpelling;

/// One byte.
pub fn read_u8(bytes: &[u8]) -> Result<(u8, &[u8]), NoSpelling>
    ensures { Finds (λ x. (x.0, x.1.now)) result (byte.at bytes.now) }
{
    match bytes {
        [] => Err(NoSpelling),
        [first, rest @ ..] => Ok((*first, rest)),
    }
}

/// A number of 16 bits, the highest byte first.
#[tactic(auto, unfolding(def_bytes::specs::Fields::number_at))]
pub fn read_u16(bytes: &[u8]) -> Result<(u16, &[u8]), NoSpelling>
    ensures { Finds (λ x. (x.0, x.1.now)) result ((number w16).at bytes.now) }
{
    match bytes.split_first_chunk::<2>() {
        Some((head, rest)) => Ok((u16::from_be_bytes(*head), rest)),
        None => Err(NoSpelling),
    }
}

/// A number of 32 bits, the highest byte first.
#[tactic(auto, unfolding(def_bytes::specs::Fields::number_at))]
pub fn read_u32(bytes: &[u8]) -> Result<(u32, &[u8]), NoSpelling>
    ensures { Finds (λ x. (x.0, x.1.now)) result ((number w32).at bytes.now) }
{
    match bytes.split_first_chunk::<4>() {
        Some((head, rest)) => Ok((u32::from_be_bytes(*head), rest)),
        None => Err(NoSpelling),
    }
}

/// A number of 64 bits, the highest byte first.
#[tactic(auto, unfolding(def_bytes::specs::Fields::number_at))]
pub fn read_u64(bytes: &[u8]) -> Result<(u64, &[u8]), NoSpelling>
    ensures { Finds (λ x. (x.0, x.1.now)) result ((number w64).at bytes.now) }
{
    match bytes.split_first_chunk::<8>() {
        Some((head, rest)) => Ok((u64::from_be_bytes(*head), rest)),
        None => Err(NoSpelling),
    }
}

/// A whole number of 64 bits in two's complement, the highest byte first.
pub fn read_i64(bytes: &[u8]) -> Result<(i64, &[u8]), NoSpelling>
    ensures { Finds (λ x. (x.0, x.1.now)) result (signed64.at bytes.now) }
{
    let (bits, rest) = read_u64(bytes)?;
    Ok((bits.cast_signed(), rest))
}

/// A whole number of at least 0 in one byte.
pub fn read_natural8(bytes: &[u8]) -> Result<(i64, &[u8]), NoSpelling>
    ensures { Finds (λ x. (x.0, x.1.now)) result ((natural byte).at bytes.now) }
{
    let (number, rest) = read_u8(bytes)?;
    Ok((i64::from(number), rest))
}

/// A whole number of at least 0 in 32 bits.
pub fn read_natural32(bytes: &[u8]) -> Result<(i64, &[u8]), NoSpelling>
    ensures { Finds (λ x. (x.0, x.1.now)) result ((natural (number w32)).at bytes.now) }
{
    let (number, rest) = read_u32(bytes)?;
    Ok((i64::from(number), rest))
}

/// A byte of at least the first and at most the second of these values.
pub fn read_within(least: u8, most: u8, bytes: &[u8]) -> Result<(u8, &[u8]), NoSpelling>
    ensures { Finds (λ x. (x.0, x.1.now)) result ((within least most).at bytes.now) }
{
    let (number, rest) = read_u8(bytes)?;
    if number < least || most < number {
        return Err(NoSpelling);
    }
    Ok((number, rest))
}
