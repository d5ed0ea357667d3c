ghost use Rattle.std.specs.Prelude.{◌≡◌, ◌<◌, true, pos, negsuc, ◌≤ℤ◌};
ghost use Rattle.boss_numbers.specs.Scales.{AreWords, Stands, complement, fits, halves, whole};

use crate::scale::{fits, numerator, whole};
use crate::signed::bits_of;
use boss_model::{Form, Half, Round, Scale};

/// The registers of a number, as they stand one after the other.
#[derive(Clone, Copy, Debug, PartialEq, Eq)]
pub enum Words {
    One { word: u16 },
    Two { first: u16, second: u16 },
}

/// The registers of a value, where it has a form at this scale.
pub fn words_of(form: Form, scale: Scale, value: i64) -> Option<Words>
    ensures { Stands form scale value result }
{
    if scale.per < 1 {
        return None;
    }
    let n = numerator(scale, value)?;
    if !fits(form, whole(scale.round, n, scale.per)) {
        return None;
    }
    Some(in_registers(form, scale.round, n, scale.per))
}

/// The registers of `n / per`, which the form has.
fn in_registers(form: Form, round: Round, n: i64, per: i64) -> Words
    requires some { pos 1 ≤ℤ per }
    requires fits { fits form (whole round n per) ≡ true }
    ensures { AreWords form round n per result }
{
    match form {
        Form::Unsigned16 | Form::Signed16 => Words::One {
            word: word(whole(round, n, per)),
        },
        Form::Unsigned32 { first } | Form::Signed32 { first } => {
            halves(long_word(whole(round, n, per)), first)
        }
        Form::Single { first } => halves(bits_of(n, per as u64), first),
    }
}

/// The 16 bits of a whole number.
fn word(raw: i128) -> u16
    requires least { negsuc 32767 ≤ℤ raw }
    requires most { raw ≤ℤ pos 65535 }
    ensures { result ≡ complement 65536 raw }
{
    if raw < 0 {
        (raw + 65_536) as u16
    } else {
        raw as u16
    }
}

/// Its 32 bits.
fn long_word(raw: i128) -> u32
    requires least { negsuc 2147483647 ≤ℤ raw }
    requires most { raw ≤ℤ pos 4294967295 }
    ensures { result ≡ complement 4294967296 raw }
{
    if raw < 0 {
        (raw + 4_294_967_296) as u32
    } else {
        raw as u32
    }
}

/// The two halves of 32 bits.
fn halves(bits: u32, first: Half) -> Words
    ensures { result ≡ halves bits first }
{
    let high = (bits / 65_536) as u16;
    let low = (bits % 65_536) as u16;
    match first {
        Half::High => Words::Two {
            first: high,
            second: low,
        },
        Half::Low => Words::Two {
            first: low,
            second: high,
        },
    }
}
