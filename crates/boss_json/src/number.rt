ghost use Rattle.std.specs.Prelude.{◌≡◌, ◌==◌, ◌^◌, ◌<◌, true, false, is_some, length, slice_index, IfSome, IsTrue};
ghost use Rattle.std.specs.Option.{option_and_then};
ghost use Rattle.std.specs.Str.Parse.{digits_value, IsNumeral};
ghost use Rattle.serde_json.specs.Find.{as_i64};
ghost use Rattle.serde_json.specs.Read.{number_from, number_of};

use fast_float::Numeral;

/// A number of at most this many digits has room in 64 bits.
const MOST_DIGITS: usize = 18;

/// The number that a text writes, if it is a whole one that fits 64 bits with a sign. A fraction, an exponent and `-0` are none.
#[tactic(auto, using(crate::proofs::Digits::whole_digits))]
pub(crate) fn whole_number(text: &str) -> Option<i64>
    ensures { result ≡ option_and_then as_i64 (number_of text.now) }
{
    match few_digits(text.as_bytes()) {
        Some(number) => Some(number as i64),
        None => scanned_number(text),
    }
}

/// The same of any text, cut into the parts of a numeral. It stands apart, so that few digits are read where they are wanted.
#[inline(never)]
fn scanned_number(text: &str) -> Option<i64>
    ensures { result ≡ option_and_then as_i64 (number_of text.now) }
{
    let (negative, numeral) = signed(text);
    if negative {
        whole_below(&numeral)
    } else {
        whole_from(&numeral)
    }
}

/// Whether the number that a text writes is not too large for a float.
#[tactic(auto, using(crate::proofs::Digits::digits_in_range))]
pub(crate) fn is_in_range(text: &str) -> bool
    ensures { result ≡ is_some (number_of text.now) }
{
    few_digits(text.as_bytes()).is_some() || is_scanned_in_range(text)
}

/// The same of any text, cut into the parts of a numeral.
fn is_scanned_in_range(text: &str) -> bool
    ensures { result ≡ is_some (number_of text.now) }
{
    let (negative, numeral) = signed(text);
    if negative {
        is_below_in_range(&numeral)
    } else {
        is_from_in_range(&numeral)
    }
}

/// The number that bytes write which are at most 18 digits, and nothing else.
fn few_digits(bytes: &[u8]) -> Option<u64>
    ensures digits { IfSome result (λ _. IsNumeral 10 bytes.now) }
    ensures value { IfSome result (λ number. (number ≡ digits_value 10 bytes.now) × (number < 10 ^ 18)) }
{
    if bytes.is_empty() || MOST_DIGITS < bytes.len() {
        return None;
    }
    let mut number = 0;
    for byte in bytes {
        if *byte < b'0' || b'9' < *byte {
            return None;
        }
        number = number * 10 + u64::from(*byte) - u64::from(b'0');
    }
    Some(number)
}

/// Whether a number has a minus, and what stands behind it.
fn signed(text: &str) -> (bool, Numeral<'_>)
    ensures { number_of text.now ≡ number_from result.0 result.1 }
{
    let bytes = text.as_bytes();
    if has_minus(bytes) {
        (true, Numeral::scan(&bytes[1..]))
    } else {
        (false, Numeral::scan(bytes))
    }
}

fn has_minus(bytes: &[u8]) -> bool
    ensures value { result ≡ (slice_index bytes.now 0 == 45) }
    ensures some { IsTrue result → 0 < length bytes.now }
{
    !bytes.is_empty() && bytes[0] == b'-'
}

/// A whole number without a minus.
fn whole_from(numeral: &Numeral<'_>) -> Option<i64>
    ensures { result ≡ option_and_then as_i64 (number_from false numeral.now) }
{
    let number = numeral.to_u64()?;
    if number <= i64::MAX as u64 {
        Some(number as i64)
    } else {
        None
    }
}

/// A whole number with a minus, which is below 0.
fn whole_below(numeral: &Numeral<'_>) -> Option<i64>
    ensures { result ≡ option_and_then as_i64 (number_from true numeral.now) }
{
    let number = numeral.to_i64(true)?;
    if number < 0 { Some(number) } else { None }
}

fn is_from_in_range(numeral: &Numeral<'_>) -> bool
    ensures { result ≡ is_some (number_from false numeral.now) }
{
    numeral.to_u64().is_some() || numeral.to_float::<f64>(false).is_finite()
}

fn is_below_in_range(numeral: &Numeral<'_>) -> bool
    ensures { result ≡ is_some (number_from true numeral.now) }
{
    whole_below(numeral).is_some() || numeral.to_float::<f64>(true).is_finite()
}
