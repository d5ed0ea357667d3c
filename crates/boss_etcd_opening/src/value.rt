ghost use Rattle.std.specs.Prelude.{◌≡◌, ◌<◌, length, decimal, bytes_eq, IfSome};
ghost use Rattle.boss_etcd_opening.specs.Values.{Tells};

use std::str;

/// How the value of a head begins.
const FRONT: &[u8] = b"bossd1 ";

/// How many bytes there are by the value of a head: its last word, in decimal.
#[tactic(auto, using(crate::proofs::Values::tells))]
pub fn length_of(value: &[u8]) -> Option<u64>
    ensures { IfSome result (Tells value.now) }
{
    if !value.starts_with(FRONT) {
        return None;
    }
    let place = last_space(value)?;
    let length = number_of(&value[place + 1..])?;
    if !is_number(length, &value[place + 1..]) {
        return None;
    }
    Some(length)
}

/// The place of the last space.
fn last_space(value: &[u8]) -> Option<usize>
    ensures { IfSome result (λ place. place < length value.now) }
{
    value.iter().rposition(|byte| *byte == b' ')
}

/// A number that these bytes may be.
fn number_of(bytes: &[u8]) -> Option<u64> {
    str::from_utf8(bytes).ok()?.parse::<u64>().ok()
}

/// Whether this number is written by these bytes, with no zero or sign in front.
fn is_number(number: u64, bytes: &[u8]) -> bool
    ensures { result ≡ bytes_eq (decimal number) bytes.now }
{
    itoa::Buffer::new().format(number).as_bytes() == bytes
}
