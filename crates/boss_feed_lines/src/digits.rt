ghost use Rattle.std.specs.Prelude.{◌≡◌, ◌↔◌, ◌≤◌, ◌*◌, ◌/◌, [], length, take, IfOk, IsTrue};
ghost use Rattle.def_bytes.specs.Exact.{IsBytes};
ghost use Rattle.hex.specs.Hex.{encode_lower};
ghost use Rattle.boss_model.specs.Limits.{longest_line};
ghost use Rattle.boss_feed_lines.specs.Told.{TellsBytes};

use boss_model::{LONGEST_LINE, NoMemory};
use std::alloc::Global;
use std::marker::Model;

/// The bytes that a line tells, in a room that is taken once.
#[derive(Debug, Drop)]
pub struct Digits {
    bytes: Vec<u8>,
    /// How many of these there are.
    count: usize,
    /// Room for the digits of as many.
    digits: Vec<u8>,
}

impl Model for Digits {
    ghost use Rattle.std.specs.Prelude.{◌≡◌, ◌≤◌, ℕ, List, length, take};
    ghost use Rattle.boss_feed_lines.specs.declared.digits.TheConstants.{MOST_BYTES, MOST_DIGITS};

    ghost Value = { List ℕ };

    ghost view = { λ d. take d.count d.bytes.items };

    ghost invariant = { λ d. (d.count ≤ length d.bytes.items) × (length d.bytes.items ≡ MOST_BYTES) × (length d.digits.items ≡ MOST_DIGITS) };
}

/// How many digits a line can have, and how many bytes these are.
const MOST_DIGITS: usize = LONGEST_LINE + 1;

const MOST_BYTES: usize = MOST_DIGITS / 2;

impl Digits {
    /// No bytes yet.
    pub fn new(alloc: Global) -> Result<Digits, NoMemory>
        ensures { IfOk result (λ digits. digits ≡ []) }
    {
        Ok(Digits {
            bytes: vec![in alloc; 0; MOST_BYTES]?,
            count: 0,
            digits: vec![in alloc; 0; MOST_DIGITS]?,
        })
    }

    /// The bytes that were told last.
    pub fn bytes(&self) -> &[u8]
        ensures { result.now ≡ self.now }
    {
        &self.bytes[..self.count]
    }

    /// Takes the bytes that a text tells in base 16, two digits in lower case a byte. False exactly where it tells none: one at
    /// least has to be there.
    pub fn take(&mut self, text: &[u8]) -> bool
        requires { length text.now ≤ longest_line }
        ensures { TellsBytes text.now self.new result }
    {
        self.count = text.len() / 2;
        tell(text, self.bytes.as_mut_slice(), self.digits.as_mut_slice())
    }
}

/// The same, with the bytes at the front of a room, and their digits at the front of another.
fn tell(text: &[u8], bytes: &mut [u8], digits: &mut [u8]) -> bool
    requires bytes { length text.now / 2 ≤ length bytes.old }
    requires digits { 2 * (length text.now / 2) ≤ length digits.old }
    ensures { TellsBytes text.now (take (length text.now / 2) bytes.new) result }
{
    let count = text.len() / 2;
    if count == 0 {
        return false;
    }
    decode(text, &mut bytes[..count], &mut digits[..2 * count])
}

/// The same, with rooms that are filled. The digits of the bytes are compared with the text: so none is a capital.
fn decode(text: &[u8], bytes: &mut [u8], digits: &mut [u8]) -> bool
    requires some { 1 ≤ length bytes.old }
    requires half { length bytes.old ≡ length text.now / 2 }
    requires room { length digits.old ≡ 2 * length bytes.old }
    ensures { TellsBytes text.now bytes.new result }
{
    match hex::decode_to_slice(text, bytes) {
        Ok(()) => is_written(text, bytes, digits),
        Err(_) => false,
    }
}

/// Whether a text is that of these bytes, in lower case. The room takes their digits.
fn is_written(text: &[u8], bytes: &[u8], digits: &mut [u8]) -> bool
    requires { length digits.old ≡ 2 * length bytes.now }
    ensures is { IsTrue result ↔ (encode_lower bytes.now ≡ text.now) }
    ensures bytes { IsBytes bytes.now }
{
    match hex::encode_to_slice(bytes, digits) {
        Ok(()) => *digits == *text,
        Err(_) => unreachable!(),
    }
}
