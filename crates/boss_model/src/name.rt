ghost use Rattle.std.specs.Prelude.{◌≡◌, ◌≤◌, length, take, IfSome, IfNone, true, false};
ghost use Rattle.std.specs.List.{list_all};
ghost use Rattle.boss_model.specs.Limits.{longest_name};
ghost use Rattle.boss_model.specs.Names.{is_name, is_name_byte};

use crate::LONGEST_NAME;
use std::fmt::{self, Write};
use std::marker::Model;

/// The name of a point, a driver or a process: 1 to 64 of the characters `a-z 0-9 . _ -`.
/// A contract sees it as the list of its bytes.
#[derive(Debug, Drop)]
pub struct Name {
    // A whole word, so that names are moved word by word, also as parts of commands and answers.
    length: usize,
    bytes: [u8; LONGEST_NAME],
}

impl Model for Name {
    ghost use Rattle.std.specs.Prelude.{◌≡◌, ◌≤◌, ℕ, List, take, true};
    ghost use Rattle.boss_model.specs.Limits.{longest_name};
    ghost use Rattle.boss_model.specs.Names.{is_name};

    ghost Value = { List ℕ };

    ghost view = { λ n. take n.length n.bytes };

    ghost invariant = { λ n. (n.length ≤ longest_name) × (is_name (take n.length n.bytes) ≡ true) };
}

impl Name {
    /// The name that these bytes spell, or none where they are no name.
    pub fn new(bytes: &[u8]) -> Option<Name>
        ensures named { IfSome result (λ name. (name ≡ bytes.now) × (is_name bytes.now ≡ true)) }
        ensures none { IfNone result (is_name bytes.now ≡ false) }
    {
        if !spells_name(bytes) {
            return None;
        }
        Some(Name {
            length: bytes.len(),
            bytes: padded(bytes),
        })
    }

    /// The name's bytes.
    pub fn bytes(&self) -> &[u8]
        ensures value { result.now ≡ self.now }
        ensures form { is_name self.now ≡ true }
    {
        &self.bytes[..self.length]
    }

    /// The same name once more. No memory is taken.
    pub fn copied(&self) -> Name
        ensures { result ≡ self.now }
    {
        Name {
            length: self.length,
            bytes: self.bytes,
        }
    }
}

impl fmt::Display for Name {
    fn fmt<W: Write>(&self, f: &mut fmt::Formatter<W>) -> fmt::Result {
        for byte in self.bytes() {
            f.write_char(*byte as char)?;
        }
        Ok(())
    }
}

/// Whether these bytes are a name.
fn spells_name(bytes: &[u8]) -> bool
    ensures { result ≡ is_name bytes.now }
{
    match bytes.len() {
        1..=LONGEST_NAME => all_may_stand_in_name(bytes),
        _ => false,
    }
}

/// Whether a name may have each of these bytes.
fn all_may_stand_in_name(bytes: &[u8]) -> bool
    ensures { result ≡ list_all is_name_byte bytes.now }
{
    bytes.iter().all(|byte| may_stand_in_name(*byte))
}

/// Whether a name may have this byte.
fn may_stand_in_name(byte: u8) -> bool
    ensures { result ≡ is_name_byte byte }
{
    matches!(byte, b'a'..=b'z' | b'0'..=b'9' | b'.' | b'_' | b'-')
}

/// The bytes, and zeros behind them.
fn padded(bytes: &[u8]) -> [u8; LONGEST_NAME]
    requires { length bytes.now ≤ longest_name }
    ensures { take (length bytes.now) result ≡ bytes.now }
{
    let mut kept = [0; LONGEST_NAME];
    kept[..bytes.len()].copy_from_slice(bytes);
    kept
}
