//! What is said of keys that were refused.

ghost use Rattle.std.specs.Prelude.{◌≡◌, ◌++◌, decimal, IfOk};
ghost use Rattle.boss_keys.specs.Lines.{refusal_line, refusal_text};

use crate::KeysRefusal;
use boss_model::NoMemory;
use std::alloc::Global;

/// The line that says why a file of keys was refused.
pub fn refusal_line(alloc: Global, refusal: KeysRefusal) -> Result<Vec<u8>, NoMemory>
    ensures { IfOk result (λ line. line.items ≡ refusal_line refusal) }
{
    let mut line = Vec::from_slice(alloc, b"keys ")?;
    line.extend_from_slice(&text_of(alloc, refusal)?)?;
    line.extend_from_slice(b"\n")?;
    Ok(line)
}

fn text_of(alloc: Global, refusal: KeysRefusal) -> Result<Vec<u8>, NoMemory>
    ensures { IfOk result (λ text. text.items ≡ refusal_text refusal) }
{
    match refusal {
        KeysRefusal::TooLong { length } => with_number(alloc, b"too-long ", length),
        KeysRefusal::NotToml => Ok(Vec::from_slice(alloc, b"not-toml")?),
        KeysRefusal::Missing => Ok(Vec::from_slice(alloc, b"missing")?),
        KeysRefusal::TooMany { count } => with_number(alloc, b"too-many ", count),
        KeysRefusal::BadKey { place } => with_number(alloc, b"bad-key ", place),
        KeysRefusal::BadReserve => Ok(Vec::from_slice(alloc, b"bad-reserve")?),
        KeysRefusal::NoMemory => Ok(Vec::new(alloc)),
    }
}

fn with_number(alloc: Global, word: &[u8], number: u64) -> Result<Vec<u8>, NoMemory>
    ensures { IfOk result (λ text. text.items ≡ word.now ++ decimal number) }
{
    let mut text = Vec::from_slice(alloc, word)?;
    text.extend_from_slice(itoa::Buffer::new().format(number).as_bytes())?;
    Ok(text)
}
