//! What is told of a catalogue that was refused.

ghost use Rattle.std.specs.Prelude.{◌≡◌, ◌++◌, codes, decimal, IfOk};
ghost use Rattle.boss_answers.specs.Refused.{key_text, refusal_line, refusal_text};

use boss_model::NoMemory;
use boss_points::{CatalogueRefusal, Key};
use std::alloc::Global;

/// The line that tells why a catalogue was refused.
pub fn refusal_line(alloc: Global, refusal: CatalogueRefusal) -> Result<Vec<u8>, NoMemory>
    ensures { IfOk result (λ line. line.items ≡ refusal_line refusal) }
{
    let mut line = Vec::from_slice(alloc, b"catalogue ")?;
    line.extend_from_slice(&text_of(alloc, refusal)?)?;
    line.extend_from_slice(b"\n")?;
    Ok(line)
}

fn text_of(alloc: Global, refusal: CatalogueRefusal) -> Result<Vec<u8>, NoMemory>
    ensures { IfOk result (λ text. text.items ≡ refusal_text refusal) }
{
    match refusal {
        CatalogueRefusal::TooLong { length } => with_number(alloc, b"too-long ", length),
        CatalogueRefusal::NotToml => Ok(Vec::from_slice(alloc, b"not-toml")?),
        CatalogueRefusal::Missing { key } => missing(alloc, key),
        CatalogueRefusal::TooMany { count } => with_number(alloc, b"too-many ", count),
        CatalogueRefusal::BadDriver { place } => with_number(alloc, b"bad-driver ", place),
        CatalogueRefusal::BadName { place } => with_number(alloc, b"bad-name ", place),
        CatalogueRefusal::SameName { place } => with_number(alloc, b"same-name ", place),
        CatalogueRefusal::BadKind { place } => with_number(alloc, b"bad-kind ", place),
        CatalogueRefusal::BadDefault { place } => with_number(alloc, b"bad-default ", place),
        CatalogueRefusal::UnknownDriver { place } => with_number(alloc, b"unknown-driver ", place),
        CatalogueRefusal::BadTimes { place } => with_number(alloc, b"bad-times ", place),
        CatalogueRefusal::NoMemory => Ok(Vec::new(alloc)),
    }
}

fn missing(alloc: Global, key: Key) -> Result<Vec<u8>, NoMemory>
    ensures { IfOk result (λ text. text.items ≡ codes "missing " ++ key_text key) }
{
    match key {
        Key::Drivers => Ok(Vec::from_slice(alloc, b"missing drivers")?),
        Key::Point => Ok(Vec::from_slice(alloc, b"missing point")?),
    }
}

fn with_number(alloc: Global, word: &[u8], number: u64) -> Result<Vec<u8>, NoMemory>
    ensures { IfOk result (λ text. text.items ≡ word.now ++ decimal number) }
{
    let mut text = Vec::from_slice(alloc, word)?;
    text.extend_from_slice(itoa::Buffer::new().format(number).as_bytes())?;
    Ok(text)
}
