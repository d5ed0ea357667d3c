//! What is said of access rules that were refused.

ghost use Rattle.std.specs.Prelude.{◌≡◌, ◌++◌, decimal, IfOk};
ghost use Rattle.boss_access.specs.Lines.{refusal_line, refusal_text};

use crate::RulesRefusal;
use boss_model::NoMemory;
use std::alloc::Global;

/// The line that says why a file of access rules was refused.
pub fn refusal_line(alloc: Global, refusal: RulesRefusal) -> Result<Vec<u8>, NoMemory>
    ensures { IfOk result (λ line. line.items ≡ refusal_line refusal) }
{
    let mut line = Vec::from_slice(alloc, b"rules ")?;
    line.extend_from_slice(&text_of(alloc, refusal)?)?;
    line.extend_from_slice(b"\n")?;
    Ok(line)
}

fn text_of(alloc: Global, refusal: RulesRefusal) -> Result<Vec<u8>, NoMemory>
    ensures { IfOk result (λ text. text.items ≡ refusal_text refusal) }
{
    match refusal {
        RulesRefusal::TooLong { length } => with_number(alloc, b"too-long ", length),
        RulesRefusal::NotToml => Ok(Vec::from_slice(alloc, b"not-toml")?),
        RulesRefusal::Missing => Ok(Vec::from_slice(alloc, b"missing")?),
        RulesRefusal::TooMany { count } => with_number(alloc, b"too-many ", count),
        RulesRefusal::BadRule { place } => with_number(alloc, b"bad-rule ", place),
        RulesRefusal::NoMemory => Ok(Vec::new(alloc)),
    }
}

fn with_number(alloc: Global, word: &[u8], number: u64) -> Result<Vec<u8>, NoMemory>
    ensures { IfOk result (λ text. text.items ≡ word.now ++ decimal number) }
{
    let mut text = Vec::from_slice(alloc, word)?;
    text.extend_from_slice(itoa::Buffer::new().format(number).as_bytes())?;
    Ok(text)
}
