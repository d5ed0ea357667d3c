ghost use Rattle.std.specs.Prelude.{◌≡◌, ◌++◌, codes, decimal, IfOk};
ghost use Rattle.hex.specs.Hex.{encode_lower};
ghost use Rattle.boss_journal_lines.specs.Reports.{refusal_line, refusal_text};

use boss_model::NoMemory;
use boss_pair_find::DurableRefusal;
use std::alloc::Global;

/// The line that tells why a journal was refused, with digests in lower-case hexadecimal digits. A failure of a disk and want of
/// memory are no refusal of what it holds: their line has no reason.
pub fn refusal_line(alloc: Global, refusal: &DurableRefusal) -> Result<Vec<u8>, NoMemory>
    ensures { IfOk result (λ line. line.items ≡ refusal_line refusal.now) }
{
    let mut line = Vec::from_slice(alloc, b"journal ")?;
    line.extend_from_slice(&text_of(alloc, refusal)?)?;
    line.extend_from_slice(b"\n")?;
    Ok(line)
}

fn text_of(alloc: Global, refusal: &DurableRefusal) -> Result<Vec<u8>, NoMemory>
    ensures { IfOk result (λ text. text.items ≡ refusal_text refusal.now) }
{
    match refusal {
        DurableRefusal::NotAJournal => Ok(Vec::from_slice(alloc, b"not-a-journal")?),
        DurableRefusal::Version { found } => with_number(alloc, b"version ", u64::from(*found)),
        DurableRefusal::Catalogue { kept, found } => with_digests(alloc, kept, found),
        DurableRefusal::Damaged { place } => with_number(alloc, b"damaged ", *place),
        DurableRefusal::DiskFault | DurableRefusal::NoMemory => Ok(Vec::new(alloc)),
    }
}

fn with_digests(alloc: Global, kept: &[u8; 32], found: &[u8; 32]) -> Result<Vec<u8>, NoMemory>
    ensures { IfOk result (λ text. text.items ≡ codes "catalogue " ++ encode_lower kept.now ++ codes " " ++ encode_lower found.now) }
{
    let mut text = Vec::from_slice(alloc, b"catalogue ")?;
    text.extend_from_slice(hex::encode(alloc, *kept)?.as_bytes())?;
    text.extend_from_slice(b" ")?;
    text.extend_from_slice(hex::encode(alloc, *found)?.as_bytes())?;
    Ok(text)
}

fn with_number(alloc: Global, word: &[u8], number: u64) -> Result<Vec<u8>, NoMemory>
    ensures { IfOk result (λ text. text.items ≡ word.now ++ decimal number) }
{
    let mut text = Vec::from_slice(alloc, word)?;
    text.extend_from_slice(itoa::Buffer::new().format(number).as_bytes())?;
    Ok(text)
}
