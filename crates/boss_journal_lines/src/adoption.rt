ghost use Rattle.std.specs.Prelude.{◌≡◌, [], ◌∷◌, ◌++◌, IfOk};
ghost use Rattle.boss_journal_lines.specs.Adoption.{adopted_line, in_use_line, unfit_line};

use crate::summary::{put, put_bytes};
use boss_model::{Name, NoMemory};
use std::alloc::Global;

/// How many bytes the line of an adoption has at most: its words, its end, and four numbers of 20 digits.
const LONGEST_ADOPTED: usize = 120;

/// The line that tells of a changed catalogue that was adopted: how many events the journal came by, how many points the new catalogue
/// has, how many of the old one's it has no more, and how many of its own the old one had not.
pub fn adopted_line(
    alloc: Global,
    events: u64,
    points: u32,
    removed: u32,
    added: u32,
) -> Result<Vec<u8>, NoMemory>
    ensures { IfOk result (λ line. line.items ≡ adopted_line events points removed added) }
{
    let mut line = Vec::new(alloc);
    line.reserve(LONGEST_ADOPTED)?;
    put(&mut line, b"adopted events ", events);
    put(&mut line, b" points ", u64::from(points));
    put(&mut line, b" removed ", u64::from(removed));
    put(&mut line, b" added ", u64::from(added));
    put_bytes(&mut line, b"\n");
    Ok(line)
}

/// The line that tells of a removed point that a transaction which is not done wrote.
pub fn in_use_line(alloc: Global, name: &Name) -> Result<Vec<u8>, NoMemory>
    ensures { IfOk result (λ line. line.items ≡ in_use_line name.now) }
{
    with_name(alloc, b"adopt in-use ", name)
}

/// The line that tells of a point which holds a value that it takes no more.
pub fn unfit_line(alloc: Global, name: &Name) -> Result<Vec<u8>, NoMemory>
    ensures { IfOk result (λ line. line.items ≡ unfit_line name.now) }
{
    with_name(alloc, b"adopt unfit ", name)
}

fn with_name(alloc: Global, words: &[u8], name: &Name) -> Result<Vec<u8>, NoMemory>
    ensures { IfOk result (λ line. line.items ≡ words.now ++ name.now ++ 10 ∷ []) }
{
    let mut line = Vec::from_slice(alloc, words)?;
    line.extend_from_slice(name.bytes())?;
    line.extend_from_slice(b"\n")?;
    Ok(line)
}
