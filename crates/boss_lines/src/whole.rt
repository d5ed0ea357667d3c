ghost use Rattle.std.specs.Prelude.{◌≡◌, ◌≤◌, length, All, IfOk};
ghost use Rattle.boss_model.specs.Limits.{longest_line};
ghost use Rattle.boss_lines.specs.Given.{GivesLines};
ghost use Rattle.boss_lines.specs.Lines.{NextCause};

use crate::{Lines, Next};
use boss_model::{Items, NoMemory};
use boss_outside::Source;
use std::alloc::Global;

/// The lines that were read of a source, and what came behind them.
#[derive(Debug, Drop)]
pub struct LinesRead {
    pub lines: Items<Items<u8>>,
    pub end: Next,
}

/// Reads lines until one call of `Lines::next` comes to none, and gives at most `limit` of them: one more is not given, and
/// the end is `Next::Line` then. Where memory is wanting, what was read is lost.
pub fn read_lines<S: Source>(
    alloc: Global,
    source: &mut S,
    limit: u64,
) -> Result<LinesRead, NoMemory>
    // Of a source that tells its bytes.
    ensures all { S.tells → IfOk result (λ read. GivesLines limit (S.left source.old) (S.left source.new) read.lines read.end) }

    // Of every source.
    ensures short { IfOk result (λ read. All (λ line. length line ≤ longest_line) read.lines) }
    ensures limit { IfOk result (λ read. length read.lines ≤ limit) }
    ensures full { IfOk result (λ read. read.end ≡ Next.Line → length read.lines ≡ limit) }
    ensures cause { IfOk result (λ read. NextCause (S.faults source.old) (S.faults source.new) read.end) }
{
    let mut reader = Lines::new(alloc)?;
    let mut lines = Items::new(alloc);
    for _ in 0..limit {
        match reader.next(source) {
            Next::Line => lines.try_push(Items::from_vec(reader.line().to_vec(alloc)?))?,
            end => return Ok(LinesRead { lines, end }),
        }
    }
    let end = reader.next(source);
    Ok(LinesRead { lines, end })
}
