ghost use Rattle.std.specs.Prelude.{◌≡◌, ◌++◌, decimal, IfOk, OnOk};
ghost use Rattle.boss_load_run.specs.Lines.{summary_line};

use boss_model::NoMemory;
use std::alloc::Global;

/// What is told of a load that was run. Numbers are told up to 2^64 - 1.
#[derive(Clone, Copy, Debug, PartialEq, Eq)]
pub struct Summary {
    /// How many submits were accepted.
    pub accepted: u64,
    /// How many renewals were accepted.
    pub renewed: u64,
    /// How many lines were refused.
    pub refused: u64,
    /// How many notices all processes were sent.
    pub notices: u64,
    /// How many writes to devices were made.
    pub writes: u64,
    /// The moment of the last change, in milliseconds.
    pub now: u64,
    /// What the last transaction writes, in thousandths.
    pub last: u64,
}

/// The line that tells a summary.
pub(crate) fn summary_line(alloc: Global, summary: &Summary) -> Result<Vec<u8>, NoMemory>
    ensures { IfOk result (λ line. line.items ≡ summary_line summary.entry.now) }
{
    let mut line = Vec::new(alloc);
    put_number(&mut line, b"load accepted ", summary.accepted)?;
    put_number(&mut line, b" renewed ", summary.renewed)?;
    put_number(&mut line, b" refused ", summary.refused)?;
    put_number(&mut line, b" notices ", summary.notices)?;
    put_number(&mut line, b" writes ", summary.writes)?;
    put_number(&mut line, b" now ", summary.now)?;
    put_number(&mut line, b" last ", summary.last)?;
    line.push(b'\n')?;
    Ok(line)
}

/// Puts a word and a number behind a line.
fn put_number(line: &mut Vec<u8>, word: &[u8], number: u64) -> Result<(), NoMemory>
    ensures { OnOk result (line.new.items ≡ line.old.items ++ (word.now ++ decimal number)) }
{
    line.extend_from_slice(word)?;
    line.extend_from_slice(itoa::Buffer::new().format(number).as_bytes())?;
    Ok(())
}
