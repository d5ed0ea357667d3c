ghost use Rattle.std.specs.Prelude.{◌≡◌, ◌++◌, codes, IfOk};
ghost use Rattle.boss_journal_lines.specs.Reports.{summary_line};
ghost use Rattle.boss_standby_jobs.specs.Lines.{bad_line, gap_line, short_line};

use boss_journal_lines::summary_line;
use boss_model::NoMemory;
use std::alloc::Global;

/// The line that tells what a feed led to: how many events, the moment of the last change in milliseconds, how many leases are live
/// and how many reversions are under way.
pub fn followed_line(
    alloc: Global,
    events: u64,
    now: u64,
    leases: u64,
    pending: u64,
) -> Result<Vec<u8>, NoMemory>
    ensures { IfOk result (λ line. line.items ≡ codes "standby " ++ summary_line events now leases pending) }
{
    let summary = summary_line(alloc, events, now, leases, pending)?;
    let mut line = Vec::from_slice(alloc, b"standby ")?;
    line.extend_from_slice(&summary)?;
    Ok(line)
}

/// The line that tells of events that are missing: the number of the last one that is known, and that of the one that came.
pub fn gap_line(alloc: Global, have: u64, found: u64) -> Result<Vec<u8>, NoMemory>
    ensures { IfOk result (λ line. line.items ≡ gap_line have found) }
{
    let mut line = Vec::from_slice(alloc, b"standby gap ")?;
    line.extend_from_slice(itoa::Buffer::new().format(have).as_bytes())?;
    line.extend_from_slice(b" ")?;
    line.extend_from_slice(itoa::Buffer::new().format(found).as_bytes())?;
    line.extend_from_slice(b"\n")?;
    Ok(line)
}

/// The line that tells which line of a feed is at fault, from 1 on.
pub fn bad_line(alloc: Global, number: u64) -> Result<Vec<u8>, NoMemory>
    ensures { IfOk result (λ line. line.items ≡ bad_line number) }
{
    let mut line = Vec::from_slice(alloc, b"standby bad-line ")?;
    line.extend_from_slice(itoa::Buffer::new().format(number).as_bytes())?;
    line.extend_from_slice(b"\n")?;
    Ok(line)
}

/// The line that tells of a feed that ends within a state.
pub fn short_line() -> &'static [u8]
    ensures { result.now ≡ short_line }
{
    b"standby short\n"
}
