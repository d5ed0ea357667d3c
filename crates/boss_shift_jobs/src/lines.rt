ghost use Rattle.std.specs.Prelude.{◌≡◌, ◌++◌, codes, IfOk};
ghost use Rattle.boss_journal_lines.specs.Reports.{summary_line};
ghost use Rattle.boss_shift_jobs.specs.Lines.{too_far_line};

use boss_journal_lines::summary_line;
use boss_model::NoMemory;
use std::alloc::Global;

/// The line that tells what a journal stands for once its moments were taken back: how many events, the moment of the last change in
/// milliseconds, how many leases are live and how many reversions are under way.
pub fn shifted_line(
    alloc: Global,
    events: u64,
    now: u64,
    leases: u64,
    pending: u64,
) -> Result<Vec<u8>, NoMemory>
    ensures { IfOk result (λ line. line.items ≡ codes "shifted " ++ summary_line events now leases pending) }
{
    let summary = summary_line(alloc, events, now, leases, pending)?;
    let mut line = Vec::from_slice(alloc, b"shifted ")?;
    line.extend_from_slice(&summary)?;
    Ok(line)
}

/// The line that tells by how many milliseconds a journal's moments can be taken back at most.
pub fn too_far_line(alloc: Global, most: u64) -> Result<Vec<u8>, NoMemory>
    ensures { IfOk result (λ line. line.items ≡ too_far_line most) }
{
    let mut line = Vec::from_slice(alloc, b"shift too-far ")?;
    line.extend_from_slice(itoa::Buffer::new().format(most).as_bytes())?;
    line.extend_from_slice(b"\n")?;
    Ok(line)
}
