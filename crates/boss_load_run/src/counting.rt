//! What is counted of a script that was run.

ghost use Rattle.std.specs.Prelude.{◌≡◌, ◌<◌, length};
ghost use Rattle.std.specs.Prelude.{map};
ghost use Rattle.boss_model.specs.Seen.{seen, seen_process};
ghost use Rattle.boss_load_run.specs.Load.{notices_sent, summary_of};
ghost use Rattle.boss_load_run.specs.Lines.{lines_with};

use crate::Summary;
use boss_load::value_of;
use boss_model::{Kept, KeptProcess};

/// The summary of a load of so many transactions that told this text, and of which this lasts.
pub fn summary_of(count: u32, seed: u32, text: &[u8], kept: &Kept) -> Summary
    ensures { result ≡ summary_of count seed text.now (seen kept.entry.now) }
{
    Summary {
        accepted: lines_with(text, b"{\"ok\":\"accepted\""),
        renewed: lines_with(text, b"{\"ok\":\"renewed\""),
        refused: lines_with(text, b"{\"error\""),
        notices: notices_sent(kept.processes.slice()),
        writes: lines_with(text, b"write "),
        now: kept.now,
        last: value_of(seed, count.saturating_sub(1)),
    }
}

/// How many lines of a text begin so.
fn lines_with(text: &[u8], beginning: &[u8]) -> u64
    requires { 0 < length beginning.now }
    ensures { result ≡ lines_with beginning.now text.now }
{
    text.split(|byte| *byte == b'\n')
        .filter(|line| line.starts_with(beginning))
        .count() as u64
}

/// How many notices these processes were sent, up to 2^64 - 1.
fn notices_sent(processes: &[KeptProcess]) -> u64
    ensures { result ≡ notices_sent (map seen_process processes.now) }
{
    let mut notices: u64 = 0;
    for process in processes {
        notices = notices.saturating_add(process.count);
    }
    notices
}
