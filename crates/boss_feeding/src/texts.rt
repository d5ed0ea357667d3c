ghost use Rattle.std.specs.Prelude.{◌≡◌, ◌+◌, ◌^◌, ◌≤◌, ◌<◌, ℕ, List, length, take, drop, IfErr};
ghost use Rattle.boss_feeding.specs.Faults.{ActiveCause, IsLate, SinkCause};
ghost use Rattle.boss_feeding.specs.Held.{HasText};
ghost use Rattle.boss_feeding.specs.Lines.{line_text, lines_text};
ghost use Rattle.boss_outside.specs.Streams.{Writes};
ghost use Rattle.def_feed.specs.Feeds.{state_items};
ghost use Rattle.def_feed.specs.Items.{PartLine};

use crate::FeedFault;
use crate::telling::{tell_part, tell_state};
use boss_disk::Disk;
use boss_outside::Sink;
use std::alloc::Global;

/// The place that is told of a kept state that is damaged.
pub const STATE_PLACE: u64 = 65;

/// How many bytes of a state a line tells at most.
const LONGEST_PART: u64 = 16_384;

/// Tells a kept state as its disk has it, by so many bytes from this place on: so many lines of a part, behind the one that tells
/// after how many events it is. The disk stays as it is, and of the state no more than a part is in memory at once.
pub fn tell_text<D: Disk, K: Sink>(
    alloc: Global,
    disk: &mut D,
    number: u64,
    place: u64,
    size: u64,
    sink: &mut K,
) -> Result<(), FeedFault>
    requires low { place + size < 2 ^ 64 }
    requires inside { D.tells → place + size ≤ length (D.reads disk.old) }
    ensures told { D.tells → K.tells → (text : List ℕ) → HasText place size text (D.reads disk.old)
        → Writes (K.taken sink.old) (K.taken sink.new) (lines_text (state_items number text)) result }
    ensures late { IfErr result IsLate }
    ensures reads { D.tells → D.reads disk.new ≡ D.reads disk.old }
    ensures windows { D.tells → D.story disk.new ≡ D.story disk.old }
    ensures cause { ActiveCause (D.faults disk.old) (D.faults disk.new) result }
    ensures sink { SinkCause (K.faults sink.old) (K.faults sink.new) result }
{
    tell_state(alloc, number, size, sink)?;
    let mut done = 0;
    while done < size {
        let count = LONGEST_PART.min(size - done);
        tell_part_at(alloc, disk, place + done, count as usize, sink)?;
        done += count;
    }
    Ok(())
}

/// Tells so many bytes of a disk from this place on.
fn tell_part_at<D: Disk, K: Sink>(
    alloc: Global,
    disk: &mut D,
    at: u64,
    count: usize,
    sink: &mut K,
) -> Result<(), FeedFault>
    requires part { count ≤ 16384 }
    requires there { D.tells → at + count ≤ length (D.reads disk.old) }
    ensures told { D.tells → K.tells → Writes (K.taken sink.old) (K.taken sink.new) (line_text (PartLine (take count (drop at (D.reads disk.old))))) result }
    ensures late { IfErr result IsLate }
    ensures reads { D.tells → D.reads disk.new ≡ D.reads disk.old }
    ensures windows { D.tells → D.story disk.new ≡ D.story disk.old }
    ensures cause { ActiveCause (D.faults disk.old) (D.faults disk.new) result }
    ensures sink { SinkCause (K.faults sink.old) (K.faults sink.new) result }
{
    let mut room = [0u8; LONGEST_PART as usize];
    let part = &mut room[..count];
    disk.read_at(at, part)?;
    tell_part(alloc, part, sink)?;
    Ok(())
}
