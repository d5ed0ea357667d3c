ghost use Rattle.boss_feeding.specs.Lines.{line_text};
ghost use Rattle.boss_feeding.specs.Telling.{TellCause};
ghost use Rattle.boss_outside.specs.Streams.{Writes};
ghost use Rattle.def_feed.specs.Items.{EventLine, PartLine, StateLine};

use crate::lines::{event_line, part_line, state_line};
use crate::untold::Untold;
use boss_outside::Sink;
use std::alloc::Global;

/// Tells after how many events a state is, and how many bytes it has.
pub fn tell_state<K: Sink>(
    alloc: Global,
    number: u64,
    size: u64,
    sink: &mut K,
) -> Result<(), Untold>
    ensures told { K.tells → Writes (K.taken sink.old) (K.taken sink.new) (line_text (StateLine number size)) result }
    ensures cause { TellCause (K.faults sink.old) (K.faults sink.new) result }
{
    let line = state_line(alloc, number, size)?;
    tell(sink, &line)
}

/// Tells a part of the bytes of a state.
pub fn tell_part<K: Sink>(alloc: Global, bytes: &[u8], sink: &mut K) -> Result<(), Untold>
    ensures told { K.tells → Writes (K.taken sink.old) (K.taken sink.new) (line_text (PartLine bytes.now)) result }
    ensures cause { TellCause (K.faults sink.old) (K.faults sink.new) result }
{
    let line = part_line(alloc, bytes)?;
    tell(sink, &line)
}

/// Tells an event of this number by its bytes.
pub fn tell_event<K: Sink>(
    alloc: Global,
    number: u64,
    bytes: &[u8],
    sink: &mut K,
) -> Result<(), Untold>
    ensures told { K.tells → Writes (K.taken sink.old) (K.taken sink.new) (line_text (EventLine number bytes.now)) result }
    ensures cause { TellCause (K.faults sink.old) (K.faults sink.new) result }
{
    let line = event_line(alloc, number, bytes)?;
    tell(sink, &line)
}

/// Tells a line.
fn tell<K: Sink>(sink: &mut K, line: &[u8]) -> Result<(), Untold>
    ensures told { K.tells → Writes (K.taken sink.old) (K.taken sink.new) line.now result }
    ensures cause { TellCause (K.faults sink.old) (K.faults sink.new) result }
{
    sink.write(line)?;
    Ok(())
}
