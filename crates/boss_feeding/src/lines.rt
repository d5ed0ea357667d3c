ghost use Rattle.std.specs.Prelude.{◌≡◌, IfOk};
ghost use Rattle.boss_feeding.specs.Lines.{line_text};
ghost use Rattle.def_feed.specs.Items.{EventLine, PartLine, StateLine};

use boss_model::NoMemory;
use std::alloc::Global;

/// The line that tells after how many events a state is, and how many bytes it has.
pub fn state_line(alloc: Global, number: u64, size: u64) -> Result<Vec<u8>, NoMemory>
    ensures { IfOk result (λ line. line.items ≡ line_text (StateLine number size)) }
{
    let mut line = Vec::from_slice(alloc, b"state ")?;
    line.extend_from_slice(itoa::Buffer::new().format(number).as_bytes())?;
    line.extend_from_slice(b" ")?;
    line.extend_from_slice(itoa::Buffer::new().format(size).as_bytes())?;
    line.extend_from_slice(b"\n")?;
    Ok(line)
}

/// The line that tells a part of the bytes of a state.
pub fn part_line(alloc: Global, bytes: &[u8]) -> Result<Vec<u8>, NoMemory>
    ensures { IfOk result (λ line. line.items ≡ line_text (PartLine bytes.now)) }
{
    let mut line = Vec::from_slice(alloc, b"part ")?;
    line.extend_from_slice(hex::encode(alloc, bytes)?.as_bytes())?;
    line.extend_from_slice(b"\n")?;
    Ok(line)
}

/// The line that tells the number of an event, and its bytes.
pub fn event_line(alloc: Global, number: u64, bytes: &[u8]) -> Result<Vec<u8>, NoMemory>
    ensures { IfOk result (λ line. line.items ≡ line_text (EventLine number bytes.now)) }
{
    let mut line = Vec::from_slice(alloc, b"event ")?;
    line.extend_from_slice(itoa::Buffer::new().format(number).as_bytes())?;
    line.extend_from_slice(b" ")?;
    line.extend_from_slice(hex::encode(alloc, bytes)?.as_bytes())?;
    line.extend_from_slice(b"\n")?;
    Ok(line)
}
