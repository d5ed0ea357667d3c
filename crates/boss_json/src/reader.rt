ghost use Rattle.std.specs.Prelude.{◌≡◌, Some, IfSome};
ghost use Rattle.def_wire.specs.Requests.{value_in};
ghost use Rattle.boss_json.specs.Read.{Reads};
ghost use Rattle.boss_json.specs.Trees.{tree_data, view};

use crate::Unread;
use crate::compact::compact_value;
use crate::range::all_in_range;
use crate::tree::Tree;
use bumpalo::Bump;
use json::{Error, Reader, Scratch, Value};
use simdutf8::basic::from_utf8;
use std::alloc::Global;
use std::fmt;

/// How deep arrays and objects may nest.
const MOST_LEVELS: usize = 127;

/// The lists of most lines take no more bytes than this. Where fewer are left, the room is emptied before the next line.
const LINE_ROOM: usize = 4_096;

/// The room takes no more bytes than this, whatever a line has: one that wants more is read in the general way, whose memory goes
/// back behind each line.
const MOST_ROOM: usize = 65_536;

/// Reads lines as values over their own bytes, and keeps the room that this takes from line to line.
#[derive(Drop)]
pub struct ValueReader {
    scratch: Scratch,
    /// Room for the lists of trees, which is emptied every few lines.
    room: Bump,
}

impl ValueReader {
    /// A reader before its first line, which takes no memory.
    pub fn new(alloc: Global) -> ValueReader {
        ValueReader {
            scratch: Scratch::new(alloc),
            room: Bump::new(alloc),
        }
    }

    /// The value that a line writes, where it is spelled compactly, as most are. None says nothing of the line: then it is to be
    /// read by `read`. What was read before does not matter.
    pub fn read_compact<'a>(&'a mut self, alloc: Global, line: &'a [u8]) -> Option<Tree<'a>>
        ensures { IfSome result (λ tree. value_in line.now ≡ Some (tree_data tree)) }
    {
        if self.room.chunk_capacity() < LINE_ROOM {
            make_room(alloc, &mut self.room)?;
        }
        compact_value(&self.room, line)
    }

    /// The value that a line writes, however it is spelled. What was read before does not matter.
    ///
    /// # Errors
    ///
    /// `Malformed` where it writes none, and `NoMemory`.
    pub fn read<'a>(&'a mut self, alloc: Global, line: &'a [u8]) -> Result<Value<'a>, Unread>
        ensures { Reads view line.now result }
    {
        match from_utf8(line) {
            Ok(text) => value_of(alloc, text, &mut self.scratch),
            Err(_) => Err(Unread::Malformed),
        }
    }
}

/// Empties the room, and makes it larger where it is too small for most lines. None where no memory was to be had.
#[inline(never)]
fn make_room(alloc: Global, room: &mut Bump) -> Option<()> {
    room.reset().ok()?;
    if room.chunk_capacity() < LINE_ROOM {
        *room = Bump::try_with_capacity(alloc, 4 * LINE_ROOM).ok()?;
        room.set_allocation_limit(Some(MOST_ROOM));
    }
    Some(())
}

impl fmt::Debug for ValueReader {
    fn fmt<W: fmt::Write>(&self, f: &mut fmt::Formatter<W>) -> fmt::Result {
        f.write_str("ValueReader")
    }
}

/// The value that a text is.
fn value_of<'a>(alloc: Global, text: &'a str, scratch: &'a mut Scratch) -> Result<Value<'a>, Unread>
    ensures { Reads view text.now result }
{
    let Ok(mut reader) = Reader::new(text, scratch) else {
        return Err(Unread::NoMemory);
    };
    let value = match Value::read(alloc, &mut reader, MOST_LEVELS) {
        Ok(value) => value,
        Err(Error::OutOfMemory) => return Err(Unread::NoMemory),
        Err(_) => return Err(Unread::Malformed),
    };
    if reader.next().is_some() {
        return Err(Unread::Malformed);
    }
    if !all_in_range(&value) {
        return Err(Unread::Malformed);
    }
    Ok(value)
}
