//! Bytes of a file that are read before they are asked for, so that many small reads in a row are one call of the system.
//!
//! Nobody is given bytes that he may not see any more. Who holds the file's lock writes it alone, and forgets what was read
//! ahead before he does, so all of it stays as it was read. Another program may be writing a file that is only looked at:
//!
//! - Each byte is given once. Who asks for it again is given what the file has then, and so sees what changed.
//! - A read of anything else drops what is at hand, so no read gives bytes of an earlier moment than the read before it.
//! - Bytes behind the file's end are not at hand. Once the file has grown they are asked for anew.
//! - Where the file is found shorter than what was read of it, that is dropped, so nothing is given of what was cut off.
//! - The system fills a block from its front on. A record is written before the gate in front of it is opened, so a block
//!   that has the open gate has the record too.
//!
//! What was read ahead is never older than the look itself. So a look sees a log as it was at a moment within the look: it
//! may end earlier than the log does by now, and no look at a file that somebody writes can know better.

ghost use Rattle.std.specs.Prelude.{◌≡◌, ◌+◌, ◌≤◌, length, IfSome};

use std::alloc::Global;
use std::fs::File;
use std::io;
use std::os::unix::fs::FileExt;

/// How many bytes are read at a time.
const BLOCK: usize = 65_536;

/// The bytes of a file from a place on, as they were when they were read.
#[derive(Drop)]
pub struct Ahead {
    alloc: Global,
    room: Vec<u8>,
    /// Where the first byte of the room stands in the file.
    at: u64,
    /// How many bytes at the front of the room were given or passed over.
    given: usize,
    /// How many bytes at the front of the room are the file's.
    count: usize,
    ghost inside: { count ≤ length room.items },
}

impl Ahead {
    /// No bytes, and no room for any.
    pub fn new(alloc: Global) -> Ahead {
        Ahead {
            alloc,
            room: Vec::new(alloc),
            at: 0,
            given: 0,
            count: 0,
        }
    }

    /// Lets the bytes and their room go: the file is to be changed.
    pub fn forget(&mut self) {
        self.count = 0;
        self.room = Vec::new(self.alloc);
    }

    /// Drops the bytes where the file has no more than so many, and any of them stood behind these.
    pub fn forget_past(&mut self, size: u64) {
        if size.saturating_sub(self.at) < self.count as u64 {
            self.count = 0;
        }
    }

    /// Fills the slice with the file's bytes from this place on.
    pub fn fill(&mut self, file: &File, at: u64, into: &mut [u8]) -> io::Result<()> {
        let count = into.len();
        if self.start_of(at, count).is_none() && count < BLOCK {
            self.read_block(file, at);
        }
        let Some(start) = self.start_of(at, count) else {
            // More than a block has, or past the file's end, or a failure, for which the system tells the reason.
            self.count = 0;
            return file.read_exact_at(into, at);
        };
        into.copy_from_slice(&self.room[start..start + count]);
        self.given = start + count;
        Ok(())
    }

    /// Where so many bytes from this place on stand in the room, if all of them do and none was given.
    fn start_of(&self, at: u64, count: usize) -> Option<usize>
        ensures { IfSome result (λ start. start + count ≤ self.now.count) }
    {
        if at < self.at {
            return None;
        }
        let start = at - self.at;
        if start < self.given as u64 || start > self.count as u64 {
            return None;
        }
        let start = start as usize;
        if self.count - start < count {
            return None;
        }
        Some(start)
    }

    /// Reads a block from this place on. Where that fails, or there is no memory, nothing is at hand.
    fn read_block(&mut self, file: &File, at: u64) {
        self.count = 0;
        if self.room.is_empty() {
            let Ok(room) = Vec::from_elem(self.alloc, 0, BLOCK) else {
                return;
            };
            self.room = room;
        }
        if let Ok(count) = file.read_at(&mut self.room, at) {
            self.at = at;
            self.given = 0;
            self.count = count;
        }
    }
}
