ghost use Rattle.std.specs.Prelude.{◌≡◌, ℕ, ◌+◌, ◌≤◌, ◌<◌, List, [], ◌∷◌, ◌++◌, length, take, IfOk};
ghost use Rattle.boss_model.specs.Held.{Held};

use crate::NoMemory;
use std::alloc::Global;
use std::marker::Model;

/// Bytes that are gathered in a room of fixed size, which is taken once.
#[derive(Debug, Drop)]
pub struct Buffer {
    room: Vec<u8>,
    length: usize,
}

impl Model for Buffer {
    ghost use Rattle.std.specs.Prelude.{◌≤◌, take, vec_len};
    ghost use Rattle.boss_model.specs.Held.{Held};

    ghost Value = { Held };

    ghost view = { λ b. record { bytes = take b.length b.room.items; capacity = vec_len b.room } };

    ghost invariant = { λ b. b.length ≤ vec_len b.room };
}

impl Buffer {
    /// An empty buffer with room for this many bytes.
    pub fn new(alloc: Global, capacity: u32) -> Result<Buffer, NoMemory>
        ensures { IfOk result (λ buffer. buffer ≡ record { bytes = []; capacity = capacity }) }
    {
        let room = Vec::from_elem(alloc, 0, capacity as usize)?;
        Ok(Buffer { room, length: 0 })
    }

    /// One byte more, at the end.
    pub fn push(&mut self, byte: u8)
        requires { length self.old.bytes < self.old.capacity }
        ensures { self.new ≡ record self.old { bytes = self.old.bytes ++ byte ∷ [] } }
    {
        self.room[self.length] = byte;
        self.length += 1;
    }

    /// These bytes more, at the end.
    pub fn extend(&mut self, bytes: &[u8])
        requires { length self.old.bytes + length bytes.now ≤ self.old.capacity }
        ensures { self.new ≡ record self.old { bytes = self.old.bytes ++ bytes.now } }
    {
        let end = self.length + bytes.len();
        self.room[self.length..end].copy_from_slice(bytes);
        self.length = end;
    }

    /// Keeps the first so many bytes.
    pub fn cut(&mut self, count: u32)
        requires { count ≤ length self.old.bytes }
        ensures { self.new ≡ record self.old { bytes = take count self.old.bytes } }
    {
        self.length = count as usize;
    }

    /// Takes all bytes out. The room stays.
    pub fn clear(&mut self)
        ensures { self.new ≡ record self.old { bytes = [] } }
    {
        self.length = 0;
    }

    /// The bytes so far.
    pub fn bytes(&self) -> &[u8]
        ensures { result.now ≡ self.now.bytes }
    {
        &self.room[..self.length]
    }
}
