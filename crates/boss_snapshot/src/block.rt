ghost use Rattle.std.specs.Prelude.{◌≡◌, ℕ, ◌+◌, ◌-◌, ◌≤◌, [], ◌++◌, length};

use boss_records::Room;
use std::marker::Model;

/// How many bytes are gathered for one write.
const MOST: usize = 4096;

/// Bytes that are gathered in front of a write.
#[derive(Drop)]
pub struct Block {
    bytes: [u8; 4096],
    used: usize,
}

impl Model for Block {
    ghost use Rattle.std.specs.Prelude.{ℕ, ◌≤◌, List, take};

    ghost Value = { List ℕ };

    ghost view = { λ b. take b.used b.bytes };

    ghost invariant = { λ b. b.used ≤ 4096 };
}

impl Room for Block {
    ghost bytes = { λ b. b };

    ghost capacity = { λ b. 4096 };

    fn put(&mut self, byte: u8) {
        self.put_all(&[byte]);
    }

    fn put_all(&mut self, more: &[u8]) {
        let end = self.used + more.len();
        self.bytes[self.used..end].copy_from_slice(more);
        self.used = end;
    }
}

impl Block {
    /// A block without bytes.
    pub fn new() -> Block
        ensures { result ≡ [] }
    {
        Block {
            bytes: [0; MOST],
            used: 0,
        }
    }

    /// The bytes so far.
    pub fn bytes(&self) -> &[u8]
        ensures is { result.now ≡ self.now }
        ensures few { length result.now ≤ 4096 }
    {
        &self.bytes[..self.used]
    }

    /// How many bytes more have room.
    pub fn left(&self) -> usize
        ensures { result + length self.now ≡ 4096 }
    {
        MOST - self.used
    }

    /// Takes all bytes out.
    pub fn clear(&mut self)
        ensures { self.new ≡ [] }
    {
        self.used = 0;
    }
}
