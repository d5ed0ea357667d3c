ghost use Rattle.std.specs.Prelude.{◌≡◌, ℕ, ◌+◌, ◌<◌, ◌≤◌, List, [], ◌∷◌, ◌++◌, length};

use boss_model::Buffer;

/// Where bytes are gathered, one behind the other, up to a fixed number of them.
pub trait Room {
    /// The bytes so far.
    ghost bytes: { Self → List ℕ };
    /// How many there may be.
    ghost capacity: { Self → ℕ };

    /// One byte more.
    fn put(&mut self, byte: u8)
        requires { length (bytes self.old) < capacity self.old }
        ensures bytes { bytes self.new ≡ bytes self.old ++ byte ∷ [] }
        ensures long { length (bytes self.new) ≡ length (bytes self.old) + 1 }
        ensures capacity { capacity self.new ≡ capacity self.old };

    /// These bytes more.
    fn put_all(&mut self, more: &[u8])
        requires { length (bytes self.old) + length more.now ≤ capacity self.old }
        ensures bytes { bytes self.new ≡ bytes self.old ++ more.now }
        ensures long { length (bytes self.new) ≡ length (bytes self.old) + length more.now }
        ensures capacity { capacity self.new ≡ capacity self.old };
}

impl Room for Buffer {
    ghost bytes = { λ b. b.bytes };

    ghost capacity = { λ b. b.capacity };

    fn put(&mut self, byte: u8) {
        self.push(byte);
    }

    fn put_all(&mut self, more: &[u8]) {
        self.extend(more);
    }
}
