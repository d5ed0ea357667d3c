//! A sink that counts its writes.

use boss_outside::{BytesSink, Failed, Sink};

/// A sink in memory, and how many writes were made to it.
#[derive(Drop)]
pub struct CountingSink {
    sink: BytesSink,
    writes: u64,
}

impl CountingSink {
    /// A sink before its first write.
    pub fn new(sink: BytesSink) -> Self {
        CountingSink { sink, writes: 0 }
    }

    /// All bytes that it took, in order.
    pub fn taken(&self) -> &[u8] {
        self.sink.taken()
    }

    /// How many writes were made, those that failed among them.
    pub fn writes(&self) -> u64 {
        self.writes
    }
}

impl Sink for CountingSink {
    ghost tells = { Unit {0} };

    ghost taken = { λ sink. sink.sink.taken };

    ghost faults = { λ sink. sink.sink.plan.faults };

    fn write(&mut self, bytes: &[u8]) -> Result<(), Failed> {
        self.writes = self.writes.saturating_add(1);
        self.sink.write(bytes)
    }
}
