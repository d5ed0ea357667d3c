ghost use Rattle.std.specs.Prelude.{◌≡◌, ℕ, ◌<◌, true, [], length};
ghost use Rattle.boss_outside.specs.Notes.{noted_in, Notes};
ghost use Rattle.boss_outside.specs.Stores.{bytes_left};

use crate::{BytesSink, BytesSource, Got, Hears, ReadAt, Source};
use std::alloc::Global;

/// A source in memory that notes at which point of all that went over its connection each read was made.
#[derive(Debug, Drop)]
pub struct HeardSource {
    source: BytesSource,
    reads: Vec<ReadAt>,
    whole: bool,
    told: usize,
}

impl HeardSource {
    /// This source, before the first read that is noted.
    pub fn new(alloc: Global, source: BytesSource) -> HeardSource
        ensures source { result.source ≡ source }
        ensures reads { result.reads.items ≡ [] }
        ensures whole { result.whole ≡ true }
        ensures told { result.told ≡ 0 }
    {
        HeardSource {
            source,
            reads: Vec::new(alloc),
            whole: true,
            told: 0,
        }
    }

    /// The reads so far, in order, but for those that there was no memory to note.
    pub fn reads(&self) -> &[ReadAt]
        ensures { result.now ≡ self.now.reads.items }
    {
        self.reads.as_slice()
    }

    /// Whether no read is missing among them.
    pub fn is_whole(&self) -> bool
        ensures { result ≡ self.now.whole }
    {
        self.whole
    }

    /// Notes a read that is made now.
    fn note(&mut self)
        ensures noted { Notes (noted_in self.old.whole self.old.reads.items) (noted_in self.new.whole self.new.reads.items)
            (record { left = length (bytes_left self.old.source); told = self.old.told }) }
        ensures source { self.new.source ≡ self.old.source }
        ensures told { self.new.told ≡ self.old.told }
    {
        let at = ReadAt {
            left: self.source.left().len(),
            told: self.told,
        };
        if self.reads.push(at).is_err() {
            self.whole = false;
        }
    }
}

impl Source for HeardSource {
    ghost use Rattle.std.specs.Prelude.{take};
    ghost use Rattle.std.proofs.Common.{sym};
    ghost use Rattle.std.proofs.lemmas.List.{take-append-drop};

    ghost tells = { Unit {0} };

    ghost left = { λ heard. bytes_left heard.source };

    ghost held = { λ heard. heard.source.held };

    ghost faults = { λ heard. heard.source.plan.faults };

    ghost reads = { λ heard. noted_in heard.whole heard.reads.items };

    ghost told = { λ heard. heard.told };

    fn read(&mut self, into: &mut [u8]) -> Got {
        self.note();
        self.source.read(into)
    }

    ghost suffix = { λ heard _. (take heard.source.given heard.source.held, sym (take-append-drop heard.source.given heard.source.held)) };
}

impl Hears<BytesSink> for HeardSource {
    fn show(&mut self, sink: &BytesSink) {
        self.told = sink.taken().len();
    }
}
