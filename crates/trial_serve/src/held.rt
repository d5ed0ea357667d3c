//! A source that holds a text back until a flag is raised, and a sink that raises it.

ghost use Rattle.std.specs.Prelude.{◌≡◌, []};

use boss_outside::{BytesSink, Failed, Got, Hears, Sink, Source};
use std::sync::atomic::{AtomicBool, Ordering};
use std::time::Duration;
use std::{thread, time};

/// How often a source looks at its flag, a millisecond apart, before it holds back for good.
const LOOKS: u32 = 10_000;

/// A text that comes at once, and one that comes when the flag is raised. Where it isn't raised in time, the second never comes. `R` is
/// what sleeps between two looks at the flag.
#[derive(Drop)]
pub struct Held<'a, R> {
    rt: R,
    ready: &'a [u8],
    later: &'a [u8],
    flag: &'a AtomicBool,
}

impl<'a, R: time::Clock> Held<'a, R> {
    pub fn new(rt: R, ready: &'a [u8], later: &'a [u8], flag: &'a AtomicBool) -> Self {
        Held {
            rt,
            ready,
            later,
            flag,
        }
    }

    /// Waits until the flag is raised, and says whether it was in time.
    fn is_let_go(&self) -> bool {
        for _ in 0..LOOKS {
            if self.flag.load(Ordering::SeqCst) {
                return true;
            }
            thread::sleep(&self.rt, Duration::from_millis(1));
        }
        false
    }

    /// What comes next; nothing at the end.
    fn next(&mut self) -> &'a [u8] {
        if self.ready.is_empty() && !self.later.is_empty() && self.is_let_go() {
            self.ready = self.later;
            self.later = &[];
        }
        self.ready
    }
}

impl<R: time::Clock> Source for Held<'_, R> {
    ghost tells = { ⊥ };

    ghost left = { λ source. [] };

    ghost held = { λ source. [] };

    ghost faults = { λ source. 0 };

    fn read(&mut self, into: &mut [u8]) -> Got {
        let next = self.next();
        if next.is_empty() {
            return Got::Finish;
        }
        let count = next.len().min(into.len());
        into[..count].copy_from_slice(&next[..count]);
        self.ready = &next[count..];
        Got::Bytes(count)
    }

    ghost suffix = { λ source tells. absurd tells };
}

/// It tells of no read, and has nothing to be shown.
impl<R: time::Clock> Hears<Raising<'_>> for Held<'_, R> {
    fn show(&mut self, _sink: &Raising<'_>) {}
}

/// A sink in memory that raises a flag when it has taken so many lines; with none it never does.
#[derive(Drop)]
pub struct Raising<'a> {
    sink: BytesSink,
    lines: Option<u64>,
    flag: &'a AtomicBool,
}

impl<'a> Raising<'a> {
    pub fn new(sink: BytesSink, lines: Option<u64>, flag: &'a AtomicBool) -> Self
        ensures { result.sink ≡ sink }
    {
        Raising { sink, lines, flag }
    }

    /// All bytes that it took, in order.
    pub fn taken(&self) -> &[u8] {
        self.sink.taken()
    }

    /// Raises the flag if so many lines have come.
    fn raise(&self) {
        if self.lines == Some(lines(self.taken())) {
            self.flag.store(true, Ordering::SeqCst);
        }
    }
}

/// How many lines have come whole.
fn lines(bytes: &[u8]) -> u64 {
    let mut count: u64 = 0;
    for byte in bytes {
        if *byte == b'\n' {
            count = count.saturating_add(1);
        }
    }
    count
}

impl Sink for Raising<'_> {
    ghost tells = { ⊥ };

    ghost taken = { λ sink. [] };

    ghost faults = { λ sink. sink.sink.plan.faults };

    fn write(&mut self, bytes: &[u8]) -> Result<(), Failed> {
        let written = self.sink.write(bytes);
        self.raise();
        written
    }
}
