//! The standard input and output, as a source and a sink.

ghost use Rattle.std.specs.Prelude.{◌≡◌, []};

use crate::read_past_signals;
use boss_outside::{Failed, Got, Hears, Sink, Source};
use std::io::Write;
use std::rt::{Stdin, Stdout};

/// The standard input.
#[derive(Drop)]
pub struct StdSource {
    stdin: Stdin,
    faults: u64,
}

impl StdSource {
    /// The standard input, of which no read has failed yet.
    pub fn new(stdin: Stdin) -> StdSource
        ensures { ⟦<StdSource as Source>⟧.faults result ≡ 0 }
    {
        StdSource { stdin, faults: 0 }
    }
}

impl Source for StdSource {
    ghost tells = { ⊥ };

    ghost left = { λ source. [] };

    ghost held = { λ source. [] };

    ghost faults = { λ source. source.faults };

    ghost suffix = { λ source told. absurd told };

    fn read(&mut self, into: &mut [u8]) -> Got {
        match read_past_signals(&mut self.stdin, into) {
            Ok(0) => Got::Finish,
            Ok(count) => Got::Bytes(count),
            Err(Failed) => {
                self.faults = self.faults.saturating_add(1);
                Got::Failed
            }
        }
    }
}

/// It tells of no read, and has nothing to be shown.
impl Hears<StdSink> for StdSource {
    fn show(&mut self, _sink: &StdSink) {}
}

/// The standard output.
#[derive(Drop)]
pub struct StdSink {
    stdout: Stdout,
    faults: u64,
}

impl StdSink {
    /// The standard output, of which no write has failed yet.
    pub fn new(stdout: Stdout) -> StdSink
        ensures { ⟦<StdSink as Sink>⟧.faults result ≡ 0 }
    {
        StdSink { stdout, faults: 0 }
    }
}

impl Sink for StdSink {
    ghost tells = { ⊥ };

    ghost taken = { λ sink. [] };

    ghost faults = { λ sink. sink.faults };

    fn write(&mut self, bytes: &[u8]) -> Result<(), Failed> {
        if self.stdout.write_all(bytes).is_ok() {
            return Ok(());
        }
        self.faults = self.faults.saturating_add(1);
        Err(Failed)
    }
}
