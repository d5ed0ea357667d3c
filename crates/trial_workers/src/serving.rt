//! A task that serves the connections of its part: it writes back what it reads.

ghost use Rattle.std.specs.Prelude.{◌≡◌, ◌<◌, length};

use boss_model::SessionId;
use boss_outside::{Got, Sink, Source};
use boss_outside_server::{Accepted, Host, Task};

/// The connections of a part, which get the numbers from `next` on.
#[derive(Drop)]
pub struct Serving<H> {
    pub host: H,
    pub next: u64,
    pub runs: u32,
    pub abandons: u32,
}

impl<H> Serving<H> {
    pub fn new(host: H, next: u64) -> Serving<H>
        ensures { result.host ≡ host }
    {
        Serving {
            host,
            next,
            runs: 0,
            abandons: 0,
        }
    }
}

/// Writes back what is read, up to the end.
fn echo<S: Source, K: Sink>(input: &mut S, output: &mut K) {
    for _ in 0..u64::MAX {
        let mut room = [0; 16];
        let Got::Bytes(count) = input.read(&mut room) else {
            return;
        };
        if output.write(&room[..count]).is_err() {
            return;
        }
    }
}

/// Serves the connections until there is no more. Each gets the number of the one before plus one.
fn serve<H: Host>(host: &mut H, first: u64)
    requires sound { H.sound host.old }
    requires back { H.away host.old ≡ 0 }
{
    for number in first..u64::MAX {
        let Accepted::Conn(mut input, mut output) = host.accept() else {
            return;
        };
        echo(&mut input, &mut output);
        host.give_back(SessionId(number), input, output);
    }
}

impl<H: Host> Task for Serving<H> {
    ghost ready = { λ task. H.sound task.host × (H.away task.host ≡ 0) };

    ghost ran = { λ old new. Unit {0} };

    ghost abandoned = { λ old new. Unit {0} };

    fn run(&mut self) {
        self.runs = self.runs.saturating_add(1);
        serve(&mut self.host, self.next);
    }

    fn abandon(&mut self) {
        self.abandons = self.abandons.saturating_add(1);
    }
}
