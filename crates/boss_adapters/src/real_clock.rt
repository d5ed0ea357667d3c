ghost use Rattle.std.specs.Prelude.{◌≡◌, ◌≤◌, [], IfOk, IfSome};
ghost use Rattle.boss_model.specs.Limits.{last_moment};

use crate::aside::say_aside;
use crate::readings::{since_boot, wall};
use crate::running::{News, Running};
use boss_model::NoMemory;
use boss_outside::Failed;
use boss_outside_server::Clock;
use boss_slew::Reading;
use std::alloc::Global;
use std::io::Eprint;
use std::sync::{Arc, Mutex, Wait};
use std::time;

/// The system's clock, in milliseconds since 1970. It begins at the wall clock's moment, but no earlier than it was told to, and goes on
/// by the clock that counts from the boot, drawn towards the wall clock by a millisecond in a hundred (boss_slew). All its parts have
/// one standing: a part that is read seldom is not drawn the further for it. A wall clock that can't be read, or is set before 1970,
/// draws nothing. On the standard error it says where the wall clock is a minute or more away, and when it has come back. `R` is what
/// reads the wall clock, and waits while another part reads.
#[derive(Drop)]
pub struct RealClock<R: Wait> {
    rt: R,
    running: Arc<Mutex<Running>, Global>,
    faults: u64,
}

impl<R: time::Clock + Eprint + Wait + Copy> RealClock<R> {
    /// The system's clock, of which no reading has failed yet.
    pub fn new(alloc: Global, rt: R) -> Result<RealClock<R>, NoMemory>
        ensures { IfOk result (λ clock. ⟦<RealClock<R> as Clock>⟧.faults clock ≡ 0) }
    {
        Ok(RealClock {
            rt,
            running: Arc::new(alloc, Mutex::new(Running::new()))?,
            faults: 0,
        })
    }

    /// The moment now, and what is new of the wall clock; none where no clock could be read that is never set. Both clocks are read
    /// while no other part reads them, so that none is late.
    fn read(&self) -> Option<(u64, News)>
        ensures { IfSome result (λ read. read.0 ≤ last_moment) }
    {
        let mut running = self.running.lock(&self.rt);
        let reading = Reading {
            wall: wall(&self.rt),
            steady: since_boot()?,
        };
        let moment = running.advance(&reading);
        let news = running.note(reading.wall, moment);
        Some((moment, news))
    }

    /// Says what is new of the wall clock.
    fn say(&self, news: News) {
        let (gap, way) = match news {
            News::None => return,
            News::Behind(gap) => (gap, "behind"),
            News::Ahead(gap) => (gap, "ahead of"),
            News::Near => {
                say_aside(
                    &self.rt,
                    "the clock is within 10 s of the moments of the server again",
                );
                return;
            }
        };
        say_aside(
            &self.rt,
            format_args!(
                "the clock is {gap} ms {way} the moments of the server, which come to it by 1 ms in 100"
            ),
        );
    }
}

impl<R: time::Clock + Eprint + Wait + Copy> Clock for RealClock<R> {
    ghost tells = { ⊥ };

    ghost given = { λ clock. [] };

    ghost faults = { λ clock. clock.faults };

    /// Where the wall clock is a minute or more behind that moment, it says so. If no clock can be read now, it begins when one can.
    fn begin(&mut self, least: u64) {
        *self.running.lock(&self.rt) = Running::from(least);
        match self.read() {
            Some((moment, News::Behind(gap))) => {
                let clock = moment.saturating_sub(gap);
                say_aside(
                    &self.rt,
                    format_args!(
                        "the journal's moment {moment} is {gap} ms ahead of the clock {clock}: leases go on from there in their own \
                        length, and moments are told that much too late, which come to the clock by 1 ms in 100; bossd shift takes \
                        them back"
                    ),
                );
            }
            Some((_, news)) => self.say(news),
            None => {}
        }
    }

    fn now(&mut self) -> Result<u64, Failed> {
        let Some((moment, news)) = self.read() else {
            self.faults = self.faults.saturating_add(1);
            return Err(Failed);
        };
        self.say(news);
        Ok(moment)
    }

    fn join(&mut self, other: Self) {
        self.faults = self.faults.saturating_add(other.faults);
    }

    fn split(&mut self, _alloc: Global) -> Result<Self, NoMemory> {
        Ok(RealClock {
            rt: self.rt,
            running: Arc::try_clone(&self.running)?,
            faults: 0,
        })
    }
}
