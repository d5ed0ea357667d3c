ghost use Rattle.std.specs.Prelude.{◌≡◌, ◌≤◌, [], IfOk};
ghost use Rattle.boss_outside_server.specs.Waits.{new_waited};

use crate::real_ringer::RealRinger;
use crate::shared::Shared;
use crate::{Door, RealClock};
use boss_bells::Bells;
use boss_model::NoMemory;
use boss_outside::{BELLS, TIME_BELL};
use boss_outside_server::{Clock, Waiter, Woke};
use std::alloc::Global;
use std::io::Eprint;
use std::sync::atomic::Ordering;
use std::sync::{Arc, Wait};
use std::time::Duration;
use std::{thread, time};

/// How long one sleep is at most, in milliseconds: a worker that sleeps longer looks in between whether it is to end.
const LONGEST_SLEEP: u64 = 1_000;

/// How long a sleep is at least behind the alarm's moment, in milliseconds, so that a clock that is drawn back costs little.
const LEAST_SLEEP: u64 = 10;

/// A waiter that sleeps until its time is over, or its bell is rung. One that listens at the bell of time sleeps until the alarm at
/// most. All its parts say Close once as many workers have left, by whichever part, as one of them was told to expect: within a
/// second. Before each sleep it looks at the door, where it has one (`watch`). `R` is what sleeps, and reads the clock that the alarm is
/// of.
#[derive(Drop)]
pub struct RealWaiter<R: Wait> {
    rt: R,
    clock: RealClock<R>,
    shared: Arc<Shared, Global>,
    /// What rings, until it is given out.
    ringer: Option<RealRinger>,
    door: Option<Arc<Door, Global>>,
    bell: Option<u32>,
    /// How often the bell had been rung when the last pause ended.
    heard: u64,
    closes: u64,
}

impl<R: time::Clock + Eprint + Wait + Copy> RealWaiter<R> {
    /// A waiter that expects no worker yet, and so says Close. The alarm's moments are this clock's.
    pub fn new(alloc: Global, rt: R, clock: &mut RealClock<R>) -> Result<RealWaiter<R>, NoMemory>
        ensures { IfOk result (λ waiter. ⟦<RealWaiter<R> as Waiter>⟧.closes waiter ≡ 0) }
    {
        let (bells, right) = Bells::new(alloc, BELLS as usize)?;
        let shared = Arc::new(alloc, Shared::new(bells))?;
        let ringer = RealRinger {
            shared: Arc::try_clone(&shared)?,
            right,
        };
        Ok(RealWaiter {
            rt,
            clock: clock.split(alloc)?,
            shared,
            ringer: Some(ringer),
            door: None,
            bell: None,
            heard: 0,
            closes: 0,
        })
    }

    /// From now on it and the parts that are split off it look at this door.
    pub fn watch(&mut self, door: Arc<Door, Global>)
        ensures { ⟦<RealWaiter<R> as Waiter>⟧.closes self.new ≡ ⟦<RealWaiter<R> as Waiter>⟧.closes self.old }
    {
        self.door = Some(door);
    }

    /// Looks at the door, where it has one.
    fn look(&self) {
        if let Some(door) = &self.door {
            door.look(&self.rt);
        }
    }

    /// How long the next sleep may be, of so many milliseconds, 1 at least.
    fn sleep_of(&mut self, left: u64) -> u64
        requires { 1 ≤ left }
        ensures least { 1 ≤ result }
        ensures same { self.new.closes ≡ self.old.closes }
    {
        let most = left.min(LONGEST_SLEEP);
        if self.bell != Some(TIME_BELL) {
            return most;
        }
        let alarm = self.shared.alarm.load(Ordering::SeqCst);
        match self.clock.now() {
            Ok(now) if now < alarm => most.min(alarm - now),
            Ok(_) => most.min(LEAST_SLEEP),
            Err(_) => most,
        }
    }

    /// Sleeps for so many milliseconds, or until the bell is rung. Says whether it was, since the last pause ended.
    fn is_rung_within(&mut self, milliseconds: u64) -> bool
        ensures { self.new.closes ≡ self.old.closes }
    {
        let most = Duration::from_millis(milliseconds);
        if let Some(bell) = self.bell {
            let bell = bell as usize;
            if bell < self.shared.bells.len() {
                let mut ear = self.shared.bells.ear();
                let shown = self
                    .shared
                    .bells
                    .wait(&self.rt, &mut ear, bell, self.heard, most);
                let rung = shown != self.heard;
                self.heard = shown;
                return rung;
            }
        }
        thread::sleep(&self.rt, most);
        false
    }

    /// Sleeps for so many milliseconds, or until the bell is rung or the alarm's moment is there, or the workers are gone.
    fn rest(&mut self, milliseconds: u64)
        ensures { self.new.closes ≡ self.old.closes }
    {
        let mut left = milliseconds;
        while 0 < left && !self.shared.are_gone() {
            self.look();
            let sleep = self.sleep_of(left);
            if self.is_rung_within(sleep) {
                return;
            }
            let is_alarmed = sleep < left && sleep < LONGEST_SLEEP;
            if is_alarmed {
                return;
            }
            left = left.saturating_sub(sleep);
        }
    }
}

impl<R: time::Clock + Eprint + Wait + Copy> Waiter for RealWaiter<R> {
    type Bells = RealRinger;

    ghost tells = { ⊥ };

    ghost waited = { λ waiter. new_waited 0 };

    ghost closes = { λ waiter. waiter.closes };

    ghost waits = { λ waiter. [] };

    fn split(&mut self, alloc: Global) -> Result<Self, NoMemory> {
        let door = match &self.door {
            Some(door) => Some(Arc::try_clone(door)?),
            None => None,
        };
        Ok(RealWaiter {
            rt: self.rt,
            clock: self.clock.split(alloc)?,
            shared: Arc::try_clone(&self.shared)?,
            ringer: None,
            door,
            bell: None,
            heard: 0,
            closes: 0,
        })
    }

    /// It is given out once: there is one that rings.
    fn ringer(&mut self, _alloc: Global) -> Result<RealRinger, NoMemory> {
        self.ringer.take().ok_or(NoMemory)
    }

    fn expect(&mut self, workers: u32) {
        self.shared
            .expected
            .store(u64::from(workers), Ordering::SeqCst);
    }

    fn leave(&mut self, _connections: u32) {
        self.shared.left.fetch_add(1, Ordering::SeqCst);
    }

    fn listen(&mut self, bell: u32) {
        let place = bell as usize;
        if place < self.shared.bells.len() {
            let mut ear = self.shared.bells.ear();
            self.heard = self.shared.bells.hear(&mut ear, place);
        }
        self.bell = Some(bell);
    }

    fn pause(&mut self, milliseconds: u64) -> Woke {
        self.rest(milliseconds);
        if self.shared.are_gone() {
            self.closes = self.closes.saturating_add(1);
            return Woke::Close;
        }
        Woke::Again
    }

    fn join(&mut self, _other: Self) {}
}
