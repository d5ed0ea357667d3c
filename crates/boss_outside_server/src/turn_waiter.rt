ghost use Rattle.std.specs.Prelude.{◌≡◌, ◌-◌, ◌==◌, ◌∷◌, ◌++◌, [], map, IfOk};
ghost use Rattle.boss_outside.specs.Ringing.{new_rung};
ghost use Rattle.boss_outside_server.specs.Waits.{after_leave, after_pause, expecting, is_close, listening, new_turns, CloseCause};

use crate::log::{Log, Room};
use crate::waited::Waited;
use crate::{Waiter, Woke};
use boss_model::NoMemory;
use boss_outside::ListRinger;
use std::alloc::Global;
use std::marker::Model;

/// A waiter in memory, which never waits. The first so many pauses say Again, and each later one says Close. Each part has
/// this number of turns of its own.
#[derive(Drop)]
pub struct TurnWaiter {
    turns: u64,
    left: u64,
    waited: Waited,
    closes: u64,
    waits: Log<Waited>,
    /// For its own entry in the waiter that takes it back.
    room: Room<Waited>,
}

impl Model for TurnWaiter {
    ghost use Rattle.boss_outside_server.specs.Waits.{Turns};

    ghost Value = { Turns };

    ghost view = { λ w. record {
      turns = w.turns;
      left = w.left;
      waited = w.waited;
      closes = w.closes;
      waits = w.waits;
    } };
}

impl TurnWaiter {
    /// A waiter whose first `turns` pauses say Again.
    pub fn new(alloc: Global, turns: u64) -> Result<TurnWaiter, NoMemory>
        ensures { IfOk result (λ waiter. waiter ≡ new_turns turns 0) }
    {
        TurnWaiter::expecting(alloc, turns, 0)
    }

    /// The same, where so many workers are waited for.
    fn expecting(alloc: Global, turns: u64, workers: u32) -> Result<TurnWaiter, NoMemory>
        ensures { IfOk result (λ waiter. waiter ≡ new_turns turns workers) }
    {
        Ok(TurnWaiter {
            turns,
            left: turns,
            waited: Waited::new(workers),
            closes: 0,
            waits: Log::new(),
            room: Room::new(alloc)?,
        })
    }

    /// What each part that was taken back had noted.
    pub fn waits(&self, alloc: Global) -> Result<Vec<&Waited>, NoMemory>
        ensures { IfOk result (λ waits. map (λ wait. wait.now) waits.items ≡ self.now.waits) }
    {
        self.waits.entries(alloc)
    }
}

impl Waiter for TurnWaiter {
    type Bells = ListRinger;

    ghost tells = { Unit {0} };

    ghost waited = { λ waiter. waiter.waited };

    ghost closes = { λ waiter. waiter.closes };

    ghost waits = { λ waiter. waiter.waits };

    fn split(&mut self, alloc: Global) -> Result<Self, NoMemory>
        ensures part { IfOk result (λ part. part ≡ new_turns self.old.turns self.old.waited.expected) }
        ensures same { self.new ≡ self.old }
    {
        TurnWaiter::expecting(alloc, self.turns, self.waited.expected)
    }

    fn ringer(&mut self, alloc: Global) -> Result<ListRinger, NoMemory>
        ensures silent { IfOk result (λ ringer. ringer ≡ new_rung) }
        ensures same { self.new ≡ self.old }
    {
        Ok(ListRinger::new(alloc))
    }

    fn expect(&mut self, workers: u32)
        ensures { self.new ≡ record self.old { waited = expecting workers self.old.waited } }
    {
        self.waited.expected = workers;
    }

    fn leave(&mut self, connections: u32)
        ensures { self.new ≡ record self.old { waited = after_leave connections self.old.waited } }
    {
        self.waited = self.waited.after_leave(connections);
    }

    fn listen(&mut self, bell: u32)
        ensures { self.new ≡ record self.old { waited = listening bell self.old.waited } }
    {
        self.waited = self.waited.after_listen(bell);
    }

    fn pause(&mut self, milliseconds: u64) -> Woke
        ensures turn { is_close result ≡ (self.old.left == 0) }
        ensures cause { CloseCause self.old.closes self.new.closes result }
        ensures same { self.new ≡ record self.old {
          left = self.old.left - 1;
          waited = after_pause milliseconds result self.old.waited;
          closes = self.new.closes;
        } }
    {
        let woke = if self.left == 0 {
            self.closes = self.closes.saturating_add(1);
            Woke::Close
        } else {
            self.left -= 1;
            Woke::Again
        };
        self.waited = self.waited.after_pause(milliseconds, woke);
        woke
    }

    fn join(&mut self, other: Self)
        ensures { self.new ≡ record self.old { waits = self.old.waits ++ other.waited ∷ [] } }
    {
        let TurnWaiter { waited, room, .. } = other;
        self.waits.push(waited, room);
    }
}
