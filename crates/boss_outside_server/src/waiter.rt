ghost use Rattle.std.specs.Prelude.{◌≡◌, ℕ, List, [], ◌∷◌, ◌++◌, IfOk};
ghost use Rattle.boss_outside_server.specs.declared.waited.Waited.{Waited};
ghost use Rattle.boss_outside_server.specs.Waits.{after_leave, after_pause, expecting, listening, new_waited, CloseCause};

use boss_model::NoMemory;
use boss_outside::Ringer;
use std::alloc::Global;

/// How a pause ended.
#[derive(Clone, Copy, Debug, PartialEq, Eq)]
pub enum Woke {
    /// The worker is to take its next turn.
    Again,
    /// The worker is to end.
    Close,
}

/// What a worker waits by between two turns, and by which it learns that it is to end.
pub trait Waiter: Sized + Drop {
    /// What rings the bells that this waiter and its parts listen at.
    type Bells: Ringer;

    /// That the values of this type tell how they were used. A form in memory does; a real one can't.
    ghost tells: { Type 0 };

    /// What it notes of its own worker: the pauses and how long they were asked to be, whether the last one said Close, how many
    /// workers are waited for, whether the worker has left, and the bell at which it listens.
    ghost waited: { Self → Waited };

    /// The number of pauses that said Close, up to `2 ^ 64 - 1`, where it stands still.
    ghost closes: { Self → ℕ };

    /// What each part that was taken back had noted.
    ghost waits: { Self → List Waited };

    /// A part, which has not paused yet. It was told of as many workers as this one.
    fn split(&mut self, alloc: Global) -> Result<Self, NoMemory>
        ensures part { tells → IfOk result (λ part. (waited part ≡ new_waited (waited self.old).expected) × (waits part ≡ [])) }
        ensures part_closes { IfOk result (λ part. closes part ≡ 0) }
        ensures stays { tells → (waited self.new ≡ waited self.old) × (waits self.new ≡ waits self.old) }
        ensures closes { closes self.new ≡ closes self.old };

    /// What rings the bells, which rang none yet. It is asked for once, before the waiter is split: later there may be none, which is told
    /// as memory that is wanting.
    fn ringer(&mut self, alloc: Global) -> Result<Self::Bells, NoMemory>
        ensures silent { IfOk result (λ ringer. Self.Bells.Ringer.tells →
            Self.Bells.Ringer.whole ringer × (Self.Bells.Ringer.rung ringer ≡ [])) }
        ensures stays { (waited self.new ≡ waited self.old) × (waits self.new ≡ waits self.old) }
        ensures closes { closes self.new ≡ closes self.old };

    /// Names the number of workers whose leaving is waited for. It is called before any part is made.
    fn expect(&mut self, workers: u32)
        ensures expects { tells → (waited self.new ≡ expecting workers (waited self.old)) × (waits self.new ≡ waits self.old) }
        ensures closes { closes self.new ≡ closes self.old };

    /// The worker, which is one of those that are waited for, has served so many connections and serves no more.
    fn leave(&mut self, connections: u32)
        ensures leaves { tells → (waited self.new ≡ after_leave connections (waited self.old)) × (waits self.new ≡ waits self.old) }
        ensures closes { closes self.new ≡ closes self.old };

    /// From now on a pause ends when this bell is rung, and does not begin where it was rung since the last pause ended.
    fn listen(&mut self, bell: u32)
        ensures listens { tells → (waited self.new ≡ listening bell (waited self.old)) × (waits self.new ≡ waits self.old) }
        ensures closes { closes self.new ≡ closes self.old };

    /// Waits for so many milliseconds, or for less.
    fn pause(&mut self, milliseconds: u64) -> Woke
        ensures counted { tells → (waited self.new ≡ after_pause milliseconds result (waited self.old)) × (waits self.new ≡ waits self.old) }
        ensures cause { CloseCause (closes self.old) (closes self.new) result };

    /// Takes a part back, and keeps what it noted.
    fn join(&mut self, other: Self)
        ensures noted { tells → (waited self.new ≡ waited self.old) × (waits self.new ≡ waits self.old ++ waited other ∷ []) }
        ensures closes { closes self.new ≡ closes self.old };
}
