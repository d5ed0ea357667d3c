ghost use Rattle.std.specs.Prelude.{◌≡◌, ℕ, ◌+◌, ◌-◌, ◌^◌, ◌≤◌, min, List, [], ◌++◌, IfOk};
ghost use Rattle.boss_model.specs.Limits.{last_moment};
ghost use Rattle.boss_outside.specs.Counts.{HasCause, Joins};
ghost use Rattle.boss_outside_server.specs.Clocks.{Gains};

use boss_model::NoMemory;
use boss_outside::Failed;
use std::alloc::Global;

/// Something that tells the moment, in whole milliseconds. Its moments may go back.
pub trait Clock: Sized + Drop {
    /// That the values of this type tell which moments they gave. A form in memory does; a real one can't.
    ghost tells: { Type 0 };

    /// The moments that it gave, in order.
    ghost given: { Self → List ℕ };

    /// The number of readings that failed, up to `2 ^ 64 - 1`, where it stands still.
    ghost faults: { Self → ℕ };

    /// Hears that no moment may be before this one from now on, as something that is kept has come to it. How it goes on from there
    /// is the clock's. It is called once, before the clock is split.
    fn begin(&mut self, least: u64)
        ensures moments { given self.new ≡ given self.old }
        ensures faults { faults self.new ≡ faults self.old };

    /// The moment: at most `2 ^ 60`.
    fn now(&mut self) -> Result<u64, Failed>
        ensures bound { IfOk result (λ moment. moment ≤ last_moment) }
        ensures moments { tells → Gains (given self.old) (given self.new) result }
        ensures cause { HasCause (faults self.old) (faults self.new) result };

    /// Takes a part back, with the moments that it gave and the readings of it that failed.
    fn join(&mut self, other: Self)
        ensures moments { tells → given self.new ≡ given self.old ++ given other }
        ensures cause { Joins (faults self.old) (faults other) (faults self.new) }
        ensures sum { min (faults self.old + faults other) (2 ^ 64 - 1) ≤ faults self.new };

    /// A part, which has given no moment yet.
    fn split(&mut self, alloc: Global) -> Result<Self, NoMemory>
        ensures part { tells → IfOk result (λ part. given part ≡ []) }
        ensures part_faults { IfOk result (λ part. faults part ≡ 0) }
        ensures moments { tells → given self.new ≡ given self.old }
        ensures faults { faults self.new ≡ faults self.old };
}
