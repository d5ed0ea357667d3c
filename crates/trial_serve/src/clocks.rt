//! Clocks in memory, and calls that fail.

ghost use Rattle.std.specs.Prelude.{◌≤◌};
ghost use Rattle.std.specs.List.{AllByRecursion};
ghost use Rattle.boss_model.specs.Limits.{last_moment};

use boss_model::Items;
use boss_outside_server::ListClock;
use std::alloc::Global;
use std::process::Abort;

/// The one call of this number, which fails, or none for 0.
pub fn call(rt: &impl Abort, alloc: Global, number: u64) -> Items<u64> {
    let mut calls = Items::new(alloc);
    calls.try_push(number).expect(rt, "memory");
    calls
}

/// The moments that a clock gives.
fn moments(rt: &impl Abort, alloc: Global, all: &[u32]) -> Items<u64>
    ensures { AllByRecursion (λ moment. moment ≤ last_moment) result }
{
    let mut moments = Items::new(alloc);
    for moment in all {
        moments.try_push(u64::from(*moment)).expect(rt, "memory");
    }
    moments
}

/// A clock of these moments, of which the reading of this number fails, from 1; 0 is none.
pub fn list_clock(rt: &impl Abort, alloc: Global, all: &[u32], fails: u64) -> ListClock {
    let (moments, fails) = (moments(rt, alloc, all), call(rt, alloc, fails));
    ListClock::new(alloc, moments, fails).expect(rt, "memory")
}
