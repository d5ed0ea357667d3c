//! What a worker has of its own.

ghost use Rattle.std.specs.Prelude.{◌≤◌};
ghost use Rattle.std.specs.List.{AllByRecursion};
ghost use Rattle.boss_model.specs.Limits.{last_moment};

use boss_model::Items;
use boss_outside_server::{ListClock, TurnWaiter, Waiter};
use std::alloc::Global;
use std::process::Abort;

/// The one call of this number, which fails, or none for 0.
pub fn call(rt: &impl Abort, alloc: Global, number: u64) -> Items<u64> {
    let mut calls = Items::new(alloc);
    calls.try_push(number).expect(rt, "memory");
    calls
}

/// The moments that a clock gives.
fn moments(rt: &impl Abort, alloc: Global, all: &[u32]) -> Items<u64>
    ensures { AllByRecursion (λ moment. moment ≤ last_moment) result }
{
    let mut moments = Items::new(alloc);
    for moment in all {
        moments.try_push(u64::from(*moment)).expect(rt, "memory");
    }
    moments
}

/// A clock of these moments, of which the reading of this number fails, from 1; 0 is none.
pub fn list_clock(rt: &impl Abort, alloc: Global, all: &[u32], reading: u64) -> ListClock {
    let moments = moments(rt, alloc, all);
    ListClock::new(alloc, moments, call(rt, alloc, reading)).expect(rt, "memory")
}

/// A clock and a waiter.
#[derive(Drop)]
pub struct Own {
    pub clock: ListClock,
    pub waiter: TurnWaiter,
}

impl Own {
    /// A clock of these moments, of which the reading of this number fails, and a waiter of which so many pauses say that the worker
    /// is to go on.
    pub fn new(rt: &impl Abort, alloc: Global, all: &[u32], reading: u64, going: u64) -> Own {
        Own {
            clock: list_clock(rt, alloc, all, reading),
            waiter: TurnWaiter::new(alloc, going).expect(rt, "memory"),
        }
    }
}

/// How many pauses were made, and whether the last one said that the worker is to end.
pub fn pauses_of(rt: &impl Abort, alloc: Global, own: Own) -> (u64, bool) {
    let mut all = TurnWaiter::new(alloc, 0).expect(rt, "memory");
    all.join(own.waiter);
    last_of(rt, alloc, &all)
}

/// The pauses of the last part that was taken back.
fn last_of(rt: &impl Abort, alloc: Global, waiter: &TurnWaiter) -> (u64, bool) {
    let waits = waiter.waits(alloc).expect(rt, "memory");
    match waits.last() {
        Some(wait) => (wait.pauses, wait.closed),
        None => (0, false),
    }
}
