ghost use Rattle.std.specs.Prelude.{◌≡◌, ◌+◌, nat_lt};
ghost use Rattle.boss_timers.specs.Heap.{weight};

use crate::Steps;
use std::sync::ledger::Ledger;

/// A timer that is set: the moment at which it goes off, in milliseconds, and its slot.
#[derive(Clone, Copy, Debug, PartialEq, Eq)]
pub struct Entry {
    pub moment: u64,
    pub slot: u32,
}

/// Whether one timer goes off before another; of two that go off at once the one of the lesser slot does. Nothing else in
/// this crate compares timers, and each call is counted.
pub fn comes_first<L: Ledger>(one: Entry, other: Entry, steps: &mut Steps<L>) -> bool
    ensures order { result ≡ nat_lt (weight one) (weight other) }
    ensures counted { steps.new ≡ steps.old + 1 }
{
    steps.tick();
    one.moment < other.moment || one.moment == other.moment && has_lesser_slot(one, other)
}

/// Whether one timer has a lesser slot than another. Cold, since few timers go off at once: a way through the heap is compiled
/// for those that do not, and reads moments alone where it can.
#[cold]
fn has_lesser_slot(one: Entry, other: Entry) -> bool
    ensures { result ≡ nat_lt one.slot other.slot }
{
    one.slot < other.slot
}
