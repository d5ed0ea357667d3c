ghost use Rattle.std.specs.Prelude.{◌≡◌};

use boss_bells::Bells;
use std::sync::atomic::{AtomicU64, Ordering};

/// What the parts of a waiter and the ringer have in common.
#[derive(Drop)]
pub(crate) struct Shared {
    /// How many workers are waited for.
    pub expected: AtomicU64,
    /// How many of them have left.
    pub left: AtomicU64,
    /// The moment of the alarm, in milliseconds since 1970.
    pub alarm: AtomicU64,
    /// The bells.
    pub bells: Bells,
}

impl Shared {
    /// No worker is waited for, the alarm was never set, and no bell was rung.
    pub(crate) fn new(bells: Bells) -> Shared
        ensures { result.bells ≡ bells }
    {
        Shared {
            expected: AtomicU64::new(0),
            left: AtomicU64::new(0),
            alarm: AtomicU64::new(u64::MAX),
            bells,
        }
    }

    /// Whether as many have left as were expected.
    pub(crate) fn are_gone(&self) -> bool {
        self.left.load(Ordering::SeqCst) >= self.expected.load(Ordering::SeqCst)
    }
}
