//! How many comparisons a timer takes. Nothing counts them when a program runs: that they are few is a clause.

ghost use Rattle.std.specs.Prelude.{◌≡◌, ◌+◌, ◌<◌, ◌≤◌, Some, length, slice_set};

use boss_timers::{Steps, Timers};
use std::marker::Brand;
use std::sync::ledger::{Blank, Ledger};

/// Sets a timer where there is room for a thousand: it takes 20 comparisons at most.
fn set_one_of_a_thousand<L: Ledger>(
    timers: &mut Timers,
    slot: u32,
    moment: u64,
    steps: &mut Steps<L>,
)
    requires capacity { length timers.old ≡ 1000 }
    requires slot { slot < 1000 }
    ensures set { timers.new ≡ slice_set timers.old slot (Some moment) }
    ensures few { steps.new ≤ steps.old + 20 }
{
    timers.set(slot, moment, steps);
}

/// The same with a new count.
fn set_counted<L: Ledger>(timers: &mut Timers, slot: u32, moment: u64, blank: Blank)
    requires capacity { length timers.old ≡ 1000 }
    requires slot { slot < 1000 }
    requires name { blank.name ≡ L.name }
    requires parts { blank.parts ≡ L.parts }
    requires one { blank.parts ≡ 1 }
    ensures { length timers.new ≡ 1000 }
{
    let mut steps = Steps::<L>::new(blank);
    set_one_of_a_thousand(timers, slot, moment, &mut steps);
}

fn set(timers: &mut Timers, slot: u32, moment: u64)
    requires capacity { length timers.old ≡ 1000 }
    requires slot { slot < 1000 }
    ensures { length timers.new ≡ 1000 }
{
    set_counted::<Brand>(timers, slot, moment, Blank::new(1));
}

/// Sets a thousand timers, each to go off before those that were set before it.
fn set_thousand(timers: &mut Timers)
    requires { length timers.old ≡ 1000 }
    ensures { length timers.new ≡ 1000 }
{
    for slot in 0..1_000 {
        set(timers, slot, 5_000 - u64::from(slot));
    }
}

/// Whether this timer goes off first, at this moment.
fn is_first(timers: &Timers, slot: u32, moment: u64) -> bool {
    timers.first() == Some((slot, moment))
}

/// The last of a thousand timers goes off first, until it is put off.
#[test]
fn each_of_a_thousand_timers_is_set(rt: HostRuntime) {
    let mut timers = Timers::new(rt.alloc(), 1_000).expect(&rt, "memory");
    set_thousand(&mut timers);
    assert!(&rt; is_first(&timers, 999, 4_001));
    set(&mut timers, 999, 9_000);
    assert!(&rt; is_first(&timers, 998, 4_002));
}
