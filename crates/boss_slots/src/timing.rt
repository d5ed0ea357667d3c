//! Timers whose comparisons nobody counts.

ghost use Rattle.std.specs.Prelude.{◌≡◌, ◌<◌, None, Some, length, slice_set};

use boss_timers::{Steps, Timers};
use std::marker::Brand;
use std::sync::ledger::{Blank, Ledger};

/// The timer of this slot goes off at `moment`, in milliseconds.
pub fn set_timer(timers: &mut Timers, slot: u32, moment: u64)
    requires { slot < length timers.old }
    ensures { timers.new ≡ slice_set timers.old slot (Some moment) }
{
    set_by::<Brand>(timers, slot, moment, Blank::new(1));
}

/// The slot has no timer any more.
pub fn remove_timer(timers: &mut Timers, slot: u32)
    requires { slot < length timers.old }
    ensures { timers.new ≡ slice_set timers.old slot None }
{
    remove_by::<Brand>(timers, slot, Blank::new(1));
}

fn set_by<L: Ledger>(timers: &mut Timers, slot: u32, moment: u64, blank: Blank)
    requires slot { slot < length timers.old }
    requires name { blank.name ≡ L.name }
    requires parts { blank.parts ≡ L.parts }
    requires one { blank.parts ≡ 1 }
    ensures { timers.new ≡ slice_set timers.old slot (Some moment) }
{
    let mut steps = Steps::<L>::new(blank);
    timers.set(slot, moment, &mut steps);
}

fn remove_by<L: Ledger>(timers: &mut Timers, slot: u32, blank: Blank)
    requires slot { slot < length timers.old }
    requires name { blank.name ≡ L.name }
    requires parts { blank.parts ≡ L.parts }
    requires one { blank.parts ≡ 1 }
    ensures { timers.new ≡ slice_set timers.old slot None }
{
    let mut steps = Steps::<L>::new(blank);
    timers.remove(slot, &mut steps);
}
