ghost use Rattle.std.specs.Prelude.{◌≡◌, ◌≤◌, length};
ghost use Rattle.boss_model.specs.Catalogue.{actuators};
ghost use Rattle.boss_model.specs.Limits.{most_points};
ghost use Rattle.boss_outside_server.specs.Pauses.{drive_pause, held_pause};
ghost use Rattle.boss_lock.specs.Places.{entries_at};
ghost use Rattle.def_guards.specs.Guards.{guards_of};
ghost use Rattle.def_lanes.specs.Waits.{PausedWithin};
ghost use Rattle.boss_expiry.specs.Ends.{ClockCause, EndCause};
ghost use Rattle.boss_guard.specs.Guarding.{Guarded, GuardCause, GuardClock, Turned};

use crate::GuardEnd;
use crate::guards::guards_of;
use crate::turn::turn;
use boss_expiry::WorkEnd;
use boss_model::DriverId;
use boss_outside::Actuators;
use boss_outside_server::{Clock, Waiter, Woke};
use boss_points::Catalogue;
use boss_shared::Desk;
use def_guards::Guard;
use std::alloc::Global;

/// Takes so many turns, or fewer where the clock or the disk fails or a pause says that the worker is to end.
///
/// In each turn the clock is read and the driver's next want asked for. That want, and then each one that was held, by rising
/// point, is written where it may be: the point has this value, or has kept another one for its minimum time, or a reading of the
/// point shows the value under a lease of the levels 1 to 5. After a write the clock is read again and the outcome reported. Any
/// other want is held, in place of one that its point held. Where there was no want and none was written, its devices look after
/// what they took, and a point of the driver that they name is doubted. A turn without a write makes a pause, a short one where a
/// want is held or a device is to be looked after.
///
/// Each call is made at the greatest reading so far. Memory is wanted before the first turn only.
pub fn guarded_drive<G: Desk, A: Actuators, C: Clock, W: Waiter>(
    alloc: Global,
    desk: &G,
    pass: &mut G::Pass,
    catalogue: &Catalogue,
    driver: DriverId,
    devices: &mut A,
    clock: &mut C,
    waiter: &mut W,
    turns: u64,
) -> GuardEnd
    requires own { G.owns desk.now pass.old }
    requires plant { actuators catalogue.now ≡ G.plant desk.now }
    ensures own { G.owns desk.now pass.new }
    ensures parts { G.parts pass.new ≡ G.parts pass.old }
    ensures guarded { Guarded (G.plant desk.now) driver (guards_of catalogue.now) C.tells A.tells
        (record { own = entries_at (G.seen pass.old) (G.mine pass.old); given = C.given clock.old; whole = A.whole devices.old; calls = A.calls devices.old })
        (record { own = entries_at (G.seen pass.new) (G.mine pass.new); given = C.given clock.new; whole = A.whole devices.new; calls = A.calls devices.new })
        W.tells (W.waited waiter.old).pauses (W.waited waiter.new).pauses turns result }
    ensures waited { W.tells → PausedWithin held_pause drive_pause (W.waited waiter.old) (W.waited waiter.new) }
    ensures clock { GuardClock (C.faults clock.old) (C.faults clock.new) result }
    ensures cause { GuardCause (G.seen pass.new) W.tells (W.waited waiter.new).closed (W.closes waiter.old) (W.closes waiter.new) result }
{
    match guards_of(alloc, catalogue) {
        Err(_) => GuardEnd::NoMemory,
        Ok(mut guards) => GuardEnd::Worked(take_turns(
            desk,
            pass,
            catalogue,
            driver,
            devices,
            clock,
            waiter,
            turns,
            &mut guards,
        )),
    }
}

/// Takes the turns, over guards of the plant's points before their first writes.
fn take_turns<G: Desk, A: Actuators, C: Clock, W: Waiter>(
    desk: &G,
    pass: &mut G::Pass,
    catalogue: &Catalogue,
    driver: DriverId,
    devices: &mut A,
    clock: &mut C,
    waiter: &mut W,
    turns: u64,
    guards: &mut [Guard],
) -> WorkEnd
    requires own { G.owns desk.now pass.old }
    requires plant { actuators catalogue.now ≡ G.plant desk.now }
    requires long { length guards.old ≡ length (G.plant desk.now) }
    requires few { length guards.old ≤ most_points }
    ensures own { G.owns desk.now pass.new }
    ensures parts { G.parts pass.new ≡ G.parts pass.old }
    ensures turned { Turned (G.plant desk.now) driver guards.old C.tells A.tells
        (record { own = entries_at (G.seen pass.old) (G.mine pass.old); given = C.given clock.old; whole = A.whole devices.old; calls = A.calls devices.old })
        (record { own = entries_at (G.seen pass.new) (G.mine pass.new); given = C.given clock.new; whole = A.whole devices.new; calls = A.calls devices.new })
        W.tells (W.waited waiter.old).pauses (W.waited waiter.new).pauses turns result }
    ensures waited { W.tells → PausedWithin held_pause drive_pause (W.waited waiter.old) (W.waited waiter.new) }
    ensures clock { ClockCause (C.faults clock.old) (C.faults clock.new) result }
    ensures cause { EndCause (G.seen pass.new) W.tells (W.waited waiter.new).closed (W.closes waiter.old) (W.closes waiter.new) result }
{
    let mut now = 0;
    for number in 0..turns {
        let rest = match turn(
            desk, pass, catalogue, driver, devices, clock, &mut now, guards,
        ) {
            Err(end) => return end,
            Ok(rest) => rest,
        };
        if let Some(milliseconds) = rest {
            if let Woke::Close = waiter.pause(milliseconds) {
                if number + 1 < turns {
                    return WorkEnd::Closed;
                }
            }
        }
    }
    WorkEnd::Finished
}
