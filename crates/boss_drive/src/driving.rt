ghost use Rattle.std.specs.Prelude.{◌≡◌};
ghost use Rattle.boss_model.specs.Catalogue.{actuators};
ghost use Rattle.boss_outside_server.specs.Pauses.{drive_pause, held_pause};
ghost use Rattle.boss_lock.specs.Places.{entries_at};
ghost use Rattle.def_lanes.specs.Waits.{PausedWithin};
ghost use Rattle.boss_expiry.specs.Ends.{ClockCause, EndCause};
ghost use Rattle.boss_drive.specs.Driving.{Driven};

use crate::turn::turn;
use boss_expiry::WorkEnd;
use boss_model::DriverId;
use boss_outside::Actuators;
use boss_outside_server::{Clock, Waiter, Woke};
use boss_points::Catalogue;
use boss_shared::Desk;

/// Takes so many turns, or fewer where the clock or the disk fails or a pause says that the worker is to end. In each turn the
/// clock is read and the driver's next want asked for; where there is one its device is written, the clock is read again and
/// the outcome reported, else its devices look after what they took, and a point of the driver that they name is doubted. A turn
/// without a want makes a pause, a short one where a device is to be looked after. It takes no memory.
pub fn drive<G: Desk, A: Actuators, C: Clock, W: Waiter>(
    desk: &G,
    pass: &mut G::Pass,
    catalogue: &Catalogue,
    driver: DriverId,
    devices: &mut A,
    clock: &mut C,
    waiter: &mut W,
    turns: u64,
) -> WorkEnd
    requires own { G.owns desk.now pass.old }
    requires plant { actuators catalogue.now ≡ G.plant desk.now }
    ensures own { G.owns desk.now pass.new }
    ensures parts { G.parts pass.new ≡ G.parts pass.old }
    ensures driven { Driven (G.plant desk.now) driver C.tells A.tells
        (record { own = entries_at (G.seen pass.old) (G.mine pass.old); given = C.given clock.old; whole = A.whole devices.old; calls = A.calls devices.old })
        (record { own = entries_at (G.seen pass.new) (G.mine pass.new); given = C.given clock.new; whole = A.whole devices.new; calls = A.calls devices.new })
        W.tells (W.waited waiter.old).pauses (W.waited waiter.new).pauses turns result }
    ensures waited { W.tells → PausedWithin held_pause drive_pause (W.waited waiter.old) (W.waited waiter.new) }
    ensures clock { ClockCause (C.faults clock.old) (C.faults clock.new) result }
    ensures cause { EndCause (G.seen pass.new) W.tells (W.waited waiter.new).closed (W.closes waiter.old) (W.closes waiter.new) result }
{
    for number in 0..turns {
        let rest = match turn(desk, pass, catalogue, driver, devices, clock) {
            Err(end) => return end,
            Ok(rest) => rest,
        };
        if let Some(milliseconds) = rest {
            if let Woke::Close = waiter.pause(milliseconds) {
                if number + 1 < turns {
                    return WorkEnd::Closed;
                }
            }
        }
    }
    WorkEnd::Finished
}
