ghost use Rattle.std.specs.Prelude.{◌≡◌, ◌≤◌, IfOk, IfErr, IfSome};
ghost use Rattle.boss_model.specs.Catalogue.{actuators};
ghost use Rattle.boss_outside_server.specs.Pauses.{drive_pause, held_pause};
ghost use Rattle.boss_lock.specs.Places.{entries_at};
ghost use Rattle.boss_expiry.specs.Ends.{ClockCause};
ghost use Rattle.boss_drive.specs.Driving.{IsTurn, IsCutTurn, DiskCause};

use crate::looking::look_after;
use crate::want::next;
use boss_expiry::{WorkEnd, work};
use boss_model::{Command, DriverId};
use boss_outside::Actuators;
use boss_outside_server::Clock;
use boss_points::Catalogue;
use boss_shared::Desk;

/// Takes one turn up to its pause, and tells how long that is, in milliseconds: there is none where a device was written.
pub fn turn<G: Desk, A: Actuators, C: Clock>(
    desk: &G,
    pass: &mut G::Pass,
    catalogue: &Catalogue,
    driver: DriverId,
    devices: &mut A,
    clock: &mut C,
) -> Result<Option<u64>, WorkEnd>
    requires own { G.owns desk.now pass.old }
    requires plant { actuators catalogue.now ≡ G.plant desk.now }
    ensures own { G.owns desk.now pass.new }
    ensures parts { G.parts pass.new ≡ G.parts pass.old }
    ensures served { IfOk result (IsTurn (G.plant desk.now) driver C.tells A.tells
        (record { own = entries_at (G.seen pass.old) (G.mine pass.old); given = C.given clock.old; whole = A.whole devices.old; calls = A.calls devices.old })
        (record { own = entries_at (G.seen pass.new) (G.mine pass.new); given = C.given clock.new; whole = A.whole devices.new; calls = A.calls devices.new })) }
    ensures cut { IfErr result (IsCutTurn (G.plant desk.now) driver C.tells A.tells
        (record { own = entries_at (G.seen pass.old) (G.mine pass.old); given = C.given clock.old; whole = A.whole devices.old; calls = A.calls devices.old })
        (record { own = entries_at (G.seen pass.new) (G.mine pass.new); given = C.given clock.new; whole = A.whole devices.new; calls = A.calls devices.new })) }
    ensures least { IfOk result (λ rest. IfSome rest (λ rest. held_pause ≤ rest)) }
    ensures most { IfOk result (λ rest. IfSome rest (λ rest. rest ≤ drive_pause)) }
    ensures clock { IfOk result (λ rest. C.faults clock.new ≡ C.faults clock.old) }
    ensures clock_cause { IfErr result (ClockCause (C.faults clock.old) (C.faults clock.new)) }
    ensures disk_cause { IfErr result (DiskCause (G.seen pass.new)) }
{
    let Ok(moment) = clock.now() else {
        return Err(WorkEnd::ClockFault);
    };
    let want = match next(desk, pass, driver, moment) {
        Err(end) => return Err(end),
        Ok(None) => {
            return match look_after(desk, pass, catalogue, driver, devices, moment) {
                Err(end) => Err(end),
                Ok(rest) => Ok(Some(rest)),
            };
        }
        Ok(Some(want)) => want,
    };
    let ok = devices.write(want.point, want.value).is_ok();
    let Ok(told) = clock.now() else {
        return Err(WorkEnd::ClockFault);
    };
    let report = Command::Report {
        point: want.point,
        version: want.version,
        ok,
    };
    match work(desk, pass, &report, told) {
        Err(end) => Err(end),
        Ok(_) => Ok(None),
    }
}
