ghost use Rattle.std.specs.Prelude.{◌≡◌, ◌≤◌, length, IfOk, IfErr, IfSome};
ghost use Rattle.boss_model.specs.Catalogue.{actuators};
ghost use Rattle.boss_model.specs.Limits.{last_moment, most_points};
ghost use Rattle.boss_outside_server.specs.Pauses.{drive_pause, held_pause};
ghost use Rattle.boss_lock.specs.Places.{entries_at};
ghost use Rattle.boss_expiry.specs.Ends.{ClockCause};
ghost use Rattle.boss_drive.specs.Driving.{DiskCause};
ghost use Rattle.boss_guard.specs.Trying.{CutTurn, TookTurn};

use crate::guards::rest_of;
use crate::sweeping::{sweep, try_given};
use boss_drive::{look_after, next};
use boss_expiry::WorkEnd;
use boss_model::DriverId;
use boss_outside::Actuators;
use boss_outside_server::Clock;
use boss_points::Catalogue;
use boss_shared::Desk;
use def_guards::{Due, Guard};

/// Takes one turn up to its pause, and tells how long that is, in milliseconds: there is none where a device was written. `now` is
/// the greatest reading so far, in milliseconds.
pub fn turn<G: Desk, A: Actuators, C: Clock>(
    desk: &G,
    pass: &mut G::Pass,
    catalogue: &Catalogue,
    driver: DriverId,
    devices: &mut A,
    clock: &mut C,
    now: &mut u64,
    guards: &mut [Guard],
) -> Result<Option<u64>, WorkEnd>
    requires own { G.owns desk.now pass.old }
    requires plant { actuators catalogue.now ≡ G.plant desk.now }
    requires long { length guards.old ≡ length (G.plant desk.now) }
    requires few { length guards.old ≤ most_points }
    requires soon { now.old ≤ last_moment }
    ensures own { G.owns desk.now pass.new }
    ensures parts { G.parts pass.new ≡ G.parts pass.old }
    ensures taken { IfOk result (TookTurn C.tells A.tells
        (record { own = entries_at (G.seen pass.old) (G.mine pass.old); given = C.given clock.old; whole = A.whole devices.old; calls = A.calls devices.old })
        (record { own = entries_at (G.seen pass.new) (G.mine pass.new); given = C.given clock.new; whole = A.whole devices.new; calls = A.calls devices.new })
        (G.plant desk.now) driver (record { now = now.old; guards = guards.old }) (record { now = now.new; guards = guards.new })) }
    ensures cut { IfErr result (CutTurn C.tells A.tells
        (record { own = entries_at (G.seen pass.old) (G.mine pass.old); given = C.given clock.old; whole = A.whole devices.old; calls = A.calls devices.old })
        (record { own = entries_at (G.seen pass.new) (G.mine pass.new); given = C.given clock.new; whole = A.whole devices.new; calls = A.calls devices.new })
        (G.plant desk.now) driver (record { now = now.old; guards = guards.old })) }
    ensures least { IfOk result (λ rest. IfSome rest (λ rest. held_pause ≤ rest)) }
    ensures most { IfOk result (λ rest. IfSome rest (λ rest. rest ≤ drive_pause)) }
    ensures long { length guards.new ≡ length guards.old }
    ensures soon { IfOk result (λ rest. now.new ≤ last_moment) }
    ensures clock { IfOk result (λ rest. C.faults clock.new ≡ C.faults clock.old) }
    ensures clock_cause { IfErr result (ClockCause (C.faults clock.old) (C.faults clock.new)) }
    ensures disk_cause { IfErr result (DiskCause (G.seen pass.new)) }
{
    let Ok(reading) = clock.now() else {
        return Err(WorkEnd::ClockFault);
    };
    *now = (*now).max(reading);
    match next(desk, pass, driver, *now) {
        Err(end) => Err(end),
        Ok(None) => {
            match sweep(desk, pass, devices, clock, now, guards, &None) {
                Err(end) => return Err(end),
                Ok(true) => return Ok(None),
                Ok(false) => {}
            }
            match look_after(desk, pass, catalogue, driver, devices, *now) {
                Err(end) => Err(end),
                Ok(rest) => Ok(Some(rest.min(rest_of(guards)))),
            }
        }
        Ok(Some(want)) => {
            let due = Due {
                point: want.point,
                version: want.version,
                value: want.value,
            };
            match try_given(desk, pass, devices, clock, now, guards, &due) {
                Err(end) => Err(end),
                Ok(true) => Ok(None),
                Ok(false) => Ok(Some(rest_of(guards))),
            }
        }
    }
}
