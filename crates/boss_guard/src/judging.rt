ghost use Rattle.std.specs.Prelude.{◌≡◌, ◌<◌, ◌≤◌, length, IfOk, IfErr};
ghost use Rattle.boss_model.specs.Limits.{last_moment};
ghost use Rattle.boss_lock.specs.Places.{entries_at};
ghost use Rattle.def_guards.specs.Acts.{decided};
ghost use Rattle.boss_expiry.specs.Ends.{ClockCause};
ghost use Rattle.boss_drive.specs.Driving.{DiskCause};
ghost use Rattle.boss_guard.specs.Trying.{Judged, JudgedCut, Wrote, WroteCut};

use boss_expiry::{WorkEnd, work};
use boss_model::Command;
use boss_outside::Actuators;
use boss_outside_server::Clock;
use boss_shared::Desk;
use def_guards::{Due, Guard, shows};

/// Whether the want may be written at a moment, in milliseconds. Its point is read only where its guard alone does not allow it.
pub fn judge<G: Desk>(
    desk: &G,
    pass: &mut G::Pass,
    guard: &Guard,
    want: &Due,
    now: u64,
) -> Result<bool, WorkEnd>
    requires own { G.owns desk.now pass.old }
    requires known { want.now.point < length (G.plant desk.now) }
    requires soon { now ≤ last_moment }
    ensures own { G.owns desk.now pass.new }
    ensures parts { G.parts pass.new ≡ G.parts pass.old }
    ensures judged { IfOk result (Judged guard.now (decided want.now now) (entries_at (G.seen pass.old) (G.mine pass.old))
        (entries_at (G.seen pass.new) (G.mine pass.new))) }
    ensures cut { IfErr result (JudgedCut guard.now (decided want.now now) (entries_at (G.seen pass.old) (G.mine pass.old))
        (entries_at (G.seen pass.new) (G.mine pass.new)) (G.seen pass.new)) }
{
    if guard.is_free(want.value, now) {
        return Ok(true);
    }
    let read = Command::Read { point: want.point };
    match work(desk, pass, &read, now) {
        Err(end) => Err(end),
        Ok(answer) => Ok(shows(&answer, want.value)),
    }
}

/// Writes the want's device, reads the clock and reports whether the device took it. `now` is the greatest reading so far, in
/// milliseconds.
pub fn write<G: Desk, A: Actuators, C: Clock>(
    desk: &G,
    pass: &mut G::Pass,
    devices: &mut A,
    clock: &mut C,
    now: &mut u64,
    want: &Due,
) -> Result<(), WorkEnd>
    requires own { G.owns desk.now pass.old }
    requires known { want.now.point < length (G.plant desk.now) }
    requires soon { now.old ≤ last_moment }
    ensures own { G.owns desk.now pass.new }
    ensures parts { G.parts pass.new ≡ G.parts pass.old }
    ensures written { IfOk result (λ done. Wrote C.tells A.tells
        (record { own = entries_at (G.seen pass.old) (G.mine pass.old); given = C.given clock.old; whole = A.whole devices.old; calls = A.calls devices.old })
        (record { own = entries_at (G.seen pass.new) (G.mine pass.new); given = C.given clock.new; whole = A.whole devices.new; calls = A.calls devices.new })
        (decided want.now now.old) now.new) }
    ensures cut { IfErr result (WroteCut C.tells A.tells
        (record { own = entries_at (G.seen pass.old) (G.mine pass.old); given = C.given clock.old; whole = A.whole devices.old; calls = A.calls devices.old })
        (record { own = entries_at (G.seen pass.new) (G.mine pass.new); given = C.given clock.new; whole = A.whole devices.new; calls = A.calls devices.new })
        (decided want.now now.old)) }
    ensures soon { IfOk result (λ done. now.new ≤ last_moment) }
    ensures clock { IfOk result (λ done. C.faults clock.new ≡ C.faults clock.old) }
    ensures clock_cause { IfErr result (ClockCause (C.faults clock.old) (C.faults clock.new)) }
    ensures disk_cause { IfErr result (DiskCause (G.seen pass.new)) }
{
    let ok = devices.write(want.point, want.value).is_ok();
    let Ok(told) = clock.now() else {
        return Err(WorkEnd::ClockFault);
    };
    *now = (*now).max(told);
    let report = Command::Report {
        point: want.point,
        version: want.version,
        ok,
    };
    match work(desk, pass, &report, *now) {
        Err(end) => Err(end),
        Ok(_) => Ok(()),
    }
}
