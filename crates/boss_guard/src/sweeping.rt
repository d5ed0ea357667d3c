ghost use Rattle.std.specs.Prelude.{◌≡◌, ◌<◌, ◌≤◌, [], ◌∷◌, length, Some, IfOk, IfErr};
ghost use Rattle.boss_model.specs.Limits.{last_moment, most_points};
ghost use Rattle.boss_lock.specs.Places.{entries_at};
ghost use Rattle.def_guards.specs.Acts.{due_from};
ghost use Rattle.boss_expiry.specs.Ends.{ClockCause};
ghost use Rattle.boss_drive.specs.Driving.{DiskCause};
ghost use Rattle.boss_guard.specs.Trying.{Swept, SweptCut};

use crate::trying::{try_place, try_want};
use boss_expiry::WorkEnd;
use boss_model::PointId;
use boss_outside::Actuators;
use boss_outside_server::Clock;
use boss_shared::Desk;
use def_guards::{Due, Guard};

/// Tries each want that is held, by rising point, but not that of the point that is passed over. Tells whether one was written.
pub fn sweep<G: Desk, A: Actuators, C: Clock>(
    desk: &G,
    pass: &mut G::Pass,
    devices: &mut A,
    clock: &mut C,
    now: &mut u64,
    guards: &mut [Guard],
    skipped: &Option<PointId>,
) -> Result<bool, WorkEnd>
    requires own { G.owns desk.now pass.old }
    requires long { length guards.old ≡ length (G.plant desk.now) }
    requires few { length guards.old ≤ most_points }
    requires soon { now.old ≤ last_moment }
    ensures own { G.owns desk.now pass.new }
    ensures parts { G.parts pass.new ≡ G.parts pass.old }
    ensures swept { IfOk result (Swept C.tells A.tells
        (record { own = entries_at (G.seen pass.old) (G.mine pass.old); given = C.given clock.old; whole = A.whole devices.old; calls = A.calls devices.old })
        (record { own = entries_at (G.seen pass.new) (G.mine pass.new); given = C.given clock.new; whole = A.whole devices.new; calls = A.calls devices.new })
        (record { now = now.old; guards = guards.old }) (due_from 0 skipped.now guards.old) (record { now = now.new; guards = guards.new }) []) }
    ensures cut { IfErr result (SweptCut C.tells A.tells
        (record { own = entries_at (G.seen pass.old) (G.mine pass.old); given = C.given clock.old; whole = A.whole devices.old; calls = A.calls devices.old })
        (record { own = entries_at (G.seen pass.new) (G.mine pass.new); given = C.given clock.new; whole = A.whole devices.new; calls = A.calls devices.new })
        (record { now = now.old; guards = guards.old }) (due_from 0 skipped.now guards.old)) }
    ensures long { length guards.new ≡ length guards.old }
    ensures soon { IfOk result (λ written. now.new ≤ last_moment) }
    ensures clock { IfOk result (λ written. C.faults clock.new ≡ C.faults clock.old) }
    ensures clock_cause { IfErr result (ClockCause (C.faults clock.old) (C.faults clock.new)) }
    ensures disk_cause { IfErr result (DiskCause (G.seen pass.new)) }
{
    let mut written = false;
    for place in 0..guards.len() {
        match try_place(desk, pass, devices, clock, now, guards, skipped, place) {
            Err(end) => return Err(end),
            Ok(one) => written |= one,
        }
    }
    Ok(written)
}

/// Tries a want that was given, in place of one that its point holds, and then those that the other points hold. Tells whether
/// one was written.
pub fn try_given<G: Desk, A: Actuators, C: Clock>(
    desk: &G,
    pass: &mut G::Pass,
    devices: &mut A,
    clock: &mut C,
    now: &mut u64,
    guards: &mut [Guard],
    want: &Due,
) -> Result<bool, WorkEnd>
    requires own { G.owns desk.now pass.old }
    requires known { want.now.point < length guards.old }
    requires long { length guards.old ≡ length (G.plant desk.now) }
    requires few { length guards.old ≤ most_points }
    requires soon { now.old ≤ last_moment }
    ensures own { G.owns desk.now pass.new }
    ensures parts { G.parts pass.new ≡ G.parts pass.old }
    ensures swept { IfOk result (Swept C.tells A.tells
        (record { own = entries_at (G.seen pass.old) (G.mine pass.old); given = C.given clock.old; whole = A.whole devices.old; calls = A.calls devices.old })
        (record { own = entries_at (G.seen pass.new) (G.mine pass.new); given = C.given clock.new; whole = A.whole devices.new; calls = A.calls devices.new })
        (record { now = now.old; guards = guards.old }) (want.now ∷ due_from 0 (Some want.now.point) guards.old) (record { now = now.new; guards = guards.new }) []) }
    ensures cut { IfErr result (SweptCut C.tells A.tells
        (record { own = entries_at (G.seen pass.old) (G.mine pass.old); given = C.given clock.old; whole = A.whole devices.old; calls = A.calls devices.old })
        (record { own = entries_at (G.seen pass.new) (G.mine pass.new); given = C.given clock.new; whole = A.whole devices.new; calls = A.calls devices.new })
        (record { now = now.old; guards = guards.old }) (want.now ∷ due_from 0 (Some want.now.point) guards.old)) }
    ensures long { length guards.new ≡ length guards.old }
    ensures soon { IfOk result (λ written. now.new ≤ last_moment) }
    ensures clock { IfOk result (λ written. C.faults clock.new ≡ C.faults clock.old) }
    ensures clock_cause { IfErr result (ClockCause (C.faults clock.old) (C.faults clock.new)) }
    ensures disk_cause { IfErr result (DiskCause (G.seen pass.new)) }
{
    let skipped = Some(want.point);
    let mut written = match try_want(desk, pass, devices, clock, now, guards, want) {
        Err(end) => return Err(end),
        Ok(written) => written,
    };
    match sweep(desk, pass, devices, clock, now, guards, &skipped) {
        Err(end) => Err(end),
        Ok(more) => {
            written |= more;
            Ok(written)
        }
    }
}
