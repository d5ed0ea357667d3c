ghost use Rattle.std.specs.Prelude.{◌≡◌, ◌+◌, ◌<◌, ◌≤◌, ◌++◌, length, drop, IfOk, IfErr, IfSome};
ghost use Rattle.boss_model.specs.Limits.{last_moment, most_points};
ghost use Rattle.boss_lock.specs.Places.{entries_at};
ghost use Rattle.def_guards.specs.Acts.{due_from, is_skipped};
ghost use Rattle.boss_expiry.specs.Ends.{ClockCause};
ghost use Rattle.boss_drive.specs.Driving.{DiskCause};
ghost use Rattle.boss_guard.specs.Trying.{due_list, Placed, PlacedCut, TriedOne, TriedCut};

use crate::judging::{judge, write};
use boss_expiry::WorkEnd;
use boss_model::PointId;
use boss_outside::Actuators;
use boss_outside_server::Clock;
use boss_shared::Desk;
use def_guards::{Due, Guard, Held};

/// Writes the want if it may be written now, or else holds it, in place of one that its point held. Tells whether it was
/// written.
pub fn try_want<G: Desk, A: Actuators, C: Clock>(
    desk: &G,
    pass: &mut G::Pass,
    devices: &mut A,
    clock: &mut C,
    now: &mut u64,
    guards: &mut [Guard],
    want: &Due,
) -> Result<bool, WorkEnd>
    requires own { G.owns desk.now pass.old }
    requires known { want.now.point < length guards.old }
    requires long { length guards.old ≡ length (G.plant desk.now) }
    requires soon { now.old ≤ last_moment }
    ensures own { G.owns desk.now pass.new }
    ensures parts { G.parts pass.new ≡ G.parts pass.old }
    ensures tried { IfOk result (TriedOne C.tells A.tells
        (record { own = entries_at (G.seen pass.old) (G.mine pass.old); given = C.given clock.old; whole = A.whole devices.old; calls = A.calls devices.old })
        (record { own = entries_at (G.seen pass.new) (G.mine pass.new); given = C.given clock.new; whole = A.whole devices.new; calls = A.calls devices.new })
        (record { now = now.old; guards = guards.old }) want.now (record { now = now.new; guards = guards.new })) }
    ensures cut { IfErr result (TriedCut C.tells A.tells
        (record { own = entries_at (G.seen pass.old) (G.mine pass.old); given = C.given clock.old; whole = A.whole devices.old; calls = A.calls devices.old })
        (record { own = entries_at (G.seen pass.new) (G.mine pass.new); given = C.given clock.new; whole = A.whole devices.new; calls = A.calls devices.new })
        (record { now = now.old; guards = guards.old }) want.now) }
    ensures long { length guards.new ≡ length guards.old }
    ensures soon { IfOk result (λ written. now.new ≤ last_moment) }
    ensures clock { IfOk result (λ written. C.faults clock.new ≡ C.faults clock.old) }
    ensures clock_cause { IfErr result (ClockCause (C.faults clock.old) (C.faults clock.new)) }
    ensures disk_cause { IfErr result (DiskCause (G.seen pass.new)) }
{
    let place = want.point.0 as usize;
    let decided = *now;
    let free = match judge(desk, pass, &guards[place], want, decided) {
        Err(end) => return Err(end),
        Ok(free) => free,
    };
    if !free {
        let held = Held {
            version: want.version,
            value: want.value,
        };
        guards[place] = guards[place].holding(held);
        return Ok(false);
    }
    if let Err(end) = write(desk, pass, devices, clock, now, want) {
        return Err(end);
    }
    guards[place] = guards[place].written(want.value, decided);
    Ok(true)
}

/// Whether the point is the one that is passed over.
fn is_skipped(skipped: &Option<PointId>, place: usize) -> bool
    ensures { result ≡ is_skipped skipped.now place }
{
    match skipped {
        None => false,
        Some(point) => point.0 as usize == place,
    }
}

/// The want that the point at this place holds, if it holds one and is not passed over.
fn waiting(guards: &[Guard], skipped: &Option<PointId>, place: usize) -> Option<Due>
    requires known { place < length guards.now }
    requires few { length guards.now ≤ most_points }
    ensures due { due_from place skipped.now (drop place guards.now) ≡ due_list result ++ due_from (place + 1) skipped.now (drop (place + 1) guards.now) }
    ensures known { IfSome result (λ want. want.point ≡ place) }
{
    if is_skipped(skipped, place) {
        return None;
    }
    let held = guards[place].held?;
    Some(Due {
        point: PointId(place as u32),
        version: held.version,
        value: held.value,
    })
}

/// Tries the want that the point at this place holds, if it holds one and is not passed over. Tells whether it was written.
pub fn try_place<G: Desk, A: Actuators, C: Clock>(
    desk: &G,
    pass: &mut G::Pass,
    devices: &mut A,
    clock: &mut C,
    now: &mut u64,
    guards: &mut [Guard],
    skipped: &Option<PointId>,
    place: usize,
) -> Result<bool, WorkEnd>
    requires own { G.owns desk.now pass.old }
    requires known { place < length guards.old }
    requires long { length guards.old ≡ length (G.plant desk.now) }
    requires few { length guards.old ≤ most_points }
    requires soon { now.old ≤ last_moment }
    ensures own { G.owns desk.now pass.new }
    ensures parts { G.parts pass.new ≡ G.parts pass.old }
    ensures placed { IfOk result (Placed C.tells A.tells
        (record { own = entries_at (G.seen pass.old) (G.mine pass.old); given = C.given clock.old; whole = A.whole devices.old; calls = A.calls devices.old })
        (record { own = entries_at (G.seen pass.new) (G.mine pass.new); given = C.given clock.new; whole = A.whole devices.new; calls = A.calls devices.new })
        (record { now = now.old; guards = guards.old }) skipped.now place (record { now = now.new; guards = guards.new })) }
    ensures cut { IfErr result (PlacedCut C.tells A.tells
        (record { own = entries_at (G.seen pass.old) (G.mine pass.old); given = C.given clock.old; whole = A.whole devices.old; calls = A.calls devices.old })
        (record { own = entries_at (G.seen pass.new) (G.mine pass.new); given = C.given clock.new; whole = A.whole devices.new; calls = A.calls devices.new })
        (record { now = now.old; guards = guards.old }) skipped.now place) }
    ensures long { length guards.new ≡ length guards.old }
    ensures soon { IfOk result (λ written. now.new ≤ last_moment) }
    ensures clock { IfOk result (λ written. C.faults clock.new ≡ C.faults clock.old) }
    ensures clock_cause { IfErr result (ClockCause (C.faults clock.old) (C.faults clock.new)) }
    ensures disk_cause { IfErr result (DiskCause (G.seen pass.new)) }
{
    match waiting(guards, skipped, place) {
        None => Ok(false),
        Some(want) => try_want(desk, pass, devices, clock, now, guards, &want),
    }
}
