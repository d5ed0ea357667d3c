ghost use Rattle.std.specs.Prelude.{◌≡◌, true};
ghost use Rattle.boss_model.specs.Catalogue.{actuators};
ghost use Rattle.boss_outside_server.specs.Pauses.{drive_pause, held_pause};
ghost use Rattle.boss_lock.specs.Places.{entries_at};
ghost use Rattle.def_history.specs.History.{is_broken};
ghost use Rattle.def_lanes.specs.Waits.{PausedWithin};
ghost use Rattle.boss_worker.specs.declared.trouble.Trouble.TheVariants.{Disk};
ghost use Rattle.boss_worker.specs.Drove.{Drove, WasTold};
ghost use Rattle.boss_worker.specs.Troubles.{ClockTrouble};

use crate::Trouble;
use crate::trouble::{guard_trouble, work_trouble};
use boss_drive::drive;
use boss_guard::{guarded_drive, is_guarded};
use boss_model::DriverId;
use boss_outside::Actuators;
use boss_outside_server::{Clock, Waiter};
use boss_points::Catalogue;
use boss_shared::Desk;
use std::alloc::Global;

/// Drives the devices of a driver for so many turns, and keeps the minimum times of its points where one of them has any. Tells
/// what of its end concerns the server. Its waiter has not paused before.
pub(crate) fn drive_devices<G: Desk, A: Actuators, C: Clock, W: Waiter>(
    alloc: Global,
    desk: &G,
    pass: &mut G::Pass,
    catalogue: &Catalogue,
    driver: DriverId,
    devices: &mut A,
    clock: &mut C,
    waiter: &mut W,
    turns: u64,
) -> Trouble
    requires own { G.owns desk.now pass.old }
    requires plant { actuators catalogue.now ≡ G.plant desk.now }
    requires paused { W.tells → (W.waited waiter.old).pauses ≡ 0 }
    ensures own { G.owns desk.now pass.new }
    ensures parts { G.parts pass.new ≡ G.parts pass.old }
    ensures drove { Drove catalogue.now driver C.tells A.tells
        (record { own = entries_at (G.seen pass.old) (G.mine pass.old); given = C.given clock.old; whole = A.whole devices.old; calls = A.calls devices.old })
        (record { own = entries_at (G.seen pass.new) (G.mine pass.new); given = C.given clock.new; whole = A.whole devices.new; calls = A.calls devices.new })
        W.tells (W.waited waiter.new).pauses result }
    ensures waited { W.tells → PausedWithin held_pause drive_pause (W.waited waiter.old) (W.waited waiter.new) }
    ensures clock { ClockTrouble (C.faults clock.old) (C.faults clock.new) result }
    ensures disk { result ≡ Disk → is_broken (G.seen pass.new) ≡ true }
    ensures told { WasTold (entries_at (G.seen pass.old) (G.mine pass.old)) (entries_at (G.seen pass.new) (G.mine pass.new)) W.tells (W.waited waiter.new).closed turns result }
{
    if is_guarded(catalogue, driver) {
        guard_trouble(guarded_drive(
            alloc, desk, pass, catalogue, driver, devices, clock, waiter, turns,
        ))
    } else {
        work_trouble(drive(desk, pass, catalogue, driver, devices, clock, waiter, turns))
    }
}
