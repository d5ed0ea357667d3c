ghost use Rattle.std.specs.Prelude.{◌≡◌, ◌≤◌, IfOk, IfErr};
ghost use Rattle.boss_model.specs.Catalogue.{actuators};
ghost use Rattle.boss_model.specs.Limits.{last_moment};
ghost use Rattle.boss_outside_server.specs.Pauses.{drive_pause, held_pause};
ghost use Rattle.boss_lock.specs.Places.{entries_at};
ghost use Rattle.boss_drive.specs.Driving.{DiskCause};
ghost use Rattle.boss_drive.specs.Looks.{IsCutLook, IsFound, IsLook, IsOf};

use boss_expiry::{WorkEnd, work};
use boss_model::{Command, DriverId, PointId};
use boss_outside::{Actuators, Look};
use boss_outside_server::{DRIVE_PAUSE, HELD_PAUSE};
use boss_points::Catalogue;
use boss_shared::Desk;

/// Has the devices of a driver look after what they took, at a moment in milliseconds, and has a point that they name doubted,
/// where it is one of the driver. Tells for how long the worker pauses then, in milliseconds.
pub fn look_after<G: Desk, A: Actuators>(
    desk: &G,
    pass: &mut G::Pass,
    catalogue: &Catalogue,
    driver: DriverId,
    devices: &mut A,
    moment: u64,
) -> Result<u64, WorkEnd>
    requires own { G.owns desk.now pass.old }
    requires plant { actuators catalogue.now ≡ G.plant desk.now }
    requires soon { moment ≤ last_moment }
    ensures own { G.owns desk.now pass.new }
    ensures parts { G.parts pass.new ≡ G.parts pass.old }
    ensures looked { IfOk result (λ rest. IsLook (G.plant desk.now) driver moment (entries_at (G.seen pass.old) (G.mine pass.old)) (entries_at (G.seen pass.new) (G.mine pass.new))) }
    ensures cut { IfErr result (IsCutLook (G.plant desk.now) driver moment (entries_at (G.seen pass.old) (G.mine pass.old)) (entries_at (G.seen pass.new) (G.mine pass.new))) }
    ensures least { IfOk result (λ rest. held_pause ≤ rest) }
    ensures most { IfOk result (λ rest. rest ≤ drive_pause) }
    ensures disk_cause { IfErr result (DiskCause (G.seen pass.new)) }
    ensures calls { A.tells → A.calls devices.new ≡ A.calls devices.old }
    ensures whole { A.tells → A.whole devices.new → A.whole devices.old }
{
    match devices.look(moment) {
        Look::Quiet => Ok(rest_for(devices.rests(moment))),
        Look::Seen => Ok(HELD_PAUSE),
        Look::Doubt { point, differs } => {
            if !is_of_driver(catalogue, driver, point) {
                return Ok(HELD_PAUSE);
            }
            match doubt(desk, pass, driver, point, differs, moment) {
                Err(end) => Err(end),
                Ok(()) => Ok(HELD_PAUSE),
            }
        }
    }
}

/// For how long a worker pauses whose devices are not to be looked after for so long, in milliseconds.
fn rest_for(rests: u64) -> u64
    ensures least { held_pause ≤ result }
    ensures most { result ≤ drive_pause }
{
    if rests <= HELD_PAUSE {
        HELD_PAUSE
    } else if rests < DRIVE_PAUSE {
        rests
    } else {
        DRIVE_PAUSE
    }
}

/// Whether the point is there, and one of the driver.
fn is_of_driver(catalogue: &Catalogue, driver: DriverId, point: PointId) -> bool
    ensures { IsFound (actuators catalogue.now) driver point result }
{
    point.0 < catalogue.count() && catalogue.point(point).driver == driver
}

/// Has a point of the driver doubted.
fn doubt<G: Desk>(
    desk: &G,
    pass: &mut G::Pass,
    driver: DriverId,
    point: PointId,
    differs: bool,
    moment: u64,
) -> Result<(), WorkEnd>
    requires own { G.owns desk.now pass.old }
    requires soon { moment ≤ last_moment }
    requires of_driver { IsOf (G.plant desk.now) driver point }
    ensures own { G.owns desk.now pass.new }
    ensures parts { G.parts pass.new ≡ G.parts pass.old }
    ensures looked { IfOk result (λ done. IsLook (G.plant desk.now) driver moment (entries_at (G.seen pass.old) (G.mine pass.old)) (entries_at (G.seen pass.new) (G.mine pass.new))) }
    ensures cut { IfErr result (IsCutLook (G.plant desk.now) driver moment (entries_at (G.seen pass.old) (G.mine pass.old)) (entries_at (G.seen pass.new) (G.mine pass.new))) }
    ensures disk_cause { IfErr result (DiskCause (G.seen pass.new)) }
{
    match work(desk, pass, &Command::Doubt { point, differs }, moment) {
        Err(end) => Err(end),
        Ok(_) => Ok(()),
    }
}
