ghost use Rattle.std.specs.Prelude.{◌≡◌, ◌≤◌, length, IfOk};
ghost use Rattle.boss_model.specs.Limits.{most_points};
ghost use Rattle.def_guards.specs.Guards.{guards_of, is_guarded, is_guarded_at};
ghost use Rattle.boss_outside_server.specs.Pauses.{drive_pause, held_pause};
ghost use Rattle.boss_guard.specs.Resting.{is_holding, rest_of};
ghost use Rattle.boss_points.specs.Seen.{seen as seen_point};

use boss_model::{DriverId, NoMemory, PointId};
use boss_outside_server::{DRIVE_PAUSE, HELD_PAUSE};
use boss_points::{Catalogue, Point};
use def_guards::Guard;
use std::alloc::Global;

/// Whether a point of the driver has a minimum time.
pub fn is_guarded(catalogue: &Catalogue, driver: DriverId) -> bool
    ensures { result ≡ is_guarded catalogue.now driver }
{
    for place in 0..catalogue.count() {
        if is_guarded_at(catalogue.point(PointId(place)), driver) {
            return true;
        }
    }
    false
}

/// Whether the point is one of the driver and has a minimum time.
fn is_guarded_at(point: &Point, driver: DriverId) -> bool
    ensures { result ≡ is_guarded_at driver (seen_point point.now) }
{
    point.driver == driver && (point.min_on != 0 || point.min_off != 0)
}

/// A guard for each point of the catalogue, before its first write.
pub fn guards_of(alloc: Global, catalogue: &Catalogue) -> Result<Vec<Guard>, NoMemory>
    ensures guards { IfOk result (λ guards. guards.items ≡ guards_of catalogue.now) }
    ensures few { IfOk result (λ guards. length guards.items ≤ most_points) }
{
    let mut guards = Vec::new(alloc);
    for place in 0..catalogue.count() {
        let point = catalogue.point(PointId(place));
        guards.push(Guard::new(point.min_on, point.min_off))?;
    }
    Ok(guards)
}

/// How long a worker pauses that wrote nothing, in milliseconds: not long where a want is held, since a lease may make it free.
pub(crate) fn rest_of(guards: &[Guard]) -> u64
    ensures rest { result ≡ rest_of guards.now }
    ensures least { held_pause ≤ result }
    ensures most { result ≤ drive_pause }
{
    if is_holding(guards) {
        HELD_PAUSE
    } else {
        DRIVE_PAUSE
    }
}

/// Whether a want is held.
fn is_holding(guards: &[Guard]) -> bool
    ensures { result ≡ is_holding guards.now }
{
    guards.iter().any(|guard| guard.held.is_some())
}
