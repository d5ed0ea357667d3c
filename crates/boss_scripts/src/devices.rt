ghost use Rattle.std.specs.Prelude.{◌≡◌, ◌<◌, [], ◌∷◌, map, vec_len};
ghost use Rattle.std.specs.List.{AllByRecursion};
ghost use Rattle.boss_scripts.specs.Outside.{Answered};
ghost use Rattle.boss_scripts.specs.Runs.{gained};

use boss_model::{DriverId, PointId};
use boss_outside::Actuators;

/// Commands the device behind a driver to let a point take a value, and tells whether it took it.
pub fn command_device<A: Actuators>(
    devices: &mut Vec<A>,
    driver: DriverId,
    point: PointId,
    value: i64,
) -> bool
    requires { driver < vec_len devices.old }
    ensures len { vec_len devices.new ≡ vec_len devices.old }
    ensures answered { Answered (result ∷ []) (map A.faults devices.old.items) (map A.faults devices.new.items) }
    ensures calls { A.tells → AllByRecursion A.whole devices.new.items → AllByRecursion A.whole devices.old.items
        × (map A.calls devices.new.items
        ≡ gained driver (record { point = point; value = value; ok = result }) (map A.calls devices.old.items)) }
{
    devices[driver.0 as usize].write(point, value).is_ok()
}
