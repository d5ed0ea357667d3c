//! Which bell a worker is woken by.
ghost use Rattle.std.specs.Prelude.{◌≡◌, ◌<◌};
ghost use Rattle.boss_outside.specs.Bells.{bells, driver_bell, mixed, name_bell, name_bells, time_bell};
ghost use Rattle.boss_model.specs.Limits.{most_drivers};

use boss_model::{DriverId, MOST_DRIVERS, Name};

/// The bell of the worker for time.
pub const TIME_BELL: u32 = 0;

/// How many bells those share who wait for notices of a process.
const NAME_BELLS: u32 = 4_096;

/// The first bell of those who wait for notices of a process, behind those of time and of the drivers.
const FIRST_NAME_BELL: u32 = 1 + MOST_DRIVERS as u32;

/// How many bells there are.
pub const BELLS: u32 = FIRST_NAME_BELL + NAME_BELLS;

/// The bell of the worker for time, and the number of bells, are those of the definitions.
pub fn bells_are_those_of_the_definitions()
    ensures { (TIME_BELL ≡ time_bell) × (BELLS ≡ bells) }
{}

/// The bell of the worker for a driver.
pub fn driver_bell(driver: DriverId) -> u32
    ensures { result ≡ driver_bell driver }
{
    1 + u32::from(driver.0)
}

/// The bell of those who wait for notices of the process of this name. Processes may share one.
pub fn name_bell(name: &Name) -> u32
    ensures bell { result ≡ name_bell name.now }
    ensures few { result < bells }
{
    FIRST_NAME_BELL + mixed(name.bytes())
}

/// A number below the number of bells of names, for the bytes of a name.
fn mixed(bytes: &[u8]) -> u32
    ensures mixed { result ≡ mixed 0 bytes.now }
    ensures few { result < name_bells }
{
    let mut mixed = 0;
    for byte in bytes {
        mixed = (mixed * 31 + u32::from(*byte)) % NAME_BELLS;
    }
    mixed
}
