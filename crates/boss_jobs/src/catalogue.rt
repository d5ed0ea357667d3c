ghost use Rattle.std.specs.Prelude.{◌≡◌, ◌<◌, ℕ, List, IfOk};
ghost use Rattle.std.specs.List.{position_from};
ghost use Rattle.boss_model.specs.Catalogue.{actuators};
ghost use Rattle.boss_points.specs.Seen.{seen};
ghost use Rattle.boss_scripts.specs.Devices.{HasDevices};
ghost use Rattle.boss_jobs.specs.Loads.{AsksFor, FaultOnly, Loads};
ghost use Rattle.boss_jobs.specs.Programs.{lacks_device, usable};

use boss_files::{FileBytes, FileFault, Files};
use boss_model::PointId;
use boss_points::{Catalogue, CatalogueRefusal, Point};
use std::alloc::Global;

/// How many bytes a catalogue's file may have.
const LONGEST_FILE: u64 = boss_model::LONGEST_FILE as u64;

/// Why a file gave no catalogue that can be used.
#[derive(Clone, Copy, Debug, PartialEq, Eq)]
pub enum Unusable {
    /// The file is there and was refused.
    Refused(CatalogueRefusal),
    /// The file is not there, or could not be read.
    FileFault,
    /// No memory was to be had.
    NoMemory,
}

/// The catalogue of a file, each of whose points is behind a driver that has one of so many devices.
pub fn load<F: Files>(
    alloc: Global,
    files: &mut F,
    name: &str,
    devices: usize,
) -> Result<Catalogue, Unusable>
    ensures loads { F.tells → Loads devices (F.holds files.old name.now) result }
    ensures known { IfOk result (λ catalogue. HasDevices devices (actuators catalogue)) }
    ensures asks { F.tells → AsksFor name.now (F.asked files.old) (F.asked files.new) result }
    ensures stays { F.tells → (file : List ℕ) → F.holds files.new file ≡ F.holds files.old file }
    ensures past { F.tells → (file : List ℕ) → F.past files.new file ≡ F.past files.old file }
    ensures cause { FaultOnly (F.faults files.old) (F.faults files.new) result }
{
    let bytes = match files.read(alloc, name, LONGEST_FILE) {
        Ok(FileBytes::Whole(bytes)) => bytes,
        Ok(FileBytes::Longer { length }) => {
            return Err(Unusable::Refused(CatalogueRefusal::TooLong { length }));
        }
        Err(FileFault::Failed) => return Err(Unusable::FileFault),
        Err(FileFault::NoMemory) => return Err(Unusable::NoMemory),
    };
    let catalogue = match Catalogue::read(alloc, bytes.slice()) {
        Ok(catalogue) => catalogue,
        Err(CatalogueRefusal::NoMemory) => return Err(Unusable::NoMemory),
        Err(refusal) => return Err(Unusable::Refused(refusal)),
    };
    match first_without_device(&catalogue, devices) {
        Some(place) => Err(Unusable::Refused(CatalogueRefusal::UnknownDriver { place })),
        None => Ok(catalogue),
    }
}

/// The first point whose driver has none of so many devices.
fn first_without_device(catalogue: &Catalogue, devices: usize) -> Option<u64>
    ensures { result ≡ position_from (lacks_device devices) 0 catalogue.now.points }
{
    for place in 0..catalogue.count() {
        if lacks_device(catalogue.point(PointId(place)), devices) {
            return Some(u64::from(place));
        }
    }
    None
}

/// Whether a point's driver has none of so many devices.
fn lacks_device(point: &Point, devices: usize) -> bool
    ensures { result ≡ lacks_device devices (seen point.now) }
{
    let driver = point.driver;
    driver.0 as usize >= devices
}
