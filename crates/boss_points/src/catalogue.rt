ghost use Rattle.std.specs.Prelude.{◌≡◌, ◌<◌, ◌≤◌, length, map, take, drop, true, slice_get, Some};
ghost use Rattle.std.specs.List.{AllByRecursion};
ghost use Rattle.toml.specs.View.{view};
ghost use Rattle.boss_model.specs.Catalogue.{actuators, place_of, fits};
ghost use Rattle.boss_model.specs.Limits.{most_drivers, most_points};
ghost use Rattle.boss_model.specs.Plants.{IsPlant};
ghost use Rattle.boss_model.specs.Sound.{DistinctNames};
ghost use Rattle.def_catalogue.specs.Canonical.{digest_of};
ghost use Rattle.boss_points.specs.Given.{Gives};
ghost use Rattle.boss_points.specs.Kept.{AreTimes};
ghost use Rattle.boss_points.specs.Reading.{catalogue_of, catalogue_in};
ghost use Rattle.boss_points.specs.Seen.{all_seen, seen};

use crate::digest::digest_of;
use crate::file::{array_at, at_most, table_of};
use crate::tables::{drivers_of, points_of};
use crate::{CatalogueRefusal, Key, Point};
use boss_model::{DriverId, LONGEST_FILE, MOST_DRIVERS, MOST_POINTS, Name, PointId};
use indexmap::IndexSet;
use std::alloc::Global;
use std::marker::Model;
use toml::Value;

/// The points that `bossd` commands and the drivers of their devices, each by its place in the file, from 0.
/// A contract sees it as these two lists.
#[derive(Debug, Drop)]
pub struct Catalogue {
    drivers: Vec<Name>,
    points: Vec<Point>,
    names: IndexSet<Vec<u8>>,
    digest: [u8; 32],
}

impl Model for Catalogue {
    ghost use Rattle.boss_model.specs.Catalogue.{Catalogue as Contents};
    ghost use Rattle.boss_points.specs.Kept.{IsKept};
    ghost use Rattle.boss_points.specs.Seen.{all_seen};

    ghost Value = { Contents };

    ghost view = { λ c. record { drivers = c.drivers.items; points = all_seen c.points.items } };

    ghost invariant = { λ c. IsKept c.drivers.items c.points.items c.names.keys c.digest };
}

impl Catalogue {
    /// The catalogue that a file spells, in TOML. Keys that mean nothing here are passed over.
    #[tactic(auto, unfolding(crate::specs::Reading::catalogue_of))]
    pub fn read(alloc: Global, bytes: &[u8]) -> Result<Catalogue, CatalogueRefusal>
        ensures { Gives (λ catalogue. catalogue) result (catalogue_of bytes.now) }
    {
        if bytes.len() > LONGEST_FILE {
            let length = bytes.len() as u64;
            return Err(CatalogueRefusal::TooLong { length });
        }
        let file = table_of(alloc, bytes)?;
        Catalogue::in_file(alloc, &file)
    }

    /// The catalogue that a file's table spells.
    fn in_file(alloc: Global, file: &Value) -> Result<Catalogue, CatalogueRefusal>
        ensures { Gives (λ catalogue. catalogue) result (catalogue_in (view file.now)) }
    {
        let drivers = array_at(file, "drivers").ok_or(CatalogueRefusal::Missing {
            key: Key::Drivers,
        })?;
        let points = array_at(file, "point").ok_or(CatalogueRefusal::Missing { key: Key::Point })?;
        at_most(MOST_DRIVERS, drivers)?;
        at_most(MOST_POINTS, points)?;
        let drivers = drivers_of(alloc, drivers)?;
        let (names, points) = points_of(alloc, &drivers, points)?;
        let digest = digest_of(&drivers, &points);
        Ok(Catalogue {
            drivers,
            points,
            names,
            digest,
        })
    }

    /// The point of this name.
    pub fn find(&self, name: &[u8]) -> Option<PointId>
        ensures { result ≡ place_of self.now name.now }
    {
        let place = self.names.get_index_of(name)?;
        Some(PointId(place as u32))
    }

    /// The point at this place.
    pub fn point(&self, id: PointId) -> &Point
        requires { id < length self.now.points }
        ensures point { slice_get self.now.points id ≡ Some (seen result.now) }
        ensures driver { result.now.driver < length self.now.drivers }
        ensures default { fits result.now.kind result.now.default ≡ true }
        ensures times { AreTimes result.now.kind result.now.min_on result.now.min_off }
    {
        &self.points[id.0 as usize]
    }

    /// The points from this place on, at most so many.
    pub fn page(&self, from: u64, most: u64) -> &[Point]
        ensures points { all_seen result.now ≡ take most (drop from self.now.points) }
        ensures few { length result.now ≤ most }
        ensures known { AllByRecursion (λ point. point.driver < length self.now.drivers) result.now }
    {
        front(behind(&self.points, from), most)
    }

    /// How many points there are: at most 4,096. Their names are all different.
    pub fn count(&self) -> u32
        ensures count { result ≡ length self.now.points }
        ensures few { result ≤ most_points }
        ensures plant { IsPlant (actuators self.now) }
        ensures apart { DistinctNames (map (λ point. point.name) self.now.points) }
    {
        self.points.len() as u32
    }

    /// How many drivers there are: at most 256.
    pub fn drivers(&self) -> u16
        ensures count { result ≡ length self.now.drivers }
        ensures few { result ≤ most_drivers }
    {
        self.drivers.len() as u16
    }

    /// The names of the drivers, by their places.
    pub fn driver_names(&self) -> &[Name]
        ensures names { result.now ≡ self.now.drivers }
        ensures few { length result.now ≤ most_drivers }
    {
        &self.drivers
    }

    /// The name of the driver at this place.
    pub fn driver_name(&self, id: DriverId) -> &Name
        requires { id < length self.now.drivers }
        ensures { slice_get self.now.drivers id ≡ Some result.now }
    {
        &self.drivers[id.0 as usize]
    }

    /// SHA-256 of the canonical text, which is the same for all files that spell this catalogue.
    pub fn digest(&self) -> [u8; 32]
        ensures { result ≡ digest_of self.now }
    {
        self.digest
    }
}

/// The points from this place on.
fn behind(points: &[Point], from: u64) -> &[Point]
    ensures { result.now ≡ drop from points.now }
{
    if from < points.len() as u64 {
        &points[from as usize..]
    } else {
        &[]
    }
}

/// The first points, at most so many.
fn front(points: &[Point], most: u64) -> &[Point]
    ensures points { result.now ≡ take most points.now }
    ensures few { length result.now ≤ most }
{
    if most < points.len() as u64 {
        &points[..most as usize]
    } else {
        points
    }
}
