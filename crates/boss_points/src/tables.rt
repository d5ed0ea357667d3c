ghost use Rattle.std.specs.Prelude.{◌≡◌, ◌≤◌, [], ◌∷◌, ◌++◌, if◌then◌else◌, not, false, length, map, position, is_none, All, IfOk, IfErr};
ghost use Rattle.std.specs.List.{AllByRecursion, list_any, filter_map};
ghost use Rattle.std.specs.Str.{bytes_eq};
ghost use Rattle.toml.specs.View.{view};
ghost use Rattle.boss_model.specs.Limits.{most_drivers};
ghost use Rattle.boss_model.specs.Sound.{DistinctNames};
ghost use Rattle.boss_points.specs.declared.refusal.CatalogueRefusal.TheVariants.{BadDriver, SameName, NoMemory};
ghost use Rattle.boss_points.specs.Given.{Gives};
ghost use Rattle.boss_points.specs.Keys.{name_spelled, name_of, kind_of, default_of, driver_of, times_of, point_of};
ghost use Rattle.boss_points.specs.Kept.{IsWhole};
ghost use Rattle.boss_points.specs.Reading.{distinct, points_of};
ghost use Rattle.boss_points.specs.Seen.{views, texts};

use crate::keys::{default_of, driver_of, kind_of, name_of, name_spelled, times_of};
use crate::{CatalogueRefusal, Point};
use boss_model::Name;
use indexmap::IndexSet;
use std::alloc::Global;
use toml::Value;

/// The drivers, whose names are all different.
pub(crate) fn drivers_of(alloc: Global, values: &[Value]) -> Result<Vec<Name>, CatalogueRefusal>
    ensures drivers { Gives (λ drivers. drivers.items) result (distinct BadDriver (map name_spelled (views values.now))) }
    ensures few { IfOk result (λ drivers. length drivers.items ≤ length values.now) }
{
    let mut drivers = Vec::with_capacity(alloc, values.len())?;
    for (at, value) in values.iter().enumerate() {
        let place = at as u64;
        let refusal = CatalogueRefusal::BadDriver { place };
        let name = name_spelled(value).ok_or(refusal)?;
        if is_among(&drivers, name.bytes()) {
            return Err(refusal);
        }
        drivers.push(name)?;
    }
    Ok(drivers)
}

/// Whether the name is one of these.
fn is_among(names: &[Name], name: &[u8]) -> bool
    ensures { result ≡ list_any (bytes_eq name.now) names.now }
{
    names.iter().any(|other| name == other.bytes())
}

/// The names of the points, which are all different.
fn distinct_names(alloc: Global, points: &[Value]) -> Result<IndexSet<Vec<u8>>, CatalogueRefusal>
    ensures { Gives (λ names. texts names.keys) result (distinct SameName (map name_of (views points.now))) }
{
    let mut names = IndexSet::with_capacity(alloc, points.len())?;
    for (at, point) in points.iter().enumerate() {
        let place = at as u64;
        let refusal = CatalogueRefusal::SameName { place };
        let name = name_of(point).ok_or(refusal)?;
        if !is_added(alloc, &mut names, &name)? {
            return Err(refusal);
        }
    }
    Ok(names)
}

/// Adds a name, and tells whether it was new.
fn is_added(
    alloc: Global,
    names: &mut IndexSet<Vec<u8>>,
    name: &Name,
) -> Result<bool, CatalogueRefusal>
    ensures new { IfOk result (λ new. new ≡ not (list_any (bytes_eq name.now) (texts names.old.keys))) }
    ensures added { IfOk result (λ new. texts names.new.keys ≡ (if new then texts names.old.keys ++ name.now ∷ [] else texts names.old.keys)) }
    ensures memory { IfErr result (λ refusal. refusal ≡ NoMemory) }
{
    let key = Vec::from_slice(alloc, name.bytes())?;
    let new = names.insert(key)?;
    Ok(new)
}

/// The first point without a name.
fn first_without_name(points: &[Value]) -> Option<usize>
    ensures { result ≡ position (λ point. is_none (name_of (view point))) points.now }
{
    points.iter().position(|point| name_of(point).is_none())
}

/// The first point without a kind.
fn first_without_kind(points: &[Value]) -> Option<usize>
    ensures { result ≡ position (λ point. is_none (kind_of (view point))) points.now }
{
    points.iter().position(|point| kind_of(point).is_none())
}

/// The first point without a default that fits its kind.
fn first_without_default(points: &[Value]) -> Option<usize>
    ensures { result ≡ position (λ point. is_none (default_of (view point))) points.now }
{
    points.iter().position(|point| default_of(point).is_none())
}

/// The first point without one of these drivers.
fn first_without_driver(drivers: &[Name], points: &[Value]) -> Option<usize>
    requires { length drivers.now ≤ most_drivers }
    ensures { result ≡ position (λ point. is_none (driver_of drivers.now (view point))) points.now }
{
    points
        .iter()
        .position(|point| driver_of(drivers, point).is_none())
}

/// The first point with a minimum time that it may not have.
fn first_without_times(points: &[Value]) -> Option<usize>
    ensures { result ≡ position (λ point. is_none (times_of (view point))) points.now }
{
    points.iter().position(|point| times_of(point).is_none())
}

/// The point that a table spells.
fn point_of(drivers: &[Name], point: &Value) -> Option<Point>
    requires { length drivers.now ≤ most_drivers }
    ensures { result ≡ point_of drivers.now (view point.now) }
{
    let name = name_of(point)?;
    let kind = kind_of(point)?;
    let default = default_of(point)?;
    let driver = driver_of(drivers, point)?;
    let (min_on, min_off) = times_of(point)?;
    Some(Point {
        name,
        kind,
        default,
        driver,
        min_on,
        min_off,
    })
}

/// The points that the tables spell, each of which has passed the tests.
fn all_points(
    alloc: Global,
    drivers: &[Name],
    tables: &[Value],
) -> Result<Vec<Point>, CatalogueRefusal>
    requires few { length drivers.now ≤ most_drivers }
    requires passed { AllByRecursion (λ table. is_none (point_of drivers.now table) ≡ false) (views tables.now) }
    ensures points { IfOk result (λ points. points.items ≡ filter_map (point_of drivers.now) (views tables.now)) }
    ensures few { IfOk result (λ points. length points.items ≤ length tables.now) }
    ensures memory { IfErr result (λ refusal. refusal ≡ NoMemory) }
{
    let mut points = Vec::with_capacity(alloc, tables.len())?;
    for table in tables {
        let Some(point) = point_of(drivers, table) else {
            unreachable!()
        };
        points.push(point)?;
    }
    Ok(points)
}

/// The names and the points of the tables, once each has passed the tests in their order.
#[tactic(auto, using(crate::proofs::Views::position_in_views))]
pub(crate) fn points_of(
    alloc: Global,
    drivers: &[Name],
    tables: &[Value],
) -> Result<(IndexSet<Vec<u8>>, Vec<Point>), CatalogueRefusal>
    requires { length drivers.now ≤ most_drivers }
    ensures points { Gives (λ found. found.1.items) result (points_of drivers.now (views tables.now)) }
    ensures names { IfOk result (λ found. texts found.0.keys ≡ map (λ point. point.name) found.1.items) }
    ensures apart { IfOk result (λ found. DistinctNames (map (λ point. point.name) found.1.items)) }
    ensures whole { IfOk result (λ found. All (IsWhole (length drivers.now)) found.1.items) }
    ensures few { IfOk result (λ found. length found.1.items ≤ length tables.now) }
{
    if let Some(place) = first_without_name(tables) {
        let place = place as u64;
        return Err(CatalogueRefusal::BadName { place });
    }
    let names = distinct_names(alloc, tables)?;
    if let Some(place) = first_without_kind(tables) {
        let place = place as u64;
        return Err(CatalogueRefusal::BadKind { place });
    }
    if let Some(place) = first_without_default(tables) {
        let place = place as u64;
        return Err(CatalogueRefusal::BadDefault { place });
    }
    if let Some(place) = first_without_driver(drivers, tables) {
        let place = place as u64;
        return Err(CatalogueRefusal::UnknownDriver { place });
    }
    if let Some(place) = first_without_times(tables) {
        let place = place as u64;
        return Err(CatalogueRefusal::BadTimes { place });
    }
    let points = all_points(alloc, drivers, tables)?;
    Ok((names, points))
}
