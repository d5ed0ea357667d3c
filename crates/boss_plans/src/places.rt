ghost use Rattle.std.specs.Prelude.{◌≡◌, ◌<◌, [], length, IfSome, IfErr, slice_get, Some};
ghost use Rattle.toml.specs.View.{view};
ghost use Rattle.boss_model.specs.Catalogue.{place_of};
ghost use Rattle.boss_points.specs.Seen.{seen, views};
ghost use Rattle.boss_plans.specs.Places.{place_spelled, place_in, is_placed};
ghost use Rattle.boss_plans.specs.Plans.{Gives, IsKnown, places_from, lacks_place, first_lacking};

use crate::PlanRefusal;
use crate::hosts::{Host, Terms, is_planned, terms_of};
use crate::keys::{interval_at, text_at};
use crate::objects::{unit_at, where_at};
use crate::wheres::suits;
use boss_model::{Place, PointId};
use boss_points::{Catalogue, Point};
use std::alloc::Global;
use toml::Value;

/// The places of these tables, no two of one point.
pub(crate) fn places_of(
    alloc: Global,
    catalogue: &Catalogue,
    hosts: &[Host],
    tables: &[Value],
) -> Result<Vec<Place>, PlanRefusal>
    ensures places { Gives (λ places. places.items) result (places_from catalogue.now hosts.now 0 [] (views tables.now)) }
    ensures known { IfErr result (IsKnown catalogue.now) }
{
    let mut places = Vec::with_capacity(alloc, tables.len())?;
    for (at, table) in tables.iter().enumerate() {
        let place = at as u64;
        let refusal = PlanRefusal::BadPlace { place };
        let found = place_in(catalogue, hosts, &places, table).ok_or(refusal)?;
        places.push(found)?;
    }
    Ok(places)
}

/// That place, where no earlier one is of its point, and it goes with that point.
fn place_in(
    catalogue: &Catalogue,
    hosts: &[Host],
    earlier: &[Place],
    table: &Value,
) -> Option<Place>
    ensures { result ≡ place_in catalogue.now hosts.now earlier.now (view table.now) }
{
    let name = text_at(table, "point")?;
    let id = catalogue.find(name.as_bytes())?;
    let point = catalogue.point(id);
    let terms = terms_of(hosts, point.driver)?;
    let place = place_spelled(id, terms, table)?;
    if is_placed(earlier, id) || !suits(point.kind, place.at) {
        return None;
    }
    Some(place)
}

/// The place that a table spells, of this point.
fn place_spelled(point: PointId, terms: Terms, table: &Value) -> Option<Place>
    ensures { result ≡ place_spelled point terms (view table.now) }
{
    let unit = unit_at(terms.speaks, table)?;
    let at = where_at(terms.speaks, table)?;
    let check = interval_at("check", terms.check, table)?;
    let again = interval_at("again", terms.again, table)?;
    Some(Place {
        point,
        unit,
        at,
        check,
        again,
    })
}

/// Whether the point has a place among these.
fn is_placed(places: &[Place], point: PointId) -> bool
    ensures { result ≡ is_placed places.now point }
{
    places.iter().any(|place| place.point == point)
}

/// The least point of a planned driver that has no place.
pub(crate) fn first_lacking(
    catalogue: &Catalogue,
    hosts: &[Host],
    places: &[Place],
) -> Option<PointId>
    ensures point { result ≡ first_lacking hosts.now places.now 0 catalogue.now.points }
    ensures within { IfSome result (λ point. point < length catalogue.now.points) }
{
    for id in 0..catalogue.count() {
        if lacks_place(hosts, places, PointId(id), catalogue.point(PointId(id))) {
            return Some(PointId(id));
        }
    }
    None
}

/// Whether a point's driver is planned, and the point has no place.
fn lacks_place(hosts: &[Host], places: &[Place], id: PointId, point: &Point) -> bool
    ensures { result ≡ lacks_place hosts.now places.now id (seen point.now) }
{
    is_planned(hosts, point.driver) && !is_placed(places, id)
}
