ghost use Rattle.std.specs.Prelude.{◌≡◌, ◌≤◌, ◌<◌, length, map, option_map, All, IfOk};
ghost use Rattle.boss_model.specs.Catalogue.{place_of};
ghost use Rattle.boss_model.specs.Limits.{most_writes};
ghost use Rattle.def_wire.specs.Requests.{each_from, point_at, points_of, text_at};
ghost use Rattle.boss_requests.specs.Given.{Gives, fault, fault_of, told_or};
ghost use Rattle.boss_requests.specs.Seen.{point_in};

use crate::ReadRefusal;
use crate::refusal::malformed;
use boss_json::JsonValue;
use boss_model::{Items, PointId, Refusal, Spot};
use boss_points::Catalogue;
use std::alloc::Global;

/// The point of this name, the one at this place among the names of the request, from 0.
#[inline(always)]
pub(crate) fn point_at(
    catalogue: &Catalogue,
    index: u32,
    name: &[u8],
) -> Result<PointId, ReadRefusal>
    ensures point { Gives (λ point. point) result (point_at catalogue.now index name.now) }
    ensures known { IfOk result (λ point. point < length catalogue.now.points) }
{
    match found(catalogue, name) {
        Some(point) => Ok(point),
        None => Err(ReadRefusal::Refused(Refusal::UnknownPoint { index })),
    }
}

/// The point of this name. The search stands apart: what it tells is a number, and no refusal has to be made room for.
#[inline(never)]
fn found(catalogue: &Catalogue, name: &[u8]) -> Option<PointId>
    ensures { result ≡ place_of catalogue.now name.now }
{
    catalogue.find(name)
}

/// The points that texts name.
#[inline(always)]
pub(crate) fn points_named<V: JsonValue>(
    alloc: Global,
    catalogue: &Catalogue,
    values: &[V],
) -> Result<Items<PointId>, ReadRefusal>
    requires { length values.now ≤ most_writes }
    ensures points { Gives (λ points. points) result (points_of catalogue.now (map V.meaning values.now)) }
    ensures known { IfOk result (λ points. All (λ point. point < length catalogue.now.points) points) }
    ensures few { IfOk result (λ points. length points ≤ most_writes) }
{
    match known_points(alloc, catalogue, values) {
        Ok(points) => Ok(points),
        Err(why) => Err(why_no_points(values, why)),
    }
}

/// What is wrong with values that name no known points: that one of them is no text, or else what was found first.
fn why_no_points<V: JsonValue>(values: &[V], first: ReadRefusal) -> ReadRefusal
    requires { length values.now ≤ most_writes }
    ensures { result ≡ told_or (fault_of (each_from text_at 0 (map V.meaning values.now))) first }
{
    match first_fault(values) {
        Some(spot) => malformed(spot),
        None => first,
    }
}

/// Where the first of the values stands that is no text.
fn first_fault<V: JsonValue>(values: &[V]) -> Option<Spot>
    requires { length values.now ≤ most_writes }
    ensures { option_map fault result ≡ fault_of (each_from text_at 0 (map V.meaning values.now)) }
{
    for (at, value) in values.iter().enumerate() {
        if value.text().is_none() {
            let place = at as u32;
            return Some(Spot::Named { place });
        }
    }
    None
}

/// The points that values name, or what is wrong with the first of them that is no text or names none.
fn known_points<V: JsonValue>(
    alloc: Global,
    catalogue: &Catalogue,
    values: &[V],
) -> Result<Items<PointId>, ReadRefusal>
    requires { length values.now ≤ most_writes }
    ensures points { Gives (λ points. points) result (each_from (point_in catalogue.now) 0 (map V.meaning values.now)) }
    ensures known { IfOk result (λ points. All (λ point. point < length catalogue.now.points) points) }
    ensures few { IfOk result (λ points. length points ≤ most_writes) }
{
    let mut points = Items::from_vec(Vec::with_capacity(alloc, values.len())?);
    for (at, value) in values.iter().enumerate() {
        let point = point_in(catalogue, at as u32, value)?;
        points.try_push(point)?;
    }
    Ok(points)
}

/// The point that a value names, the one at this place among the names of the request, from 0.
fn point_in<V: JsonValue>(
    catalogue: &Catalogue,
    index: u32,
    value: &V,
) -> Result<PointId, ReadRefusal>
    ensures point { Gives (λ point. point) result (point_in catalogue.now index (V.meaning value.now)) }
    ensures known { IfOk result (λ point. point < length catalogue.now.points) }
{
    let name = value.text().ok_or(malformed(Spot::Named { place: index }))?;
    point_at(catalogue, index, name)
}
