ghost use Rattle.std.specs.Prelude.{◌≡◌, ◌≤◌, ◌<◌, length, map, option_map, All, IfOk};
ghost use Rattle.boss_model.specs.Limits.{most_writes};
ghost use Rattle.def_wire.specs.Requests.{each_from, revert_of, settings_of, step_at, steps_of, write_at};
ghost use Rattle.boss_requests.specs.Given.{Gives, Spells, fault, fault_of, told_or};
ghost use Rattle.boss_requests.specs.Seen.{setting_in};

use crate::ReadRefusal;
use crate::keys::{priority_of, text_under, whole_under};
use crate::points::point_at;
use crate::refusal::{in_write, malformed};
use boss_json::JsonValue;
use boss_model::{Items, Key, Setting, Spot, Step};
use boss_points::Catalogue;
use std::alloc::Global;

/// The writes that values spell.
pub(crate) fn settings_in<V: JsonValue>(
    alloc: Global,
    catalogue: &Catalogue,
    values: &[V],
) -> Result<Items<Setting>, ReadRefusal>
    requires { length values.now ≤ most_writes }
    ensures settings { Gives (λ settings. settings) result (settings_of catalogue.now (map V.meaning values.now)) }
    ensures known { IfOk result (λ settings. All (λ setting. setting.point < length catalogue.now.points) settings) }
    ensures count { IfOk result (λ settings. length settings ≡ length values.now) }
{
    match known_settings(alloc, catalogue, values) {
        Ok(settings) => Ok(settings),
        Err(why) => Err(why_no_settings(values, why)),
    }
}

/// What is wrong with values that are no writes of known points: that one of them spells no write, or else what was found
/// first.
fn why_no_settings<V: JsonValue>(values: &[V], first: ReadRefusal) -> ReadRefusal
    requires { length values.now ≤ most_writes }
    ensures { result ≡ told_or (fault_of (each_from write_at 0 (map V.meaning values.now))) first }
{
    match first_fault(values) {
        Some(spot) => malformed(spot),
        None => first,
    }
}

/// The writes that values spell, or what is wrong with the first of them that is no write of a known point.
fn known_settings<V: JsonValue>(
    alloc: Global,
    catalogue: &Catalogue,
    values: &[V],
) -> Result<Items<Setting>, ReadRefusal>
    requires { length values.now ≤ most_writes }
    ensures settings { Gives (λ settings. settings) result (each_from (setting_in catalogue.now) 0 (map V.meaning values.now)) }
    ensures known { IfOk result (λ settings. All (λ setting. setting.point < length catalogue.now.points) settings) }
    ensures count { IfOk result (λ settings. length settings ≡ length values.now) }
{
    let mut settings = Items::from_vec(Vec::with_capacity(alloc, values.len())?);
    for (at, value) in values.iter().enumerate() {
        let setting = setting_in(alloc, catalogue, at as u32, value)?;
        settings.try_push(setting)?;
    }
    Ok(settings)
}

/// The write that a value spells, the one at this place among the writes of the request, from 0.
fn setting_in<V: JsonValue>(
    alloc: Global,
    catalogue: &Catalogue,
    index: u32,
    value: &V,
) -> Result<Setting, ReadRefusal>
    ensures setting { Gives (λ setting. setting) result (setting_in catalogue.now index (V.meaning value.now)) }
    ensures known { IfOk result (λ setting. setting.point < length catalogue.now.points) }
{
    let name = text_under(value, "point").ok_or(in_write(index, Key::Point))?;
    let set_point = whole_under(value, "value").ok_or(in_write(index, Key::Value))?;
    let priority = priority_of(value).ok_or(in_write(index, Key::Priority))?;
    let lease = whole_under(value, "lease").ok_or(in_write(index, Key::Lease))?;
    let revert = reversion_of(alloc, index, value)?;
    let point = point_at(catalogue, index, name)?;
    Ok(Setting {
        point,
        value: set_point,
        priority,
        lease,
        revert,
    })
}

/// Where the first of the values is at fault that spells no write, whatever its point.
fn first_fault<V: JsonValue>(values: &[V]) -> Option<Spot>
    requires { length values.now ≤ most_writes }
    ensures { option_map fault result ≡ fault_of (each_from write_at 0 (map V.meaning values.now)) }
{
    for (at, value) in values.iter().enumerate() {
        if let Some(spot) = fault_in(at as u32, value) {
            return Some(spot);
        }
    }
    None
}

/// Where a value is at fault that spells no write, whatever its point; the one at this place among the writes, from 0.
fn fault_in<V: JsonValue>(place: u32, value: &V) -> Option<Spot>
    ensures { option_map fault result ≡ fault_of (write_at place (V.meaning value.now)) }
{
    if text_under(value, "point").is_none() {
        return Some(Spot::Write {
            place,
            key: Key::Point,
        });
    }
    if whole_under(value, "value").is_none() {
        return Some(Spot::Write {
            place,
            key: Key::Value,
        });
    }
    if priority_of(value).is_none() {
        return Some(Spot::Write {
            place,
            key: Key::Priority,
        });
    }
    if whole_under(value, "lease").is_none() {
        return Some(Spot::Write {
            place,
            key: Key::Lease,
        });
    }
    fault_in_reversion(place, value)
}

/// Where the reversion of the write at this place is at fault.
fn fault_in_reversion<V: JsonValue>(write: u32, value: &V) -> Option<Spot>
    ensures { option_map fault result ≡ fault_of (revert_of write (V.meaning value.now)) }
{
    match value.under("revert") {
        Some(found) => fault_in_list(write, found),
        None => None,
    }
}

/// Where a value is at fault that is no list of steps.
fn fault_in_list<V: JsonValue>(write: u32, value: &V) -> Option<Spot>
    ensures { option_map fault result ≡ fault_of (steps_of write (V.meaning value.now)) }
{
    match value.list() {
        Some(items) => fault_in_steps(write, items),
        None => Some(Spot::Write {
            place: write,
            key: Key::Revert,
        }),
    }
}

/// Where the first of the values is at fault that is no step.
fn fault_in_steps<V: JsonValue>(write: u32, values: &[V]) -> Option<Spot>
    ensures { option_map fault result ≡ fault_of (each_from (step_at write) 0 (map V.meaning values.now)) }
{
    for (at, value) in values.iter().enumerate() {
        if let Err(spot) = step_in(write, at as u64, value) {
            return Some(spot);
        }
    }
    None
}

/// The reversion of the write at this place.
#[inline(always)]
fn reversion_of<V: JsonValue>(
    alloc: Global,
    write: u32,
    value: &V,
) -> Result<Items<Step>, ReadRefusal>
    ensures { Gives (λ steps. steps) result (revert_of write (V.meaning value.now)) }
{
    match value.under("revert") {
        Some(found) => {
            let items = found.list().ok_or(in_write(write, Key::Revert))?;
            steps_in(alloc, write, items)
        }
        None => Ok(Items::new(alloc)),
    }
}

/// The steps that values spell.
fn steps_in<V: JsonValue>(
    alloc: Global,
    write: u32,
    values: &[V],
) -> Result<Items<Step>, ReadRefusal>
    ensures { Gives (λ steps. steps) result (each_from (step_at write) 0 (map V.meaning values.now)) }
{
    let mut steps = Items::from_vec(Vec::with_capacity(alloc, values.len())?);
    for (at, value) in values.iter().enumerate() {
        match step_in(write, at as u64, value) {
            Ok(step) => steps.try_push(step)?,
            Err(spot) => return Err(malformed(spot)),
        }
    }
    Ok(steps)
}

/// The step that a value spells, a value and a hold, or where it is at fault; the one at this place in the reversion of a write.
fn step_in<V: JsonValue>(write: u32, place: u64, value: &V) -> Result<Step, Spot>
    ensures { Spells result (step_at write place (V.meaning value.now)) }
{
    match value.list() {
        Some([value, hold]) => {
            let value = value.whole().ok_or(Spot::Half {
                write,
                place,
                half: 0,
            })?;
            let hold = hold.whole().ok_or(Spot::Half {
                write,
                place,
                half: 1,
            })?;
            Ok(Step { value, hold })
        }
        _ => Err(Spot::Step { write, place }),
    }
}
