ghost use Rattle.std.specs.Prelude.{◌≡◌, ◌≤◌, ◌<◌, length, option_copied, position, IfSome};
ghost use Rattle.std.specs.Str.{bytes_eq};
ghost use Rattle.toml.specs.View.{view};
ghost use Rattle.boss_model.specs.Limits.{most_drivers};
ghost use Rattle.boss_points.specs.Keys.{name_spelled, name_of, kind_of, analog, analog_of, multi_of, default_of, driver_of, minimum, time_at, times_of, whole_at, text_at};

use boss_model::{DriverId, Kind, LONGEST_MINIMUM, Name};
use toml::Value;

/// The least limit that an analog point may have, in thousandths of its unit.
const LEAST_LIMIT: i64 = -1_000_000_000_000_000;

/// The greatest limit that an analog point may have, in thousandths of its unit.
const GREATEST_LIMIT: i64 = 1_000_000_000_000_000;

/// The name that a value spells.
pub(crate) fn name_spelled(value: &Value) -> Option<Name>
    ensures { result ≡ name_spelled (view value.now) }
{
    let text = value.as_str()?;
    Name::new(text.as_bytes())
}

/// The name of a point.
pub(crate) fn name_of(point: &Value) -> Option<Name>
    ensures { result ≡ name_of (view point.now) }
{
    name_spelled(point.get("name")?)
}

/// The kind of a point, with the bounds that belong to it.
pub(crate) fn kind_of(point: &Value) -> Option<Kind>
    ensures { result ≡ kind_of (view point.now) }
{
    match text_at(point, "kind")? {
        "analog" => analog_of(point),
        "binary" => Some(Kind::Binary),
        "multi" => multi_of(point),
        _ => None,
    }
}

/// The kind of an analog point: two whole limits, in order.
fn analog_of(point: &Value) -> Option<Kind>
    ensures { result ≡ analog_of (view point.now) }
{
    let min = whole_at(point, "min")?;
    let max = whole_at(point, "max")?;
    if LEAST_LIMIT <= min && min <= max && max <= GREATEST_LIMIT {
        Some(Kind::Analog { min, max })
    } else {
        None
    }
}

/// The kind of a point of several states: how many there are, 2 to 255.
fn multi_of(point: &Value) -> Option<Kind>
    ensures { result ≡ multi_of (view point.now) }
{
    let states = whole_at(point, "states")?;
    if 2 <= states && states <= 255 {
        Some(Kind::Multi { states })
    } else {
        None
    }
}

/// The default of a point, if it fits the point's kind.
pub(crate) fn default_of(point: &Value) -> Option<i64>
    ensures { result ≡ default_of (view point.now) }
{
    let kind = kind_of(point)?;
    let default = whole_at(point, "default")?;
    if kind.fits(default) {
        Some(default)
    } else {
        None
    }
}

/// The driver of a point, by its place among the drivers.
pub(crate) fn driver_of(drivers: &[Name], point: &Value) -> Option<DriverId>
    requires { length drivers.now ≤ most_drivers }
    ensures { result ≡ driver_of drivers.now (view point.now) }
{
    let name = text_at(point, "driver")?;
    let place = place_among(drivers, name.as_bytes())?;
    Some(DriverId(place as u16))
}

/// The minimum times of a point, on and off.
pub(crate) fn times_of(point: &Value) -> Option<(i64, i64)>
    ensures { result ≡ times_of (view point.now) }
{
    let kind = kind_of(point)?;
    let on = time_at(point, kind, "min_on")?;
    let off = time_at(point, kind, "min_off")?;
    Some((on, off))
}

/// The minimum time under a key of a point of this kind: 0 where the key is missing.
fn time_at(point: &Value, kind: Kind, key: &str) -> Option<i64>
    ensures { result ≡ time_at kind key.now (view point.now) }
{
    match point.get(key) {
        Some(value) => minimum(value, kind),
        None => Some(0),
    }
}

/// The minimum time that a value spells, if a point of this kind may have one.
fn minimum(value: &Value, kind: Kind) -> Option<i64>
    ensures { result ≡ minimum kind (view value.now) }
{
    let time = value.as_integer()?;
    if kind == Kind::Binary && 0 <= time && time <= LONGEST_MINIMUM {
        Some(time)
    } else {
        None
    }
}

/// Where the name stands among these.
fn place_among(names: &[Name], name: &[u8]) -> Option<usize>
    ensures place { result ≡ position (λ other. bytes_eq other name.now) names.now }
    ensures within { IfSome result (λ place. place < length names.now) }
{
    names.iter().position(|other| other.bytes() == name)
}

/// The text under a key of a point.
fn text_at<'a>(point: &'a Value, key: &str) -> Option<&'a str>
    ensures { option_copied result ≡ text_at key.now (view point.now) }
{
    point.get(key)?.as_str()
}

/// The whole number under a key of a point.
fn whole_at(point: &Value, key: &str) -> Option<i64>
    ensures { result ≡ whole_at key.now (view point.now) }
{
    point.get(key)?.as_integer()
}
