//! Where a place's table says that a point is written, where the driver speaks BACnet, and by either protocol.

ghost use Rattle.std.specs.Prelude.{◌≡◌, ◌≤◌, option_map};
ghost use Rattle.std.specs.Char.{is_ascii_digit};
ghost use Rattle.std.specs.List.{list_all};
ghost use Rattle.toml.specs.View.{view};
ghost use Rattle.boss_plans.specs.Objects.{has_form_key, has_modbus_key, has_object_key, has_scale_key, has_unit_key, instance_of, is_analog, is_instance, level_of, not_kept, object_at, object_in, object_named, object_of, object_scale, station_in, station_of, unit_at, where_at, where_in};

use crate::keys::{is_shift, natural_between, natural_in, offset_of, per_of, text_at, times_of};
use crate::wheres::{unit_of, where_of};
use boss_model::{Object, ObjectKind, Protocol, Round, Scale, Station, Where};
use toml::Value;

/// The greatest instance of an object.
const LAST_INSTANCE: u32 = 4_194_302;

/// The level that devices keep for their own minimum times.
const OF_MINIMUM_TIMES: u16 = 6;

/// The type of object of this name.
fn object_named(name: &str) -> Option<ObjectKind>
    ensures { result ≡ object_named name.now }
{
    match name {
        "analog-output" => Some(ObjectKind::AnalogOutput),
        "analog-value" => Some(ObjectKind::AnalogValue),
        "binary-output" => Some(ObjectKind::BinaryOutput),
        "binary-value" => Some(ObjectKind::BinaryValue),
        "multi-state-output" => Some(ObjectKind::MultiStateOutput),
        "multi-state-value" => Some(ObjectKind::MultiStateValue),
        _ => None,
    }
}

/// Whether a text is a number of up to seven digits, which does not begin with a 0 that stands for nothing.
fn is_instance(text: &str) -> bool
    ensures { result ≡ is_instance text.now }
{
    match text.as_bytes() {
        [] => false,
        [digit] => digit.is_ascii_digit(),
        [first, ..] => *first != b'0' && text.len() <= 7 && all_digits(text),
    }
}

/// Whether the text is decimal digits alone.
fn all_digits(text: &str) -> bool
    ensures { result ≡ list_all is_ascii_digit text.now }
{
    text.as_bytes().iter().all(|byte| byte.is_ascii_digit())
}

/// The instance that a text spells.
fn instance_of(text: &str) -> Option<u32>
    ensures { result ≡ instance_of text.now }
{
    if !is_instance(text) {
        return None;
    }
    match text.parse::<u32>() {
        Ok(instance) if instance <= LAST_INSTANCE => Some(instance),
        Ok(_) => None,
        Err(_) => None,
    }
}

/// The object of a type and an instance.
fn object_of(kind: &str, instance: &str) -> Option<Object>
    ensures { result ≡ object_of kind.now instance.now }
{
    let kind = object_named(kind)?;
    let instance = instance_of(instance)?;
    Some(Object { kind, instance })
}

/// The object that a text names: its type, a comma and its instance.
fn object_in(text: &str) -> Option<Object>
    ensures { result ≡ object_in text.now }
{
    match text.split_once(',') {
        Some((kind, instance)) => object_of(kind, instance),
        None => None,
    }
}

/// The level that a place is written at.
fn level_of(place: &Value) -> Option<u8>
    ensures { result ≡ level_of (view place.now) }
{
    let level = natural_between(1, 16, place.get("level")?)?;
    if level == OF_MINIMUM_TIMES {
        return None;
    }
    Some(level as u8)
}

/// The station of this network and address.
fn station_in(network: &Value, address: &Value) -> Option<Station>
    ensures { result ≡ station_in (view network.now) (view address.now) }
{
    let network = natural_between(1, 65_534, network)?;
    let address = natural_in(254, address)? as u8;
    Some(Station { network, address })
}

/// The station behind the host that has the object: none where neither key is there.
fn station_of(place: &Value) -> Option<Option<Station>>
    ensures { result ≡ station_of (view place.now) }
{
    match (place.get("network"), place.get("station")) {
        (None, None) => Some(None),
        (Some(network), Some(address)) => Some(Some(station_in(network, address)?)),
        (Some(_), None) | (None, Some(_)) => None,
    }
}

/// What an analog object has for a value.
fn object_scale(place: &Value) -> Option<Scale>
    ensures { result ≡ object_scale (view place.now) }
{
    let times = times_of(place)?;
    let per = per_of(place)?;
    let offset = offset_of(place)?;
    if !is_shift(offset, per) {
        return None;
    }
    Some(Scale {
        times,
        per,
        offset,
        round: Round::Down,
    })
}

fn is_analog(kind: ObjectKind) -> bool
    ensures { result ≡ is_analog kind }
{
    match kind {
        ObjectKind::AnalogOutput | ObjectKind::AnalogValue => true,
        ObjectKind::BinaryOutput
        | ObjectKind::BinaryValue
        | ObjectKind::MultiStateOutput
        | ObjectKind::MultiStateValue => false,
    }
}

/// Whether a place has a key of a scale.
fn has_scale_key(place: &Value) -> bool
    ensures { result ≡ has_scale_key (view place.now) }
{
    place.get("times").is_some() || place.get("per").is_some() || place.get("offset").is_some()
}

/// Whether a place has a key that says where in a unit it is.
fn has_unit_key(place: &Value) -> bool
    ensures { result ≡ has_unit_key (view place.now) }
{
    place.get("unit").is_some()
        || place.get("coil").is_some()
        || place.get("register").is_some()
        || place.get("function").is_some()
}

/// Whether a place has a key that says how a number stands in registers.
fn has_form_key(place: &Value) -> bool
    ensures { result ≡ has_form_key (view place.now) }
{
    place.get("type").is_some() || place.get("first").is_some() || place.get("round").is_some()
}

/// Whether a place has a key that no object has.
fn has_modbus_key(place: &Value) -> bool
    ensures { result ≡ has_modbus_key (view place.now) }
{
    has_unit_key(place) || has_form_key(place)
}

/// Whether a place has a key that only an object has.
fn has_object_key(place: &Value) -> bool
    ensures { result ≡ has_object_key (view place.now) }
{
    place.get("bacnet").is_some()
        || place.get("level").is_some()
        || place.get("network").is_some()
        || place.get("station").is_some()
}

/// Whether a place has a key that an object of this type has not.
fn not_kept(kind: ObjectKind, place: &Value) -> bool
    ensures { result ≡ not_kept kind (view place.now) }
{
    has_modbus_key(place) || (has_scale_key(place) && !is_analog(kind))
}

/// A place that is this object.
fn object_at(object: Object, place: &Value) -> Option<Where>
    ensures { result ≡ object_at object (view place.now) }
{
    let level = level_of(place)?;
    let station = station_of(place)?;
    let scale = object_scale(place)?;
    if not_kept(object.kind, place) {
        return None;
    }
    Some(Where::Object {
        object,
        level,
        station,
        scale,
    })
}

/// The object that a place is.
fn where_in(place: &Value) -> Option<Where>
    ensures { result ≡ where_in (view place.now) }
{
    object_at(object_in(text_at(place, "bacnet")?)?, place)
}

/// Where a place is, by what its driver's host speaks.
pub(crate) fn where_at(speaks: Protocol, place: &Value) -> Option<Where>
    ensures { result ≡ where_at speaks (view place.now) }
{
    match speaks {
        Protocol::Modbus => {
            if has_object_key(place) {
                return None;
            }
            where_of(place)
        }
        Protocol::Bacnet => where_in(place),
    }
}

/// The unit of a place, which no object has.
pub(crate) fn unit_at(speaks: Protocol, place: &Value) -> Option<u8>
    ensures { result ≡ unit_at speaks (view place.now) }
{
    match speaks {
        Protocol::Modbus => unit_of(place),
        Protocol::Bacnet => Some(0),
    }
}
