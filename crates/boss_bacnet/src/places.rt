ghost use Rattle.std.specs.Prelude.{◌≡◌, ◌≤◌, IfSome};
ghost use Rattle.boss_bacnet.specs.Places.{AsksAt, AsksFor, bits_in, Forms, find_place, IsReal, place_of, state_within, what_is};

use crate::asked::{Asked, Value, What};
use crate::frames::LAST_INSTANCE;
use boss_model::{DriverPlan, Form, Half, ObjectKind, Place, PointId, Scale, Where};
use boss_numbers::{Words, words_of};

/// What a device is asked for.
#[derive(Clone, Copy, Debug, PartialEq, Eq)]
pub enum Purpose {
    /// To take a value.
    Write,
    /// Whether it has the value.
    Check,
}

/// What is asked for a value of a point, where the point is an object and the value has a form there.
pub fn asked_of(
    part: &Option<DriverPlan>,
    purpose: Purpose,
    point: PointId,
    value: i64,
) -> Option<Asked>
    ensures asks { AsksFor part.now purpose point value result }
    ensures within { IfSome result (λ asked. asked.object.instance ≤ 4194302) }
{
    let place = find_place(part, point)?;
    asked_at(purpose, place.at, value)
}

/// The place of a point, where a part was assigned and it has one in it.
pub fn find_place(part: &Option<DriverPlan>, point: PointId) -> Option<Place>
    ensures { result ≡ find_place part.now point }
{
    match part {
        Some(part) => place_of(part.places.slice(), point),
        None => None,
    }
}

/// The place of a point among these.
fn place_of(places: &[Place], point: PointId) -> Option<Place>
    ensures { result ≡ place_of places.now point }
{
    places.iter().copied().find(|place| place.point == point)
}

/// What is asked for a value at this place.
fn asked_at(purpose: Purpose, at: Where, value: i64) -> Option<Asked>
    ensures asks { AsksAt purpose at value result }
    ensures within { IfSome result (λ asked. asked.object.instance ≤ 4194302) }
{
    match at {
        Where::Coil { .. } | Where::Register { .. } => None,
        Where::Object {
            object,
            level,
            station,
            scale,
        } => {
            let value = value_at(object.kind, scale, value)?;
            if object.instance > LAST_INSTANCE {
                return None;
            }
            Some(Asked {
                remote: station,
                object,
                what: what_is(purpose, value, level),
            })
        }
    }
}

fn what_is(purpose: Purpose, value: Value, level: u8) -> What
    ensures { result ≡ what_is purpose value level }
{
    match purpose {
        Purpose::Write => What::Write { value, level },
        Purpose::Check => What::Check { value },
    }
}

/// A value as an object of this type has it.
fn value_at(kind: ObjectKind, scale: Scale, value: i64) -> Option<Value>
    ensures { Forms kind scale value result }
{
    match kind {
        ObjectKind::AnalogOutput | ObjectKind::AnalogValue => real(scale, value),
        ObjectKind::BinaryOutput | ObjectKind::BinaryValue => {
            let state = state_within(0, 1, value)?;
            Some(Value::Enumerated { state })
        }
        ObjectKind::MultiStateOutput | ObjectKind::MultiStateValue => {
            let state = state_within(1, 255, value)?;
            Some(Value::Unsigned { state })
        }
    }
}

/// The nearest binary32.
fn real(scale: Scale, value: i64) -> Option<Value>
    ensures { IsReal scale value result }
{
    let form = Form::Single { first: Half::High };
    let words = words_of(form, scale, value)?;
    let bits = bits_in(words);
    Some(Value::Real { bits })
}

/// The bits of two registers, the high half first.
fn bits_in(words: Words) -> u32
    ensures { result ≡ bits_in words }
{
    match words {
        Words::One { word } => u32::from(word),
        Words::Two { first, second } => u32::from(first) * 0x1_0000 + u32::from(second),
    }
}

/// A state from the one to the other.
fn state_within(least: u8, most: u8, value: i64) -> Option<u8>
    ensures { result ≡ state_within least most value }
{
    if i64::from(least) <= value && value <= i64::from(most) {
        Some(value as u8)
    } else {
        None
    }
}
