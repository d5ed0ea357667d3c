ghost use Rattle.std.specs.Prelude.{◌≡◌};
ghost use Rattle.boss_modbus.specs.Places.{AsksAt, AsksFor, coil, coil_state, find_place, place_of, registers, write_coil, write_registers};

use crate::request::{Asked, Request};
use boss_model::{DriverPlan, Function, Place, PointId, Where};
use boss_numbers::{Words, words_of};

/// What a unit is asked for.
#[derive(Clone, Copy, Debug, PartialEq, Eq)]
pub enum What {
    /// To take a value.
    Write,
    /// Whether it has the value.
    Check,
}

/// What is asked for a value of a point, where the point has a place and the value a form there.
pub fn asked_of(part: &Option<DriverPlan>, what: What, point: PointId, value: i64) -> Option<Asked>
    ensures { AsksFor part.now what point value result }
{
    let place = find_place(part, point)?;
    asked_at(what, place.unit, place.at, value)
}

/// The place of a point, where a part was assigned and it has one in it.
pub fn find_place(part: &Option<DriverPlan>, point: PointId) -> Option<Place>
    ensures { result ≡ find_place part.now point }
{
    match part {
        Some(part) => place_of(part.places.slice(), point),
        None => None,
    }
}

/// The place of a point among these.
fn place_of(places: &[Place], point: PointId) -> Option<Place>
    ensures { result ≡ place_of places.now point }
{
    places.iter().copied().find(|place| place.point == point)
}

/// What is asked for a value at this place of this unit.
fn asked_at(what: What, unit: u8, at: Where, value: i64) -> Option<Asked>
    ensures { AsksAt what unit at value result }
{
    let request = match at {
        Where::Coil { address, function } => coil(what, function, address, coil_state(value)?),
        Where::Register {
            address,
            form,
            scale,
            function,
        } => registers(what, function, address, words_of(form, scale, value)?),
        Where::Object { .. } => return None,
    };
    Some(Asked { unit, request })
}

/// Whether a coil is on: it is off at 0 and on at 1.
fn coil_state(value: i64) -> Option<bool>
    ensures { result ≡ coil_state value }
{
    match value {
        0 => Some(false),
        1 => Some(true),
        _ => None,
    }
}

/// What is asked of a coil.
fn coil(what: What, function: Function, address: u16, on: bool) -> Request
    ensures { result ≡ coil what function address on }
{
    match what {
        What::Write => write_coil(function, address, on),
        What::Check => Request::CheckCoil { address, on },
    }
}

/// What writes a coil.
fn write_coil(function: Function, address: u16, on: bool) -> Request
    ensures { result ≡ write_coil function address on }
{
    match function {
        Function::WriteSingle => Request::WriteCoil { address, on },
        Function::WriteMultiple => Request::WriteCoils { address, on },
    }
}

/// What is asked of one register, or two.
fn registers(what: What, function: Function, address: u16, words: Words) -> Request
    ensures { result ≡ registers what function address words }
{
    match what {
        What::Write => write_registers(function, address, words),
        What::Check => Request::CheckRegisters { address, words },
    }
}

/// What writes one register, or two.
fn write_registers(function: Function, address: u16, words: Words) -> Request
    ensures { result ≡ write_registers function address words }
{
    match (function, words) {
        (Function::WriteSingle, Words::One { word }) => Request::WriteRegister { address, word },
        (Function::WriteMultiple, Words::One { .. })
        | (Function::WriteSingle | Function::WriteMultiple, Words::Two { .. }) => {
            Request::WriteRegisters { address, words }
        }
    }
}
