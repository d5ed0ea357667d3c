//! Where a place's table says that a point is written, and which points that suits.

ghost use Rattle.std.specs.Prelude.{◌≡◌, ℤ, ◌≤ℤ◌, true, option_map, option_copied};
ghost use Rattle.toml.specs.View.{view};
ghost use Rattle.boss_plans.specs.Wheres.{coil_at, form_named, form_of, function_in, function_numbered, function_of, half_in, half_named, half_of, has_register_key, is_long, is_scaled, is_single, long_form_named, multiple_in, only_multiple, register_at, register_function, round_in, round_named, round_of, scale_of, suits, suits_object, type_of, unit_of, where_of, where_spelled};

use crate::keys::{is_shift, natural_in, offset_of, per_of, times_of};
use boss_model::{Form, Function, Half, Kind, ObjectKind, Round, Scale, Where};
use boss_numbers::have_forms;
use toml::Value;

/// The greatest unit identifier.
const GREATEST_UNIT: u16 = 0xff;

/// The greatest address of a coil or of a register.
const GREATEST_ADDRESS: u16 = 0xffff;

/// The greatest number of a function that writes.
const GREATEST_FUNCTION: u16 = 16;

/// The unit of a place.
pub(crate) fn unit_of(place: &Value) -> Option<u8>
    ensures { result ≡ unit_of (view place.now) }
{
    let unit = natural_in(GREATEST_UNIT, place.get("unit")?)?;
    Some(unit as u8)
}

/// The half of two registers that a text names.
fn half_named(name: &str) -> Option<Half>
    ensures { result ≡ half_named name.now }
{
    match name {
        "high" => Some(Half::High),
        "low" => Some(Half::Low),
        _ => None,
    }
}

fn half_in(value: &Value) -> Option<Half>
    ensures { result ≡ half_in (view value.now) }
{
    half_named(value.as_str()?)
}

/// The half that stands first: the high one where the key is missing.
fn half_of(place: &Value) -> Option<Half>
    ensures { result ≡ half_of (view place.now) }
{
    match place.get("first") {
        Some(value) => half_in(value),
        None => Some(Half::High),
    }
}

/// The form of this name, in two registers.
fn long_form_named(name: &str, first: Half) -> Option<Form>
    ensures { result ≡ long_form_named name.now first }
{
    match name {
        "u32" => Some(Form::Unsigned32 { first }),
        "i32" => Some(Form::Signed32 { first }),
        "f32" => Some(Form::Single { first }),
        _ => None,
    }
}

/// The form of this name.
fn form_named(name: &str, first: Half) -> Option<Form>
    ensures { result ≡ form_named name.now first }
{
    match name {
        "u16" => Some(Form::Unsigned16),
        "i16" => Some(Form::Signed16),
        _ => long_form_named(name, first),
    }
}

/// The name of a place's form: of 16 bits without a sign where the key is missing.
fn type_of(place: &Value) -> Option<&str>
    ensures { option_copied result ≡ type_of (view place.now) }
{
    match place.get("type") {
        Some(value) => value.as_str(),
        None => Some("u16"),
    }
}

/// Whether a form stands in two registers.
fn is_long(form: Form) -> bool
    ensures { result ≡ is_long form }
{
    match form {
        Form::Unsigned16 | Form::Signed16 => false,
        Form::Unsigned32 { .. } | Form::Signed32 { .. } | Form::Single { .. } => true,
    }
}

/// The form of a place. Of one register no half stands first.
fn form_of(place: &Value) -> Option<Form>
    ensures { result ≡ form_of (view place.now) }
{
    let name = type_of(place)?;
    let first = half_of(place)?;
    let form = form_named(name, first)?;
    if place.get("first").is_some() && !is_long(form) {
        return None;
    }
    Some(form)
}

/// The way of rounding that a text names.
fn round_named(name: &str) -> Option<Round>
    ensures { result ≡ round_named name.now }
{
    match name {
        "down" => Some(Round::Down),
        "nearest" => Some(Round::Nearest),
        _ => None,
    }
}

fn round_in(value: &Value) -> Option<Round>
    ensures { result ≡ round_in (view value.now) }
{
    round_named(value.as_str()?)
}

/// How a place rounds: down where the key is missing.
fn round_of(place: &Value) -> Option<Round>
    ensures { result ≡ round_of (view place.now) }
{
    match place.get("round") {
        Some(value) => round_in(value),
        None => Some(Round::Down),
    }
}

/// Whether a form is a binary32.
fn is_single(form: Form) -> bool
    ensures { result ≡ is_single form }
{
    match form {
        Form::Single { .. } => true,
        Form::Unsigned16 | Form::Signed16 | Form::Unsigned32 { .. } | Form::Signed32 { .. } =>
            false,
    }
}

/// Whether a place's scale is within bounds. A binary32 is not rounded to a whole number.
fn is_scaled(form: Form, per: i64, offset: i64, place: &Value) -> bool
    ensures { result ≡ is_scaled form per offset (view place.now) }
{
    is_shift(offset, per) && !(place.get("round").is_some() && is_single(form))
}

/// The scale of a place.
fn scale_of(form: Form, per: i64, place: &Value) -> Option<Scale>
    ensures { result ≡ scale_of form per (view place.now) }
{
    let times = times_of(place)?;
    let offset = offset_of(place)?;
    let round = round_of(place)?;
    if !is_scaled(form, per, offset, place) {
        return None;
    }
    Some(Scale {
        times,
        per,
        offset,
        round,
    })
}

/// The function of this number, of one that writes one and one that writes several.
fn function_numbered(single: u16, multiple: u16, number: u16) -> Option<Function>
    ensures { result ≡ function_numbered single multiple number }
{
    if number == single {
        Some(Function::WriteSingle)
    } else if number == multiple {
        Some(Function::WriteMultiple)
    } else {
        None
    }
}

fn function_in(single: u16, multiple: u16, value: &Value) -> Option<Function>
    ensures { result ≡ function_in single multiple (view value.now) }
{
    function_numbered(single, multiple, natural_in(GREATEST_FUNCTION, value)?)
}

/// The function that writes a place: the one that writes one where the key is missing.
fn function_of(single: u16, multiple: u16, place: &Value) -> Option<Function>
    ensures { result ≡ function_of single multiple (view place.now) }
{
    match place.get("function") {
        Some(value) => function_in(single, multiple, value),
        None => Some(Function::WriteSingle),
    }
}

/// The function that writes two registers, as a value spells it.
fn multiple_in(value: &Value) -> Option<Function>
    ensures { result ≡ multiple_in (view value.now) }
{
    match function_in(6, 16, value)? {
        Function::WriteSingle => None,
        Function::WriteMultiple => Some(Function::WriteMultiple),
    }
}

/// The function that writes the registers of a form.
fn register_function(form: Form, place: &Value) -> Option<Function>
    ensures { result ≡ register_function form (view place.now) }
{
    if !is_long(form) {
        return function_of(6, 16, place);
    }
    match place.get("function") {
        Some(value) => multiple_in(value),
        None => Some(Function::WriteMultiple),
    }
}

/// A register, or two from this address on, which both have to have one.
fn register_at(place: &Value, per: i64, address: u16) -> Option<Where>
    ensures { result ≡ register_at (view place.now) per address }
{
    let form = form_of(place)?;
    let scale = scale_of(form, per, place)?;
    let function = register_function(form, place)?;
    if is_long(form) && address == GREATEST_ADDRESS {
        return None;
    }
    Some(Where::Register {
        address,
        form,
        scale,
        function,
    })
}

/// Whether a place has a key that a coil has not.
fn has_register_key(place: &Value) -> bool
    ensures { result ≡ has_register_key (view place.now) }
{
    place.get("type").is_some()
        || place.get("first").is_some()
        || place.get("times").is_some()
        || place.get("offset").is_some()
        || place.get("round").is_some()
}

fn coil_at(place: &Value, address: u16) -> Option<Where>
    ensures { result ≡ coil_at (view place.now) address }
{
    let function = function_of(5, 15, place)?;
    if has_register_key(place) {
        return None;
    }
    Some(Where::Coil { address, function })
}

/// A coil or a register: one of the two has to be there, and not both.
fn where_spelled(
    place: &Value,
    per: i64,
    coil: Option<&Value>,
    register: Option<&Value>,
) -> Option<Where>
    ensures { result ≡ where_spelled (view place.now) per (option_map (λ value. view value.now) coil.entry)
        (option_map (λ value. view value.now) register.entry) }
{
    match (coil, register) {
        (Some(coil), None) => coil_at(place, natural_in(GREATEST_ADDRESS, coil)?),
        (None, Some(register)) => register_at(place, per, natural_in(GREATEST_ADDRESS, register)?),
        (Some(_), Some(_)) | (None, None) => None,
    }
}

/// Where a place is.
pub(crate) fn where_of(place: &Value) -> Option<Where>
    ensures { result ≡ where_of (view place.now) }
{
    let per = per_of(place)?;
    where_spelled(place, per, place.get("coil"), place.get("register"))
}

/// Whether a place suits the values of a point: a binary one has a coil, a register or a binary object, and every other a register or an
/// object of its kind, which has a form of each of them.
pub(crate) fn suits(kind: Kind, at: Where) -> bool
    ensures { result ≡ suits kind at }
{
    match at {
        Where::Coil { .. } => kind == Kind::Binary,
        Where::Register { form, scale, .. } => match kind {
            Kind::Binary => have_forms(form, scale, 0, 1),
            Kind::Analog { min, max } => have_forms(form, scale, min, max),
            Kind::Multi { states } => have_forms(form, scale, 1, states),
        },
        Where::Object { object, scale, .. } => suits_object(kind, object.kind, scale),
    }
}

/// Whether an object suits the values of a point: it is of the point's kind, and what is analog has a form of each of them.
fn suits_object(kind: Kind, object: ObjectKind, scale: Scale) -> bool
    ensures { result ≡ suits_object kind object scale }
{
    match object {
        ObjectKind::AnalogOutput | ObjectKind::AnalogValue => match kind {
            Kind::Analog { min, max } => {
                have_forms(Form::Single { first: Half::High }, scale, min, max)
            }
            Kind::Binary | Kind::Multi { .. } => false,
        },
        ObjectKind::BinaryOutput | ObjectKind::BinaryValue => kind == Kind::Binary,
        ObjectKind::MultiStateOutput | ObjectKind::MultiStateValue => match kind {
            Kind::Multi { .. } => true,
            Kind::Binary | Kind::Analog { .. } => false,
        },
    }
}
