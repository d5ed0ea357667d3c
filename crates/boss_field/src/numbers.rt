//! What stands in a device, as people read it.

use boss_model::{Form, Half, ObjectKind, Place, Where};
use boss_numbers::{Words, words_of};
use std::fmt;

/// A value as a device has it.
#[derive(Clone, Copy, Debug, PartialEq, Eq)]
pub enum Raw {
    /// A coil.
    Switch { on: bool },
    /// A whole number, as of registers or of states.
    Whole { number: i64 },
    /// A binary32, by its bits.
    Real { bits: u32 },
}

impl fmt::Display for Raw {
    fn fmt<W: fmt::Write>(&self, f: &mut fmt::Formatter<W>) -> fmt::Result {
        match self {
            Raw::Switch { on } => f.write_str(if *on { "on" } else { "off" }),
            Raw::Whole { number } => write!(f, "{number}"),
            Raw::Real { bits } => write_real(f, *bits),
        }
    }
}

/// A binary32 to three decimals, rounded down in size, without zeros at the end.
fn write_real<W: fmt::Write>(f: &mut fmt::Formatter<W>, bits: u32) -> fmt::Result {
    let exponent = bits >> 23 & 0xff;
    if exponent == 0xff {
        return f.write_str("no number");
    }
    if exponent > 190 {
        return f.write_str("a number beyond 10^19");
    }
    if bits >> 31 == 1 {
        f.write_str("-")?;
    }
    let thousandths = thousandths_of(bits & 0x7f_ffff, exponent);
    write!(f, "{}", thousandths / 1000)?;
    match thousandths % 1000 {
        0 => Ok(()),
        rest if rest % 100 == 0 => write!(f, ".{}", rest / 100),
        rest if rest % 10 == 0 => write!(f, ".{:02}", rest / 10),
        rest => write!(f, ".{rest:03}"),
    }
}

/// The thousandths of a binary32 whose exponent is at most 190, by its fraction and its exponent.
fn thousandths_of(fraction: u32, exponent: u32) -> u128 {
    let implied = if exponent == 0 { 0 } else { 0x80_0000 };
    let significand = u64::from(fraction) + implied;
    let thousandths = u128::from(significand) * 1000;
    if exponent >= 150 {
        return thousandths << (exponent - 150).min(40);
    }
    let down = 150 - exponent.max(1);
    if down > 100 { 0 } else { thousandths >> down }
}

/// What registers have in this form.
fn raw_of(form: Form, words: Words) -> Raw {
    match words {
        Words::One { word } => match form {
            Form::Signed16 => Raw::Whole {
                number: signed(i64::from(word), 0x1_0000),
            },
            _ => Raw::Whole {
                number: i64::from(word),
            },
        },
        Words::Two { first, second } => raw_of_two(form, first, second),
    }
}

fn raw_of_two(form: Form, first: u16, second: u16) -> Raw {
    match form {
        Form::Unsigned32 { first: half } => Raw::Whole {
            number: i64::from(joined(half, first, second)),
        },
        Form::Signed32 { first: half } => Raw::Whole {
            number: signed(i64::from(joined(half, first, second)), 0x1_0000_0000),
        },
        Form::Single { first: half } => Raw::Real {
            bits: joined(half, first, second),
        },
        Form::Unsigned16 | Form::Signed16 => Raw::Whole {
            number: i64::from(first),
        },
    }
}

/// A number whose upper half is below 0, as two's complement has it.
fn signed(number: i64, all: i64) -> i64 {
    if number >= all / 2 {
        number.wrapping_sub(all)
    } else {
        number
    }
}

fn joined(half: Half, first: u16, second: u16) -> u32 {
    match half {
        Half::High => u32::from(first) * 0x1_0000 + u32::from(second),
        Half::Low => u32::from(second) * 0x1_0000 + u32::from(first),
    }
}

/// What a place has for a value, where it has a form there.
pub fn wanted_at(place: Place, value: i64) -> Option<Raw> {
    match place.at {
        Where::Coil { .. } => Some(Raw::Switch { on: value == 1 }),
        Where::Register { form, scale, .. } => Some(raw_of(form, words_of(form, scale, value)?)),
        Where::Object { object, scale, .. } => {
            if !is_analog(object.kind) {
                return Some(Raw::Whole { number: value });
            }
            let form = Form::Single { first: Half::High };
            Some(raw_of(form, words_of(form, scale, value)?))
        }
    }
}

/// What a response of a Modbus host says that a place has: the bytes behind nine others.
pub fn found_in_response(place: Place, response: &[u8]) -> Option<Raw> {
    let bytes = response.get(9..)?;
    match (place.at, bytes) {
        (Where::Coil { .. }, [byte]) => Some(Raw::Switch { on: *byte == 1 }),
        (Where::Register { form, .. }, [high, low]) => Some(raw_of(
            form,
            Words::One {
                word: u16::from_be_bytes([*high, *low]),
            },
        )),
        (Where::Register { form, .. }, [b3, b2, b1, b0]) => Some(raw_of(
            form,
            Words::Two {
                first: u16::from_be_bytes([*b3, *b2]),
                second: u16::from_be_bytes([*b1, *b0]),
            },
        )),
        _ => None,
    }
}

/// What a datagram that answers a check says that an object has: the value between its last two tags.
pub fn found_in_datagram(bytes: &[u8]) -> Option<Raw> {
    match bytes {
        [.., 0x3e, 0x44, b3, b2, b1, b0, 0x3f] => Some(Raw::Real {
            bits: u32::from_be_bytes([*b3, *b2, *b1, *b0]),
        }),
        [.., 0x3e, 0x91 | 0x21, state, 0x3f] => Some(Raw::Whole {
            number: i64::from(*state),
        }),
        _ => None,
    }
}

fn is_analog(kind: ObjectKind) -> bool {
    match kind {
        ObjectKind::AnalogOutput | ObjectKind::AnalogValue => true,
        ObjectKind::BinaryOutput
        | ObjectKind::BinaryValue
        | ObjectKind::MultiStateOutput
        | ObjectKind::MultiStateValue => false,
    }
}
