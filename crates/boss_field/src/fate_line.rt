//! Lines on what came of a write or of a look, for whoever wires the devices.

use crate::numbers::Raw;
use crate::reason::Reason;
use boss_bacnet::Fate as BacnetFate;
use boss_modbus::Fate as ModbusFate;
use boss_model::{DriverPlan, Object, ObjectKind, Place, PointId, Station, Where};
use std::fmt;
use std::io::ErrorKind;

/// What came of what a device was asked.
#[derive(Clone, Copy, Debug, PartialEq, Eq)]
pub enum Outcome {
    Modbus { fate: ModbusFate },
    Bacnet { fate: BacnetFate },
}

impl Outcome {
    /// Whether a device took a value.
    pub fn is_taken(self) -> bool {
        matches!(
            self,
            Outcome::Modbus {
                fate: ModbusFate::Taken
            } | Outcome::Bacnet {
                fate: BacnetFate::Taken
            }
        )
    }

    /// Whether a device was found with the value that it took.
    pub fn has(self) -> bool {
        matches!(
            self,
            Outcome::Modbus {
                fate: ModbusFate::Has
            } | Outcome::Bacnet {
                fate: BacnetFate::Has
            }
        )
    }

    /// Whether anything was sent: nothing is where a value has no form, and before the first write.
    pub fn was_sent(self) -> bool {
        !matches!(
            self,
            Outcome::Modbus {
                fate: ModbusFate::None | ModbusFate::NoPlace
            } | Outcome::Bacnet {
                fate: BacnetFate::None | BacnetFate::NoPlace
            }
        )
    }

    /// Whether it was found with another one.
    pub fn differs(self) -> bool {
        matches!(
            self,
            Outcome::Modbus {
                fate: ModbusFate::HasOther
            } | Outcome::Bacnet {
                fate: BacnetFate::HasOther
            }
        )
    }
}

/// The host of a point, its place there, and what came of what it was asked last.
#[derive(Drop)]
pub struct FateLine<'a> {
    pub part: &'a DriverPlan,
    pub point: PointId,
    pub outcome: Outcome,
    /// Why the link failed, where it did.
    pub reason: Option<Reason>,
    /// What its device was found with, where it told that.
    pub found: Option<Raw>,
    /// What it was to have.
    pub wanted: Option<Raw>,
}

impl fmt::Display for FateLine<'_> {
    fn fmt<W: fmt::Write>(&self, f: &mut fmt::Formatter<W>) -> fmt::Result {
        let host = str::from_utf8(self.part.host.slice()).unwrap_or("?");
        match place_of(self.part, self.point) {
            Some(place) => write_place(f, host, place)?,
            None => write!(f, "{host} point {}", self.point.0)?,
        }
        f.write_str(": ")?;
        if self.outcome.differs() {
            return write_difference(f, self.found, self.wanted);
        }
        if self.outcome.has() {
            return write_agreement(f, self.wanted);
        }
        match self.outcome {
            Outcome::Modbus { fate } => write_modbus(f, fate, self.reason, self.part.wait),
            Outcome::Bacnet { fate } => write_bacnet(f, fate, self.reason, self.part),
        }
    }
}

/// The place of a point in a part.
pub fn place_of(part: &DriverPlan, point: PointId) -> Option<Place> {
    part.places
        .slice()
        .iter()
        .copied()
        .find(|place| place.point == point)
}

fn write_place<W: fmt::Write>(f: &mut fmt::Formatter<W>, host: &str, place: Place) -> fmt::Result {
    let unit = place.unit;
    match place.at {
        Where::Coil { address, .. } => write!(f, "{host} unit {unit} coil {address}"),
        Where::Register { address, .. } => write!(f, "{host} unit {unit} register {address}"),
        Where::Object {
            object,
            station,
            ..
        } => {
            f.write_str(host)?;
            if let Some(Station { network, address }) = station {
                write!(f, " network {network} station {address}")?;
            }
            let Object { kind, instance } = object;
            write!(f, " {} {instance}", name_of(kind))
        }
    }
}

/// The name of a type of object.
fn name_of(kind: ObjectKind) -> &'static str {
    match kind {
        ObjectKind::AnalogOutput => "analog-output",
        ObjectKind::AnalogValue => "analog-value",
        ObjectKind::BinaryOutput => "binary-output",
        ObjectKind::BinaryValue => "binary-value",
        ObjectKind::MultiStateOutput => "multi-state-output",
        ObjectKind::MultiStateValue => "multi-state-value",
    }
}

fn write_difference<W: fmt::Write>(
    f: &mut fmt::Formatter<W>,
    found: Option<Raw>,
    wanted: Option<Raw>,
) -> fmt::Result {
    match (found, wanted) {
        (Some(found), Some(wanted)) => write!(f, "had {found} in place of {wanted}"),
        (None, Some(wanted)) => write!(f, "had another value in place of {wanted}"),
        (_, None) => f.write_str("had another value"),
    }
}

fn write_agreement<W: fmt::Write>(f: &mut fmt::Formatter<W>, wanted: Option<Raw>) -> fmt::Result {
    match wanted {
        Some(wanted) => write!(f, "has {wanted} again"),
        None => f.write_str("has its value again"),
    }
}

fn write_modbus<W: fmt::Write>(
    f: &mut fmt::Formatter<W>,
    fate: ModbusFate,
    reason: Option<Reason>,
    wait: u64,
) -> fmt::Result {
    match fate {
        ModbusFate::None => f.write_str("not written yet"),
        ModbusFate::Taken => f.write_str("taken again"),
        ModbusFate::Has => f.write_str("has its value again"),
        ModbusFate::HasOther => f.write_str("had another value"),
        ModbusFate::Exception { code } => write!(f, "refused with code {code}{}", meaning(code)),
        ModbusFate::Wrong => f.write_str("what came back is no response to what was asked"),
        ModbusFate::Ended => f.write_str("the host ended the connection before a whole response"),
        ModbusFate::LinkFault => write_link_fault(f, reason, wait),
        ModbusFate::NoPlace => f.write_str("the value has no form there, so nothing was sent"),
    }
}

/// Why a link failed, in words.
fn write_link_fault<W: fmt::Write>(
    f: &mut fmt::Formatter<W>,
    reason: Option<Reason>,
    wait: u64,
) -> fmt::Result {
    match reason {
        Some(Reason::Broken(ErrorKind::TimedOut | ErrorKind::WouldBlock)) => {
            write!(f, "no answer within {wait} ms")
        }
        Some(reason) => write!(f, "{reason}"),
        None => f.write_str("the link failed"),
    }
}

/// What a code means (MODBUS Application Protocol 1.1b3, section 7).
fn meaning(code: u8) -> &'static str {
    match code {
        1 => ", illegal function",
        2 => ", illegal data address",
        3 => ", illegal data value",
        4 => ", server device failure",
        5 => ", acknowledge",
        6 => ", server device busy",
        8 => ", memory parity error",
        10 => ", gateway path unavailable",
        11 => ", gateway target device failed to respond",
        _ => "",
    }
}

fn write_bacnet<W: fmt::Write>(
    f: &mut fmt::Formatter<W>,
    fate: BacnetFate,
    reason: Option<Reason>,
    part: &DriverPlan,
) -> fmt::Result {
    match fate {
        BacnetFate::None => f.write_str("not written yet"),
        BacnetFate::Taken => f.write_str("taken again"),
        BacnetFate::Has => f.write_str("has its value again"),
        BacnetFate::HasOther => f.write_str("had another value"),
        BacnetFate::Error { class, code } => write!(
            f,
            "refused, {}: {} ({class}, {code})",
            class_name(class),
            code_name(code)
        ),
        BacnetFate::Reject { reason } => {
            write!(f, "rejected for reason {reason}{}", reject_name(reason))
        }
        BacnetFate::Abort { reason } => {
            write!(f, "aborted for reason {reason}{}", abort_name(reason))
        }
        BacnetFate::Silent => {
            write!(
                f,
                "no answer to {} requests of {} ms",
                part.tries, part.wait
            )
        }
        BacnetFate::LinkFault => write_link_fault(f, reason, part.wait),
        BacnetFate::NoPlace => f.write_str("the value has no form there, so nothing was sent"),
    }
}

/// The name of a class of errors (ASHRAE 135, clause 18).
fn class_name(class: u16) -> &'static str {
    match class {
        0 => "device",
        1 => "object",
        2 => "property",
        3 => "resources",
        4 => "security",
        5 => "services",
        6 => "vt",
        _ => "another class",
    }
}

/// The name of an error (ASHRAE 135, clause 18).
fn code_name(code: u16) -> &'static str {
    match code {
        3 => "configuration-in-progress",
        9 => "invalid-data-type",
        25 => "operational-problem",
        31 => "unknown-object",
        32 => "unknown-property",
        37 => "value-out-of-range",
        40 => "write-access-denied",
        42 => "invalid-array-index",
        _ => "another error",
    }
}

/// What a reason to reject means (ASHRAE 135, clause 18.9).
fn reject_name(reason: u16) -> &'static str {
    match reason {
        1 => ", buffer-overflow",
        2 => ", inconsistent-parameters",
        3 => ", invalid-parameter-data-type",
        4 => ", invalid-tag",
        5 => ", missing-required-parameter",
        6 => ", parameter-out-of-range",
        7 => ", too-many-arguments",
        8 => ", undefined-enumeration",
        9 => ", unrecognized-service",
        _ => "",
    }
}

/// What a reason to abort means (ASHRAE 135, clause 18.10).
fn abort_name(reason: u16) -> &'static str {
    match reason {
        1 => ", buffer-overflow",
        2 => ", invalid-apdu-in-this-state",
        3 => ", preempted-by-higher-priority-task",
        4 => ", segmentation-not-supported",
        _ => "",
    }
}
