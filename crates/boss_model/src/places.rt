use crate::items::Items;
use crate::numbers::PointId;

/// Where in a device a point is written: a coil or registers (Modbus Application Protocol 1.1b3, sections 4.4 and 6), or a BACnet object.
#[derive(Clone, Copy, Debug, PartialEq, Eq)]
pub enum Where {
    /// A single coil: on where the value is 1, off where it is 0.
    Coil {
        address: u16,
        function: Function,
    },
    /// One holding register, or two of them from this address on: as many as the form has.
    Register {
        address: u16,
        form: Form,
        scale: Scale,
        /// What one register is written by. Two are always written by the function that writes several.
        function: Function,
    },
    /// The Present_Value of a BACnet object (ASHRAE 135, clause 19.2), at one level of its priority array.
    Object {
        object: Object,
        /// 1 to 16, and not 6.
        level: u8,
        /// The station behind the host that has the object; none where the host has it itself.
        station: Option<Station>,
        /// What an analog object has for a value, as the nearest binary32. A state of another object is itself.
        scale: Scale,
    },
}

/// An object of a BACnet device (ASHRAE 135, clause 12).
#[derive(Clone, Copy, Debug, PartialEq, Eq)]
pub struct Object {
    pub kind: ObjectKind,
    /// 0 to 4,194,302.
    pub instance: u32,
}

/// The type of a BACnet object whose Present_Value is commanded (ASHRAE 135, clauses 12.3, 12.4, 12.7, 12.8, 12.19 and 12.20).
#[derive(Clone, Copy, Debug, PartialEq, Eq)]
pub enum ObjectKind {
    AnalogOutput,
    AnalogValue,
    BinaryOutput,
    BinaryValue,
    MultiStateOutput,
    MultiStateValue,
}

/// A station behind a router, as on MS/TP (ASHRAE 135, clause 6.2.2).
#[derive(Clone, Copy, Debug, PartialEq, Eq)]
pub struct Station {
    /// 1 to 65,534.
    pub network: u16,
    /// 0 to 254.
    pub address: u8,
}

/// What a driver's host speaks.
#[derive(Clone, Copy, Debug, PartialEq, Eq)]
pub enum Protocol {
    /// Modbus over TCP (Modbus Messaging on TCP/IP 1.0b).
    Modbus,
    /// BACnet over UDP (ASHRAE 135, Annex J).
    Bacnet,
}

/// The function that writes a place (Modbus Application Protocol 1.1b3, section 6).
#[derive(Clone, Copy, Debug, PartialEq, Eq)]
pub enum Function {
    /// Function 5 at a coil, 6 at a register: what writes one.
    WriteSingle,
    /// Function 15 at a coil, 16 at a register: what writes several.
    WriteMultiple,
}

/// How a number stands in registers of 16 bits, whose bytes are always high first. Numbers below 0 have their two's complement.
#[derive(Clone, Copy, Debug, PartialEq, Eq)]
pub enum Form {
    /// One register, 0 to 65,535.
    Unsigned16,
    /// One register, -32,768 to 32,767.
    Signed16,
    /// Two registers, 0 to 4,294,967,295.
    Unsigned32 { first: Half },
    /// Two registers, -2,147,483,648 to 2,147,483,647.
    Signed32 { first: Half },
    /// Two registers with the nearest binary32 (IEEE 754-2019, section 3.4), of two that are as near the even one. 0 has no sign.
    Single { first: Half },
}

/// The half of 32 bits that stands in the first of two registers.
#[derive(Clone, Copy, Debug, PartialEq, Eq)]
pub enum Half {
    High,
    Low,
}

/// What a device has for a value: `(value * times + offset * per) / per`, where the value is in thousandths of the point's unit, or a
/// state.
#[derive(Clone, Copy, Debug, PartialEq, Eq)]
pub struct Scale {
    /// 1 to 1,000.
    pub times: u16,
    /// 1 to 10^15. No value has a form where it is less than 1.
    pub per: i64,
    /// -10^9 to 10^9, in units of the device.
    pub offset: i64,
    /// How a whole number is made of the fraction; of no meaning where the form has fractions.
    pub round: Round,
}

/// How a fraction comes to a whole number.
#[derive(Clone, Copy, Debug, PartialEq, Eq)]
pub enum Round {
    /// To the greatest that is not above it.
    Down,
    /// To the nearest, and halves up, also below 0.
    Nearest,
}

/// The place of a point in a device: the unit that answers for it, and where it is written there.
#[derive(Clone, Copy, Debug, PartialEq, Eq)]
pub struct Place {
    pub point: PointId,
    /// The unit identifier, 0 to 255 (Modbus Messaging on TCP/IP 1.0b, section 3.1.3); of no meaning for an object.
    pub unit: u8,
    pub at: Where,
    /// How often the device is asked for the value that it has, in milliseconds: 1,000 to 86,400,000, or 0 for never.
    pub check: u64,
    /// How often the value is written once more, in milliseconds: the same bounds, or 0 for never.
    pub again: u64,
}

/// What a driver's device is told of its points before it is used: the host that it reaches them at, how long it waits for that host, and
/// their places.
#[derive(Debug, Drop)]
pub struct DriverPlan {
    /// An address of this network and a port, as bytes.
    pub host: Items<u8>,
    pub speaks: Protocol,
    /// How long an answer is waited for, in milliseconds: 50 to 5,000. Over Modbus that is the time of one write, from its connection to its
    /// whole response.
    pub wait: u64,
    /// How often a datagram is sent at most, 1 to 4; of no meaning over Modbus.
    pub tries: u8,
    pub places: Items<Place>,
}
