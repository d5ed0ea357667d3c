//! Devices over a link in memory. The frames were worked out by hand from MODBUS Messaging on TCP/IP 1.0b, section
//! 3.1.3, and MODBUS Application Protocol 1.1b3, sections 6.5, 6.6, 6.12 and 7. The bits of floats are those of Python's struct.

use crate::plant::{DAMPER, FAN, FLOW, LAMP, part};
use boss_modbus::{Fate, ModbusDevice};
use boss_model::{Items, NoMemory};
use boss_outside::{Actuators, DeviceCall, ListLink, Noted};
use std::alloc::Global;
use std::process::Abort;
use std::test::Fail;

const HOST: &[u8] = b"10.0.0.5:502";

/// Transaction 1 turns the lamp on: function 5, coil 19, FF00.
const LAMP_ON: [u8; 12] = [0, 1, 0, 0, 0, 6, 1, 5, 0, 19, 0xff, 0];

/// Transaction 2 sets the damper to 45: function 6, register 2, 45.
const DAMPER_AT_45: [u8; 12] = [0, 2, 0, 0, 0, 6, 1, 6, 0, 2, 0, 45];

/// Transaction 2 turns the lamp on.
const LAMP_ON_AGAIN: [u8; 12] = [0, 2, 0, 0, 0, 6, 1, 5, 0, 19, 0xff, 0];

/// Transaction 1 is refused: there is no such address.
const LAMP_REFUSED: [u8; 9] = [0, 1, 0, 0, 0, 3, 1, 0x85, 2];

/// A device of which each connection gives the next of these lists of bytes, and of whose calls of the link those with
/// these numbers fail.
fn device(
    alloc: Global,
    connections: &[&[u8]],
    most: usize,
    fails: &[u64],
) -> Result<ModbusDevice<ListLink>, NoMemory> {
    let mut contents = Items::new(alloc);
    for bytes in connections {
        contents.try_push(Items::from_vec(bytes.to_vec(alloc)?))?;
    }
    let fails = Items::from_vec(fails.to_vec(alloc)?);
    let mut device = ModbusDevice::new(alloc, ListLink::new(alloc, contents, most, fails)?);
    device.assign(part(alloc, HOST)?);
    Ok(device)
}

/// What comes of turning the lamp on where the host answers with these bytes, so many at a time, and then ends the
/// connection. The call has to answer Ok where it says that the value was written, and nowhere else.
fn check_fate(
    rt: &impl Abort,
    alloc: Global,
    bytes: &[u8],
    most: usize,
    expected: Fate,
) -> Result<(), NoMemory> {
    let mut device = device(alloc, &[bytes], most, &[])?;
    let answer = device.write(LAMP, 1);
    assert_eq!(rt; device.fate(), expected, "{:?} by {}", bytes, most);
    assert_eq!(rt; answer.is_ok(), expected == Fate::Taken);
    assert_eq!(rt; device.link().sent(), LAMP_ON.as_slice());
    Ok(())
}

#[test]
fn each_response_has_its_fate(rt: HostRuntime) -> Result<(), Fail> {
    let other_unit = [0, 1, 0, 0, 0, 6, 2, 5, 0, 19, 0xff, 0];
    let other_word = [0, 1, 0, 0, 0, 6, 1, 5, 0, 19, 0, 0];
    let other_function = [0, 1, 0, 0, 0, 3, 1, 0x84, 2];
    let responses: [(&[u8], Fate); 11] = [
        (&LAMP_ON, Fate::Taken),
        (&LAMP_REFUSED, Fate::Exception { code: 2 }),
        (&LAMP_ON_AGAIN, Fate::Wrong),
        (&other_unit, Fate::Wrong),
        (&other_word, Fate::Wrong),
        (&other_function, Fate::Wrong),
        (b"HTTP/1.1 400 Bad Request", Fate::Wrong),
        (&LAMP_ON[..7], Fate::Ended),
        (&LAMP_REFUSED[..6], Fate::Ended),
        (&LAMP_ON[..1], Fate::Ended),
        (&[], Fate::Ended),
    ];
    for (bytes, fate) in responses {
        // Whole, and one byte at a time.
        check_fate(&rt, rt.alloc(), bytes, 12, fate)?;
        check_fate(&rt, rt.alloc(), bytes, 1, fate)?;
    }
    Ok(())
}

#[test]
fn the_second_write_has_the_second_number(rt: HostRuntime) -> Result<(), Fail> {
    let alloc = rt.alloc();
    let both = [LAMP_ON, DAMPER_AT_45].concat(alloc)?;
    let mut device = device(alloc, &[both.as_slice()], 12, &[])?;
    let first = device.write(LAMP, 1);
    let second = device.write(DAMPER, 45_000);
    assert!(&rt; first.is_ok() && second.is_ok());
    assert_eq!(rt; device.link().sent(), both.as_slice());
    assert_eq!(rt; device.link().hosts().len(), 1);
    Ok(())
}

#[test]
fn the_answer_to_another_write_is_wrong(rt: HostRuntime) -> Result<(), Fail> {
    let alloc = rt.alloc();
    let with_the_first_number = [0, 1, 0, 0, 0, 6, 1, 6, 0, 2, 0, 45];
    let both = [LAMP_ON, with_the_first_number].concat(alloc)?;
    let mut device = device(alloc, &[both.as_slice()], 12, &[])?;
    let first = device.write(LAMP, 1);
    let second = device.write(DAMPER, 45_000);
    assert!(&rt; first.is_ok() && second.is_err());
    assert_eq!(rt; device.fate(), Fate::Wrong);
    assert!(rt; !device.link().is_connected());
    Ok(())
}

#[test]
fn a_refused_write_keeps_the_connection(rt: HostRuntime) -> Result<(), Fail> {
    let alloc = rt.alloc();
    let both = [LAMP_REFUSED.as_slice(), LAMP_ON_AGAIN.as_slice()].concat(alloc)?;
    let mut device = device(alloc, &[both.as_slice()], 12, &[])?;
    let first = device.write(LAMP, 1);
    let second = device.write(LAMP, 1);
    assert!(&rt; first.is_err() && second.is_ok());
    assert_eq!(rt; device.link().hosts().len(), 1);
    Ok(())
}

/// The last two bytes that are sent for a value of the damper.
fn word_of(alloc: Global, value: i64) -> Result<[u8; 2], NoMemory> {
    let mut device = device(alloc, &[], 12, &[])?;
    let _ = device.write(DAMPER, value);
    match device.link().sent() {
        [.., high, low] => Ok([*high, *low]),
        _ => Ok([0, 0]),
    }
}

#[test]
fn a_register_has_whole_units(rt: HostRuntime) -> Result<(), Fail> {
    assert_eq!(rt; word_of(rt.alloc(), 46_500)?, [0, 46]);
    assert_eq!(rt; word_of(rt.alloc(), 65_535_999)?, [0xff, 0xff]);
    Ok(())
}

/// Transaction 1 writes two registers from 10 on: function 16, two of them, four bytes.
const FLOW_ASKED: [u8; 13] = [0, 1, 0, 0, 0, 11, 1, 16, 0, 10, 0, 2, 4];

/// Two registers from 10 on were written.
const FLOW_TAKEN: [u8; 12] = [0, 1, 0, 0, 0, 6, 1, 16, 0, 10, 0, 2];

#[test]
fn a_float_has_two_registers(rt: HostRuntime) -> Result<(), Fail> {
    let alloc = rt.alloc();
    let floats: [(i64, u32); 8] = [
        (0, 0),
        (1, 0x3a83_126f),
        (100, 0x3dcc_cccd),
        (21_550, 0x41ac_6666),
        (-21_500, 0xc1ac_0000),
        (1_000_000_000_000_000, 0x5368_d4a5),
        // Half way between two: the one whose bits end in 0.
        (16_777_217_000, 0x4b80_0000),
        (16_777_219_000, 0x4b80_0002),
    ];
    for (value, bits) in floats {
        let mut device = device(alloc, &[&FLOW_TAKEN], 12, &[])?;
        assert!(&rt; device.write(FLOW, value).is_ok(), "{}", value);
        let expected = [FLOW_ASKED.as_slice(), &bits.to_be_bytes()].concat(alloc)?;
        assert_eq!(rt; device.link().sent(), expected.as_slice());
    }
    Ok(())
}

#[test]
fn a_value_without_a_word_sends_nothing(rt: HostRuntime) -> Result<(), Fail> {
    let mut device = device(rt.alloc(), &[&LAMP_ON], 12, &[])?;
    for (point, value) in [
        (LAMP, 2),
        (LAMP, -1),
        (DAMPER, -1),
        (DAMPER, 65_536_000),
        (FAN, 0),
    ] {
        assert!(&rt;
            device.write(point, value).is_err(),
            "{} at {}",
            point.0,
            value
        );
        assert_eq!(rt; device.fate(), Fate::NoPlace);
    }
    assert!(&rt; device.link().sent().is_empty() && device.link().hosts().is_empty());
    Ok(())
}

#[test]
fn a_link_that_fails_is_connected_again(rt: HostRuntime) -> Result<(), Fail> {
    let alloc = rt.alloc();
    // Connecting, sending and receiving, of which the last ones come after the first bytes.
    for call in 1..6 {
        let connections: [&[u8]; 2] = if call == 1 {
            [&LAMP_ON_AGAIN, &[]]
        } else {
            [&LAMP_ON, &LAMP_ON_AGAIN]
        };
        let mut device = device(alloc, &connections, 4, &[call])?;
        assert!(&rt; device.write(LAMP, 1).is_err());
        assert_eq!(rt; device.fate(), Fate::LinkFault, "call {}", call);
        assert!(&rt; !device.link().is_connected());
        assert!(&rt; device.write(LAMP, 1).is_ok(), "after call {}", call);
    }
    Ok(())
}

#[test]
fn noted_devices_tell_their_calls(rt: HostRuntime) -> Result<(), Fail> {
    let alloc = rt.alloc();
    let device = device(alloc, &[&LAMP_ON], 12, &[])?;
    let mut noted = Noted::new(alloc, device);
    let lamp = noted.write(LAMP, 1);
    let other = noted.write(LAMP, 2);
    assert!(&rt; lamp.is_ok() && other.is_err() && noted.is_whole());
    let expected = [
        DeviceCall {
            point: LAMP,
            value: 1,
            ok: true,
        },
        DeviceCall {
            point: LAMP,
            value: 2,
            ok: false,
        },
    ];
    assert_eq!(rt; noted.calls(), expected.as_slice());
    Ok(())
}
