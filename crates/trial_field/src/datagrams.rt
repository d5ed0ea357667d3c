//! Devices over BACnet/IP and a socket in memory. The datagrams were judged by another implementation of ASHRAE 135.

use boss_bacnet::{BacnetDevice, Fate};
use boss_model::{
    DriverPlan, Items, NoMemory, Object, ObjectKind, Place, PointId, Protocol, Round, Scale, Where,
};
use boss_outside::{Actuators, ListDatagrams, Look};
use std::alloc::Global;
use std::process::Abort;
use std::test::Fail;

/// Analog output 3 of the host, which counts units, written at level 8 and checked each second.
const DAMPER: Place = Place {
    point: PointId(0),
    unit: 0,
    at: Where::Object {
        object: Object {
            kind: ObjectKind::AnalogOutput,
            instance: 3,
        },
        level: 8,
        station: None,
        scale: Scale {
            times: 1,
            per: 1_000,
            offset: 0,
            round: Round::Down,
        },
    },
    check: 1_000,
    again: 0,
};

/// Exchange 1 sets it to 45.0.
const AT_45: [u8; 26] = [
    0x81, 0x0a, 0, 0x1a, 1, 4, 0, 3, 1, 0x0f, 0x0c, 0, 0x40, 0, 3, 0x19, 0x55, 0x3e, 0x44, 0x42,
    0x34, 0, 0, 0x3f, 0x49, 8,
];

const TAKEN: [u8; 9] = [0x81, 0x0a, 0, 9, 1, 0, 0x20, 1, 0x0f];

/// What answers exchange 2: 30.0.
const HAS_30: [u8; 23] = [
    0x81, 0x0a, 0, 0x17, 1, 0, 0x30, 2, 0x0c, 0x0c, 0, 0x40, 0, 3, 0x19, 0x55, 0x3e, 0x44, 0x41,
    0xf0, 0, 0, 0x3f,
];

/// A device whose socket gives these datagrams, of which empty ones stand for silence.
fn device(alloc: Global, datagrams: &[&[u8]]) -> Result<BacnetDevice<ListDatagrams>, NoMemory> {
    let mut contents = Items::new(alloc);
    for bytes in datagrams {
        contents.try_push(Items::from_vec(bytes.to_vec(alloc)?))?;
    }
    let socket = ListDatagrams::new(alloc, contents, Items::new(alloc));
    let mut device = BacnetDevice::new(alloc, socket);
    device.assign(part_over_bacnet(alloc, b"10.0.0.6:47808")?);
    Ok(device)
}

/// What the devices are assigned where their host is at this address. It is asked twice, and waited for half a second each time.
pub fn part_over_bacnet(alloc: Global, host: &[u8]) -> Result<DriverPlan, NoMemory> {
    let mut places = Items::new(alloc);
    places.try_push(DAMPER)?;
    Ok(DriverPlan {
        host: Items::from_vec(host.to_vec(alloc)?),
        speaks: Protocol::Bacnet,
        wait: 500,
        tries: 2,
        places,
    })
}

/// What comes of setting the damper to 45.0 where these datagrams come back, and how often it is sent. The call has to answer Ok where it
/// says that the value was taken, and nowhere else.
fn check_fate(
    rt: &impl Abort,
    alloc: Global,
    datagrams: &[&[u8]],
    expected: Fate,
    sends: usize,
) -> Result<(), NoMemory> {
    let mut device = device(alloc, datagrams)?;
    let answer = device.write(PointId(0), 45_000);
    assert_eq!(rt; device.fate(), expected);
    assert_eq!(rt; answer.is_ok(), expected == Fate::Taken);
    assert_eq!(rt; device.link().sent().len(), sends);
    for sent in device.link().sent() {
        assert_eq!(rt; sent.slice(), AT_45.as_slice());
    }
    Ok(())
}

#[test]
fn each_datagram_has_its_fate(rt: HostRuntime) -> Result<(), Fail> {
    let alloc = rt.alloc();
    let denied = [0x81, 0x0a, 0, 13, 1, 0, 0x50, 1, 0x0f, 0x91, 2, 0x91, 40];
    let rejected = [0x81, 0x0a, 0, 9, 1, 0, 0x60, 1, 9];
    let aborted = [0x81, 0x0a, 0, 9, 1, 0, 0x71, 1, 4];
    check_fate(&rt, alloc, &[&TAKEN], Fate::Taken, 1)?;
    check_fate(
        &rt,
        alloc,
        &[&denied],
        Fate::Error { class: 2, code: 40 },
        1,
    )?;
    check_fate(&rt, alloc, &[&rejected], Fate::Reject { reason: 9 }, 1)?;
    check_fate(&rt, alloc, &[&aborted], Fate::Abort { reason: 4 }, 1)?;
    Ok(())
}

#[test]
fn what_is_no_answer_is_passed_over(rt: HostRuntime) -> Result<(), Fail> {
    let alloc = rt.alloc();
    // Of another exchange.
    let late = [0x81, 0x0a, 0, 9, 1, 0, 0x20, 0, 0x0f];
    check_fate(&rt, alloc, &[&late, b"HTTP/1.1", &TAKEN], Fate::Taken, 1)?;
    // Deaf to the first request.
    check_fate(&rt, alloc, &[&[], &TAKEN], Fate::Taken, 2)?;
    check_fate(&rt, alloc, &[], Fate::Silent, 2)?;
    check_fate(&rt, alloc, &[&late, &late], Fate::Silent, 2)?;
    Ok(())
}

#[test]
fn what_is_found_with_another_value_is_doubted(rt: HostRuntime) -> Result<(), Fail> {
    let mut device = device(rt.alloc(), &[&TAKEN, &HAS_30])?;
    assert!(&rt; device.write(PointId(0), 45_000).is_ok());
    assert_eq!(rt; device.look(0), Look::Seen);
    let doubt = Look::Doubt {
        point: PointId(0),
        differs: true,
    };
    assert_eq!(rt; device.look(1_000), doubt);
    assert_eq!(rt; device.fate(), Fate::HasOther);
    assert_eq!(rt; device.look(9_000), Look::Quiet);
    Ok(())
}

#[test]
fn a_point_without_a_place_is_not_asked_for(rt: HostRuntime) -> Result<(), Fail> {
    let mut device = device(rt.alloc(), &[])?;
    assert!(&rt; device.write(PointId(1), 1).is_err());
    assert_eq!(rt; device.fate(), Fate::NoPlace);
    assert!(rt; device.link().sent().is_empty() && device.link().hosts().is_empty());
    Ok(())
}
