//! Looks of devices over a link in memory. The frames were worked out by hand from MODBUS Application Protocol 1.1b3, sections 6.1 and 6.3.

use crate::plant::{DAMPER, part_looked_after};
use boss_modbus::{Fate, ModbusDevice};
use boss_model::{Items, NoMemory};
use boss_outside::{Actuators, ListLink, Look};
use std::alloc::Global;
use std::process::Abort;
use std::test::Fail;

const HOST: &[u8] = b"10.0.0.5:502";

/// Transaction 1 sets the damper to 45: function 6, register 2, 45.
const DAMPER_AT_45: [u8; 12] = [0, 1, 0, 0, 0, 6, 1, 6, 0, 2, 0, 45];

/// A device whose one connection gives these bytes, and whose places are looked after so often.
fn device(
    alloc: Global,
    bytes: &[u8],
    check: u64,
    again: u64,
) -> Result<ModbusDevice<ListLink>, NoMemory> {
    let mut contents = Items::new(alloc);
    contents.try_push(Items::from_vec(bytes.to_vec(alloc)?))?;
    let link = ListLink::new(alloc, contents, 13, Items::new(alloc))?;
    let mut device = ModbusDevice::new(alloc, link);
    device.assign(part_looked_after(alloc, HOST, check, again)?);
    Ok(device)
}

/// Sets the damper to 45, which its device has to take.
fn set_damper(rt: &impl Abort, device: &mut ModbusDevice<ListLink>) {
    assert!(rt; device.write(DAMPER, 45_000).is_ok());
}

/// What comes of a look at this moment has to be this.
fn look_at(rt: &impl Abort, device: &mut ModbusDevice<ListLink>, now: u64, expected: Look) {
    assert_eq!(rt; device.look(now), expected);
}

#[test]
fn a_value_is_asked_for_until_it_is_another(rt: HostRuntime) -> Result<(), Fail> {
    let alloc = rt.alloc();
    let has_45 = [0, 2, 0, 0, 0, 5, 1, 3, 2, 0, 45];
    let has_30 = [0, 3, 0, 0, 0, 5, 1, 3, 2, 0, 30];
    let all = [DAMPER_AT_45.as_slice(), &has_45, &has_30].concat(alloc)?;
    let mut device = device(alloc, all.as_slice(), 1_000, 0)?;
    set_damper(&rt, &mut device);
    // The first look behind a write begins its time, and asks nothing.
    look_at(&rt, &mut device, 5_000, Look::Seen);
    look_at(&rt, &mut device, 5_999, Look::Quiet);
    look_at(&rt, &mut device, 6_000, Look::Seen);
    let doubt = Look::Doubt {
        point: DAMPER,
        differs: true,
    };
    look_at(&rt, &mut device, 7_000, doubt);
    // Until its device takes a value again nobody asks.
    look_at(&rt, &mut device, 99_000, Look::Quiet);
    let sent = [
        0, 1, 0, 0, 0, 6, 1, 6, 0, 2, 0, 45, 0, 2, 0, 0, 0, 6, 1, 3, 0, 2, 0, 1, 0, 3, 0, 0, 0, 6,
        1, 3, 0, 2, 0, 1,
    ];
    assert_eq!(rt; device.link().sent(), sent.as_slice());
    Ok(())
}

#[test]
fn a_device_that_tells_nothing_is_doubted(rt: HostRuntime) -> Result<(), Fail> {
    let alloc = rt.alloc();
    let refused = [0, 2, 0, 0, 0, 3, 1, 0x83, 2];
    let all = [DAMPER_AT_45.as_slice(), &refused].concat(alloc)?;
    let mut device = device(alloc, all.as_slice(), 1_000, 0)?;
    set_damper(&rt, &mut device);
    look_at(&rt, &mut device, 0, Look::Seen);
    let doubt = Look::Doubt {
        point: DAMPER,
        differs: false,
    };
    look_at(&rt, &mut device, 1_000, doubt);
    assert_eq!(rt; device.fate(), Fate::Exception { code: 2 });
    Ok(())
}

#[test]
fn a_value_is_written_once_more_without_a_question(rt: HostRuntime) -> Result<(), Fail> {
    let mut device = device(rt.alloc(), &DAMPER_AT_45, 0, 30_000)?;
    set_damper(&rt, &mut device);
    look_at(&rt, &mut device, 0, Look::Seen);
    look_at(&rt, &mut device, 29_999, Look::Quiet);
    let doubt = Look::Doubt {
        point: DAMPER,
        differs: false,
    };
    look_at(&rt, &mut device, 30_000, doubt);
    assert_eq!(rt; device.link().sent(), DAMPER_AT_45.as_slice());
    Ok(())
}
