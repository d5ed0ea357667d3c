//! A driver with three points, and the host that they are wired to.

use boss_model::{
    DriverPlan, Form, Function, Half, Items, NoMemory, Place, PointId, Protocol, Round, Scale,
    Where,
};
use std::alloc::Global;

/// An analog point, in register 2 of unit 1, which counts units and not thousandths of them.
pub const DAMPER: PointId = PointId(0);

/// A binary point, in coil 19 of unit 1.
pub const LAMP: PointId = PointId(1);

/// A point that the driver's host has no place for.
pub const FAN: PointId = PointId(2);

/// An analog point, as a binary32 in the registers 10 and 11 of unit 1, in units.
pub const FLOW: PointId = PointId(3);

const PLACES: [Place; 3] = [
    Place {
        point: DAMPER,
        unit: 1,
        at: Where::Register {
            address: 2,
            form: Form::Unsigned16,
            scale: Scale {
                times: 1,
                per: 1_000,
                offset: 0,
                round: Round::Down,
            },
            function: Function::WriteSingle,
        },
        check: 0,
        again: 0,
    },
    Place {
        point: LAMP,
        unit: 1,
        at: Where::Coil {
            address: 19,
            function: Function::WriteSingle,
        },
        check: 0,
        again: 0,
    },
    Place {
        point: FLOW,
        unit: 1,
        at: Where::Register {
            address: 10,
            form: Form::Single { first: Half::High },
            scale: Scale {
                times: 1,
                per: 1_000,
                offset: 0,
                round: Round::Down,
            },
            function: Function::WriteMultiple,
        },
        check: 0,
        again: 0,
    },
];

/// What the devices are assigned where their host is at this address.
pub fn part(alloc: Global, host: &[u8]) -> Result<DriverPlan, NoMemory> {
    Ok(DriverPlan {
        host: Items::from_vec(host.to_vec(alloc)?),
        speaks: Protocol::Modbus,
        wait: 5_000,
        tries: 1,
        places: Items::from_vec(PLACES.to_vec(alloc)?),
    })
}

/// The same with an answer within 200 ms, of which the analog points stand in unit 2.
pub fn part_of_two_units(alloc: Global, host: &[u8]) -> Result<DriverPlan, NoMemory> {
    let mut places = Items::new(alloc);
    for place in PLACES {
        let unit = if place.point == LAMP { 1 } else { 2 };
        places.try_push(Place { unit, ..place })?;
    }
    Ok(DriverPlan {
        places,
        wait: 200,
        ..part(alloc, host)?
    })
}

/// The same as [`part`], of which each place is checked and written once more so often.
pub fn part_looked_after(
    alloc: Global,
    host: &[u8],
    check: u64,
    again: u64,
) -> Result<DriverPlan, NoMemory> {
    let mut places = Items::new(alloc);
    for place in PLACES {
        places.try_push(Place {
            check,
            again,
            ..place
        })?;
    }
    Ok(DriverPlan {
        places,
        ..part(alloc, host)?
    })
}
