//! What is said of a write on the standard error. The names of codes are those of MODBUS Application Protocol 1.1b3,
//! section 7.

use crate::plant::{DAMPER, FAN, LAMP, part};
use boss_field::{FateLine, Outcome, Raw, Reason};
use boss_modbus::Fate;
use std::io::ErrorKind;
use std::test::Fail;

#[test]
fn a_line_has_the_place_and_what_came_of_the_write(rt: HostRuntime) -> Result<(), Fail> {
    let alloc = rt.alloc();
    let part = part(alloc, b"10.0.0.5:502")?;
    let lines = [
        (
            LAMP,
            Fate::Exception { code: 2 },
            "10.0.0.5:502 unit 1 coil 19: refused with code 2, illegal data address",
        ),
        (
            LAMP,
            Fate::Exception { code: 7 },
            "10.0.0.5:502 unit 1 coil 19: refused with code 7",
        ),
        (
            DAMPER,
            Fate::LinkFault,
            "10.0.0.5:502 unit 1 register 2: the link failed",
        ),
        (
            DAMPER,
            Fate::Taken,
            "10.0.0.5:502 unit 1 register 2: taken again",
        ),
        (
            DAMPER,
            Fate::Ended,
            "10.0.0.5:502 unit 1 register 2: the host ended the connection before a whole response",
        ),
        (
            DAMPER,
            Fate::Wrong,
            "10.0.0.5:502 unit 1 register 2: what came back is no response to what was asked",
        ),
        (
            LAMP,
            Fate::NoPlace,
            "10.0.0.5:502 unit 1 coil 19: the value has no form there, so nothing was sent",
        ),
        (
            FAN,
            Fate::NoPlace,
            "10.0.0.5:502 point 2: the value has no form there, so nothing was sent",
        ),
    ];
    for (point, fate, expected) in lines {
        let part = &part;
        let line = FateLine {
            part,
            point,
            outcome: Outcome::Modbus { fate },
            reason: None,
            found: None,
            wanted: None,
        };
        let text = format!(in alloc; "{line}")?;
        assert_eq!(rt; text.as_str(), expected);
    }
    Ok(())
}

#[test]
fn a_difference_is_told_in_the_devices_own_numbers(rt: HostRuntime) -> Result<(), Fail> {
    let alloc = rt.alloc();
    let part = part(alloc, b"10.0.0.5:502")?;
    let whole = |number: i64| Some(Raw::Whole { number });
    let real = |bits: u32| Some(Raw::Real { bits });
    let switch = |on: bool| Some(Raw::Switch { on });
    let lines = [
        (
            Fate::HasOther,
            whole(30),
            whole(45),
            "had 30 in place of 45",
        ),
        (Fate::Has, None, whole(-45), "has -45 again"),
        (
            Fate::HasOther,
            switch(false),
            switch(true),
            "had off in place of on",
        ),
        (
            Fate::HasOther,
            None,
            switch(true),
            "had another value in place of on",
        ),
        // 21.5 and -100, a thousandth, 0, the greatest binary32 and what is none.
        (
            Fate::HasOther,
            real(0x41ac_0000),
            real(0xc2c8_0000),
            "had 21.5 in place of -100",
        ),
        (
            Fate::HasOther,
            real(0x3a83_126f),
            real(0),
            "had 0.001 in place of 0",
        ),
        (
            Fate::HasOther,
            real(0x7f7f_ffff),
            real(0x7fc0_0000),
            "had a number beyond 10^19 in place of no number",
        ),
    ];
    for (fate, found, wanted, expected) in lines {
        let line = FateLine {
            part: &part,
            point: DAMPER,
            outcome: Outcome::Modbus { fate },
            reason: None,
            found,
            wanted,
        };
        let text = format!(in alloc; "{line}")?;
        let expected = format!(in alloc; "10.0.0.5:502 unit 1 register 2: {expected}")?;
        assert_eq!(rt; text.as_str(), expected.as_str());
    }
    Ok(())
}

#[test]
fn why_a_link_failed_is_told(rt: HostRuntime) -> Result<(), Fail> {
    let alloc = rt.alloc();
    let part = part(alloc, b"10.0.0.5:502")?;
    let lines = [
        (
            Reason::Broken(ErrorKind::TimedOut),
            "no answer within 5000 ms",
        ),
        (
            Reason::Broken(ErrorKind::ConnectionReset),
            "connection reset by the host",
        ),
        (
            Reason::Unreached(ErrorKind::ConnectionRefused),
            "connection refused",
        ),
    ];
    for (reason, expected) in lines {
        let line = FateLine {
            part: &part,
            point: DAMPER,
            outcome: Outcome::Modbus {
                fate: Fate::LinkFault,
            },
            reason: Some(reason),
            found: None,
            wanted: None,
        };
        let text = format!(in alloc; "{line}")?;
        let expected = format!(in alloc; "10.0.0.5:502 unit 1 register 2: {expected}")?;
        assert_eq!(rt; text.as_str(), expected.as_str());
    }
    Ok(())
}
