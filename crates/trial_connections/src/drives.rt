//! The worker that drives devices.

ghost use Rattle.std.specs.Prelude.{◌≡◌};
ghost use Rattle.boss_model.specs.Catalogue.{actuators};

use crate::asking::{ALL, GOOD, Machine, prepare};
use crate::connection::{Connection, NONE_FAILS};
use crate::outside::{Own, call};
use crate::pieces::Piece;
use crate::texts::{compare, joined, push_sent, tell_end};
use boss_drive::drive;
use boss_expiry::WorkEnd;
use boss_model::{DriverId, SessionId};
use boss_outside::{DeviceCall, SimActuators};
use boss_points::Catalogue;
use boss_shared::Desk;
use std::alloc::Global;
use std::process::Abort;
use std::sync::Wait;
use trial_keeper::{Trial, run_trial};
use trial_parts::THREE_POINTS;

/// Turns of the driver.
#[derive(Drop)]
struct Turns {
    moments: &'static [u32],
    /// The number of the reading of the clock that fails, from 1; 0 is none.
    reading: u64,
    turns: u64,
    /// How many pauses say that the worker is to go on.
    going: u64,
}

/// The driver's turns, and between the first and the second of them what sessions have done; what fails; and what a session asks at the
/// end. Then what is told: each call of a device, how the first turns and the others ended, and what the session is answered.
#[derive(Drop)]
struct Drive {
    shows: &'static str,
    machine: Machine,
    /// The number of the write that fails, from 1; 0 is none.
    write: u64,
    first: Turns,
    lines: &'static [&'static str],
    then: Turns,
    asks: &'static [&'static str],
    /// The moment at which it asks.
    at: u32,
    told: &'static [&'static str],
}

/// Three writes at the opening, and a turn without a want.
const OPENING: Turns = Turns {
    moments: &[0],
    reading: 0,
    turns: 4,
    going: 8,
};

const NO_TURN: Turns = Turns {
    turns: 0,
    ..OPENING
};

const DAMPER: &str = "ahu1.damper 20000 ok";

const LAMP: &str = "lamp 0 ok";

const FAN: &str = "fan 1 ok";

const DONE: &str = "Finished; pauses: 1";

const NONE_DONE: &str = "Finished; pauses: 0";

const OPENED: Drive = Drive {
    shows: "the opening",
    machine: GOOD,
    write: 0,
    first: OPENING,
    lines: &[],
    then: NO_TURN,
    asks: &[],
    at: 0,
    told: &[DAMPER, LAMP, FAN, DONE, NONE_DONE],
};

const ATTACH: &str = r#"{"op":"attach","process":"a"}"#;

const ONE_WRITE: &str =
    r#"{"at":1000,"op":"submit","writes":[{"point":"ahu1.damper","value":45000,"priority":8,"lease":60000}]}"#;

const TWO_WRITES: &str =
    r#"{"at":1000,"op":"submit","writes":[{"point":"ahu1.damper","value":45000,"priority":8,"lease":60000,"revert":[[30000,5000]]},{"point":"lamp","value":1,"priority":8,"lease":60000}]}"#;

const KEPT_WRITES: &str =
    r#"{"at":1000,"op":"submit","policy":"keep","writes":[{"point":"ahu1.damper","value":45000,"priority":8,"lease":60000},{"point":"lamp","value":1,"priority":8,"lease":60000}]}"#;

const NOTICES: &str = r#"{"op":"notices","process":"a"}"#;

const READ_LAMP: &str = r#"{"op":"read","point":"lamp"}"#;

const RUNS: &[Drive] = &[
    OPENED,
    Drive {
        shows: "a device that fails aborts its transaction",
        write: 5,
        lines: &[ATTACH, TWO_WRITES],
        then: Turns {
            moments: &[1000],
            turns: 5,
            ..OPENING
        },
        asks: &[NOTICES],
        at: 1000,
        told: &[
            DAMPER,
            LAMP,
            FAN,
            "ahu1.damper 45000 ok",
            "lamp 1 failed",
            "ahu1.damper 30000 ok",
            "lamp 0 ok",
            DONE,
            DONE,
            r#"{"ok":"notices","first":1,"next":4,"list":[{"n":1,"at":1000,"txn":1,"kind":"fault","point":"lamp"},{"n":2,"at":1000,"txn":1,"kind":"ended","point":"ahu1.damper","cause":"fault"},{"n":3,"at":1000,"txn":1,"kind":"ended","point":"lamp","cause":"fault"}]}"#,
        ],
        ..OPENED
    },
    Drive {
        shows: "a device that fails ends the only lease of its transaction",
        write: 4,
        lines: &[ATTACH, ONE_WRITE],
        then: Turns {
            moments: &[1000],
            turns: 3,
            ..OPENING
        },
        asks: &[NOTICES],
        at: 1000,
        told: &[
            DAMPER,
            LAMP,
            FAN,
            "ahu1.damper 45000 failed",
            "ahu1.damper 20000 ok",
            DONE,
            DONE,
            r#"{"ok":"notices","first":1,"next":4,"list":[{"n":1,"at":1000,"txn":1,"kind":"fault","point":"ahu1.damper"},{"n":2,"at":1000,"txn":1,"kind":"ended","point":"ahu1.damper","cause":"fault"},{"n":3,"at":1000,"txn":1,"kind":"done"}]}"#,
        ],
        ..OPENED
    },
    Drive {
        shows: "a device that fails is not told again within five seconds, where the transaction is kept",
        write: 5,
        lines: &[ATTACH, KEPT_WRITES],
        then: Turns {
            moments: &[1000, 1000, 1000, 1000, 5999],
            turns: 3,
            ..OPENING
        },
        asks: &[NOTICES, READ_LAMP],
        at: 5999,
        told: &[
            DAMPER,
            LAMP,
            FAN,
            "ahu1.damper 45000 ok",
            "lamp 1 failed",
            DONE,
            DONE,
            r#"{"ok":"notices","first":1,"next":2,"list":[{"n":1,"at":1000,"txn":1,"kind":"fault","point":"lamp"}]}"#,
            r#"{"ok":"read","point":"lamp","value":1,"from":"lease","priority":8,"txn":1,"mark":"failed","took":0,"since":0}"#,
        ],
        ..OPENED
    },
    Drive {
        shows: "a device that fails is told again after five seconds, where the transaction is kept",
        write: 5,
        lines: &[ATTACH, KEPT_WRITES],
        then: Turns {
            moments: &[1000, 1000, 1000, 1000, 5999, 6000],
            turns: 4,
            ..OPENING
        },
        asks: &[READ_LAMP],
        at: 6000,
        told: &[
            DAMPER,
            LAMP,
            FAN,
            "ahu1.damper 45000 ok",
            "lamp 1 failed",
            "lamp 1 ok",
            DONE,
            DONE,
            r#"{"ok":"read","point":"lamp","value":1,"from":"lease","priority":8,"txn":1,"mark":"settled"}"#,
        ],
        ..OPENED
    },
    Drive {
        shows: "a pause closes",
        first: Turns {
            turns: 6,
            going: 0,
            ..OPENING
        },
        told: &[
            DAMPER,
            LAMP,
            FAN,
            "Closed; pauses: 1; told to end",
            NONE_DONE,
        ],
        ..OPENED
    },
    Drive {
        shows: "the first reading fails",
        first: Turns {
            reading: 1,
            ..OPENING
        },
        told: &["ClockFault; pauses: 0", NONE_DONE],
        ..OPENED
    },
    Drive {
        shows: "the reading for a report fails, behind its write",
        first: Turns {
            reading: 4,
            ..OPENING
        },
        told: &[DAMPER, LAMP, "ClockFault; pauses: 0", NONE_DONE],
        ..OPENED
    },
    Drive {
        shows: "the disk fails where a want is asked for",
        machine: Machine {
            good_calls: 2,
            ..GOOD
        },
        told: &[DAMPER, "DiskFault; pauses: 0", NONE_DONE],
        ..OPENED
    },
    Drive {
        shows: "the disk fails at a report, and has failed for the next turns",
        machine: Machine {
            good_calls: 3,
            ..GOOD
        },
        then: OPENING,
        told: &[DAMPER, LAMP, "DiskFault; pauses: 0", "Stopped; pauses: 0"],
        ..OPENED
    },
    Drive {
        shows: "the disk has failed before",
        machine: Machine {
            good_calls: 0,
            fed: ALL,
            broken: true,
        },
        told: &["Stopped; pauses: 0", NONE_DONE],
        ..OPENED
    },
    Drive {
        shows: "no memory is wanted",
        machine: Machine { fed: 0, ..GOOD },
        ..OPENED
    },
];

/// Turns of a driver that are to be taken.
#[derive(Drop)]
struct Driving<'a> {
    alloc: Global,
    run: &'a Drive,
    devices: SimActuators,
    first: Own,
    then: Own,
    question: Connection<'a>,
}

/// How the turns ended, unless what comes before them did not go as it is to.
#[derive(Drop)]
struct Driven {
    first: Option<WorkEnd>,
    then: Option<WorkEnd>,
}

/// Takes turns.
fn take<G: Desk>(
    desk: &G,
    pass: &mut G::Pass,
    catalogue: &Catalogue,
    devices: &mut SimActuators,
    own: &mut Own,
    turns: u64,
) -> Option<WorkEnd>
    requires own { G.owns desk.now pass.old }
    requires plant { actuators catalogue.now ≡ G.plant desk.now }
    ensures own { G.owns desk.now pass.new }
    ensures parts { G.parts pass.new ≡ G.parts pass.old }
{
    Some(drive(
        desk,
        pass,
        catalogue,
        DriverId(0),
        devices,
        &mut own.clock,
        &mut own.waiter,
        turns,
    ))
}

impl Trial for Driving<'_> {
    type Told = Driven;

    fn run<G: Desk>(&mut self, catalogue: &Catalogue, desk: &G, pass: &mut G::Pass) -> Driven {
        let alloc = self.alloc;
        let run = self.run;
        let mut driven = Driven {
            first: None,
            then: None,
        };
        if prepare(alloc, catalogue, desk, pass, &[], run.machine.broken) {
            let devices = &mut self.devices;
            driven.first = take(
                desk,
                pass,
                catalogue,
                devices,
                &mut self.first,
                run.first.turns,
            );
        }
        if prepare(alloc, catalogue, desk, pass, run.lines, false) {
            let devices = &mut self.devices;
            driven.then = take(
                desk,
                pass,
                catalogue,
                devices,
                &mut self.then,
                run.then.turns,
            );
        }
        let _ = self
            .question
            .serve(alloc, catalogue, None, desk, pass, SessionId(9));
        driven
    }
}

/// The name of a point.
fn name_of(point: u32) -> &'static str {
    match point {
        0 => "ahu1.damper",
        1 => "lamp",
        _ => "fan",
    }
}

/// Tells of each call of a device.
fn tell_calls(rt: &impl Abort, text: &mut String, calls: &[DeviceCall]) {
    for call in calls {
        tell_call(rt, text, call);
    }
}

fn tell_call(rt: &impl Abort, text: &mut String, call: &DeviceCall) {
    let taken = if call.ok { "ok" } else { "failed" };
    let name = name_of(call.point.0);
    writeln!(text, "{name} {} {taken}", call.value).expect(rt, "memory");
}

/// The turns of a run, and the question behind them.
fn ready_to_drive<'a>(
    rt: &impl Abort,
    alloc: Global,
    run: &'a Drive,
    asks: &'a str,
) -> Driving<'a> {
    Driving {
        alloc,
        run,
        devices: devices_of(rt, alloc, run.write),
        first: own_of(rt, alloc, &run.first),
        then: own_of(rt, alloc, &run.then),
        question: Connection::new(rt, alloc, asks, Piece::Whole, &[run.at], NONE_FAILS),
    }
}

/// Devices of which the write of this number fails, from 1; 0 is none.
fn devices_of(rt: &impl Abort, alloc: Global, write: u64) -> SimActuators {
    SimActuators::new(alloc, call(rt, alloc, write)).expect(rt, "memory")
}

/// What the turns are taken by.
fn own_of(rt: &impl Abort, alloc: Global, turns: &Turns) -> Own {
    Own::new(rt, alloc, turns.moments, turns.reading, turns.going)
}

/// Tells of the calls, how the turns ended, and what the session was answered.
fn tell(rt: &impl Abort, alloc: Global, text: &mut String, driving: Driving<'_>, driven: Driven) {
    let Driving {
        devices,
        first,
        then,
        question,
        ..
    } = driving;
    tell_calls(rt, text, devices.calls());
    tell_end(rt, alloc, text, driven.first, first);
    tell_end(rt, alloc, text, driven.then, then);
    push_sent(rt, text, question.sink.taken());
}

/// Drives over a machine of its own, and tells of it.
fn drive_over<R: Abort + Wait + Sync>(
    rt: &R,
    alloc: Global,
    catalogue: &Catalogue,
    run: &Drive,
    asks: &str,
    text: &mut String,
) {
    let mut driving = ready_to_drive(rt, alloc, run, asks);
    let Machine {
        good_calls,
        fed,
        ..
    } = run.machine;
    let ran = run_trial(rt, alloc, catalogue, good_calls, fed, &mut driving);
    let (driven, _) = ran.expect(rt, "memory");
    tell(rt, alloc, text, driving, driven);
}

/// Drives, and compares what is told.
fn try_drive<R: Abort + Wait + Sync>(rt: &R, alloc: Global, catalogue: &Catalogue, run: &Drive) {
    let asks = joined(rt, alloc, run.asks);
    let mut told = String::new(alloc);
    drive_over(rt, alloc, catalogue, run, asks.as_str(), &mut told);
    compare(rt, alloc, told.as_str(), run.told, run.shows);
}

/// Drives each of these, and compares what is told.
fn try_all<R: Abort + Wait + Sync>(rt: &R, alloc: Global, catalogue: &Catalogue, runs: &[Drive]) {
    for run in runs {
        try_drive(rt, alloc, catalogue, run);
    }
}

#[test]
fn devices_are_driven_as_it_was_worked_out(rt: HostRuntime) {
    let alloc = rt.alloc();
    let catalogue = Catalogue::read(alloc, THREE_POINTS.as_bytes()).expect(&rt, "a catalogue");
    try_all(&rt, alloc, &catalogue, RUNS);
}
