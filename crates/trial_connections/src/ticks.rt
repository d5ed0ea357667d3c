//! The worker that lets time pass.

ghost use Rattle.std.specs.Prelude.{◌≡◌};
ghost use Rattle.boss_model.specs.Catalogue.{actuators};

use crate::asking::{ALL, GOOD, Machine, prepare};
use crate::outside::Own;
use crate::texts::{compare, tell_end};
use boss_expiry::{WorkEnd, expire};
use boss_model::SessionId;
use boss_points::Catalogue;
use boss_shared::Desk;
use std::alloc::Global;
use std::process::Abort;
use std::sync::Wait;
use trial_keeper::{Taken, Trial, run_trial};
use trial_parts::THREE_POINTS;

/// A lease of a minute, which ends at 61000.
const LEASE: &[&str] = &[
    r#"{"op":"attach","process":"a"}"#,
    r#"{"at":1000,"op":"submit","writes":[{"point":"ahu1.damper","value":45000,"priority":8,"lease":60000}]}"#,
];

/// Turns behind the lease, what fails, and what is told of them: the moment of each tick in which the disk does not fail, and the
/// machine's own after it; and how they end.
#[derive(Drop)]
struct Ticks {
    shows: &'static str,
    moments: &'static [u32],
    /// The number of the reading of the clock that fails, from 1; 0 is none.
    reading: u64,
    machine: Machine,
    turns: u64,
    /// How many pauses say that the worker is to go on.
    going: u64,
    told: &'static [&'static str],
}

const THREE_TURNS: Ticks = Ticks {
    shows: "the lease ends at its moment",
    moments: &[60_999, 61_000, 61_000],
    reading: 0,
    machine: GOOD,
    turns: 3,
    going: 8,
    told: &[
        "tick at 60999, now 1000",
        "tick at 61000, now 61000",
        "tick at 61000, now 61000",
        "Finished; pauses: 3",
    ],
};

const RUNS: &[Ticks] = &[
    THREE_TURNS,
    Ticks {
        shows: "a moment before the machine's own lets no time pass",
        moments: &[61_000, 500, 500],
        told: &[
            "tick at 61000, now 61000",
            "tick at 500, now 61000",
            "tick at 500, now 61000",
            "Finished; pauses: 3",
        ],
        ..THREE_TURNS
    },
    Ticks {
        shows: "no turn",
        turns: 0,
        told: &["Finished; pauses: 0"],
        ..THREE_TURNS
    },
    Ticks {
        shows: "the first reading fails",
        reading: 1,
        told: &["ClockFault; pauses: 0"],
        ..THREE_TURNS
    },
    Ticks {
        shows: "the second reading fails",
        reading: 2,
        told: &["tick at 60999, now 1000", "ClockFault; pauses: 1"],
        ..THREE_TURNS
    },
    Ticks {
        shows: "the second pause closes",
        going: 1,
        told: &[
            "tick at 60999, now 1000",
            "tick at 61000, now 61000",
            "Closed; pauses: 2; told to end",
        ],
        ..THREE_TURNS
    },
    Ticks {
        shows: "the last pause closes",
        going: 2,
        told: &[
            "tick at 60999, now 1000",
            "tick at 61000, now 61000",
            "tick at 61000, now 61000",
            "Finished; pauses: 3; told to end",
        ],
        ..THREE_TURNS
    },
    Ticks {
        shows: "the disk fails at the second tick",
        machine: Machine {
            good_calls: 3,
            ..GOOD
        },
        told: &["tick at 60999, now 1000", "DiskFault; pauses: 1"],
        ..THREE_TURNS
    },
    Ticks {
        shows: "the disk has failed before",
        machine: Machine {
            good_calls: 2,
            fed: ALL,
            broken: true,
        },
        told: &["Stopped; pauses: 0"],
        ..THREE_TURNS
    },
    Ticks {
        shows: "no memory is wanted",
        machine: Machine { fed: 2, ..GOOD },
        ..THREE_TURNS
    },
];

/// Turns that are to be taken.
#[derive(Drop)]
struct Ticking<'a> {
    alloc: Global,
    run: &'a Ticks,
    own: Own,
}

impl Trial for Ticking<'_> {
    /// How they ended, unless what comes before them did not go as it is to.
    type Told = Option<WorkEnd>;

    fn run<G: Desk>(
        &mut self,
        catalogue: &Catalogue,
        desk: &G,
        pass: &mut G::Pass,
    ) -> Option<WorkEnd> {
        let alloc = self.alloc;
        if !prepare(alloc, catalogue, desk, pass, LEASE, self.run.machine.broken) {
            return None;
        }
        Some(expire(
            desk,
            pass,
            &mut self.own.clock,
            &mut self.own.waiter,
            self.run.turns,
        ))
    }
}

/// Tells of the ticks among these calls.
fn tell_ticks(rt: &impl Abort, text: &mut String, taken: &[Taken]) {
    for call in taken {
        if call.session == SessionId(0) {
            let now = call.ticked.unwrap_or(0);
            writeln!(text, "tick at {}, now {now}", call.moment).expect(rt, "memory");
        }
    }
}

/// The turns of a run.
fn ready_to_tick<'a>(rt: &impl Abort, alloc: Global, run: &'a Ticks) -> Ticking<'a> {
    Ticking {
        alloc,
        run,
        own: Own::new(rt, alloc, run.moments, run.reading, run.going),
    }
}

/// Takes the turns over a machine of their own, and tells of the ticks and how they ended.
fn take_turns<R: Abort + Wait + Sync>(
    rt: &R,
    alloc: Global,
    catalogue: &Catalogue,
    run: &Ticks,
    text: &mut String,
) {
    let mut ticking = ready_to_tick(rt, alloc, run);
    let Machine {
        good_calls,
        fed,
        ..
    } = run.machine;
    let ran = run_trial(rt, alloc, catalogue, good_calls, fed, &mut ticking);
    let (end, taken) = ran.expect(rt, "memory");
    tell_ticks(rt, text, taken.slice());
    tell_end(rt, alloc, text, end, ticking.own);
}

/// Takes the turns, and compares what is told of them.
fn try_turns<R: Abort + Wait + Sync>(rt: &R, alloc: Global, catalogue: &Catalogue, run: &Ticks) {
    let mut told = String::new(alloc);
    take_turns(rt, alloc, catalogue, run, &mut told);
    compare(rt, alloc, told.as_str(), run.told, run.shows);
}

/// Takes the turns of each of these, and compares what is told of them.
fn try_all<R: Abort + Wait + Sync>(rt: &R, alloc: Global, catalogue: &Catalogue, runs: &[Ticks]) {
    for run in runs {
        try_turns(rt, alloc, catalogue, run);
    }
}

#[test]
fn time_passes_turn_by_turn(rt: HostRuntime) {
    let alloc = rt.alloc();
    let catalogue = Catalogue::read(alloc, THREE_POINTS.as_bytes()).expect(&rt, "a catalogue");
    try_all(&rt, alloc, &catalogue, RUNS);
}
