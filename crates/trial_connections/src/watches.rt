//! Connections that watch a process.

ghost use Rattle.std.specs.Prelude.{◌≡◌, ◌<◌};
ghost use Rattle.boss_model.specs.Catalogue.{actuators};

use crate::asking::{ALL, GOOD, Machine, is_line_done, prepare};
use crate::connection::bytes_sink;
use crate::outside::Own;
use crate::texts::{compare, push_sent, tell_end};
use boss_model::{Name, SessionId};
use boss_outside::BytesSink;
use boss_points::Catalogue;
use boss_shared::Desk;
use boss_watching::{WatchEnd, watch_connection};
use std::alloc::Global;
use std::process::Abort;
use std::sync::Wait;
use trial_keeper::{Trial, run_trial};
use trial_parts::THREE_POINTS;

const ATTACH: &str = r#"{"op":"attach","process":"a"}"#;

/// Two processes, of which the second takes the damper from the first.
const TAKEN: [&str; 5] = [
    ATTACH,
    r#"{"on":2,"op":"attach","process":"b"}"#,
    r#"{"at":1000,"op":"submit","writes":[{"point":"ahu1.damper","value":45000,"priority":8,"lease":60000}]}"#,
    r#"{"on":2,"at":2000,"op":"submit","writes":[{"point":"ahu1.damper","value":50000,"priority":8,"lease":1000}]}"#,
    r#"{"at":3000,"op":"tick"}"#,
];

const ENDED: &str =
    r#"{"n":1,"at":2000,"txn":1,"kind":"ended","point":"ahu1.damper","cause":"superseded","by":2}"#;

const DONE: &str = r#"{"n":2,"at":2000,"txn":1,"kind":"done"}"#;

/// One more submit of the process `a`.
const SUBMIT: &str =
    r#"{"at":1000,"op":"submit","writes":[{"point":"ahu1.damper","value":45000,"priority":8,"lease":60000}]}"#;

/// A connection that watches the process `a`, what fails, and what is then told: what it is sent, and how it ends.
#[derive(Drop)]
struct Watch {
    shows: &'static str,
    lines: &'static [&'static str],
    /// How many more submits the process makes, each of which takes the damper from the one before.
    submits: u32,
    from: u64,
    /// The number of the write and of the reading of the clock that fails, from 1; 0 is none.
    write: u64,
    reading: u64,
    machine: Machine,
    /// How many pauses say that the worker is to go on.
    going: u64,
    /// The first of those submits of which both notices are told, and the one behind the last.
    taken: (u32, u32),
    told: &'static [&'static str],
}

const FROM_1: Watch = Watch {
    shows: "from the first notice on",
    lines: &TAKEN,
    submits: 0,
    from: 1,
    write: 0,
    reading: 0,
    machine: GOOD,
    going: 12,
    taken: (0, 0),
    told: &[ENDED, DONE, "Idle; pauses: 12"],
};

const RUNS: &[Watch] = &[
    FROM_1,
    Watch {
        shows: "from the second on",
        from: 2,
        told: &[DONE, "Idle; pauses: 12"],
        ..FROM_1
    },
    Watch {
        shows: "from one that has not come",
        from: 3,
        told: &["Idle; pauses: 12"],
        ..FROM_1
    },
    Watch {
        shows: "a process that is not known yet",
        lines: &[],
        told: &["Idle; pauses: 12"],
        ..FROM_1
    },
    Watch {
        shows: "more than one call's notices, none twice",
        lines: &[ATTACH],
        submits: 101,
        taken: (1, 101),
        told: &["Idle; pauses: 12"],
        ..FROM_1
    },
    Watch {
        shows: "what came before the last 1,024 is not told, and the numbers show it",
        lines: &[ATTACH],
        submits: 520,
        taken: (8, 520),
        told: &["Idle; pauses: 12"],
        ..FROM_1
    },
    Watch {
        shows: "from behind the first that is kept",
        lines: &[ATTACH],
        submits: 520,
        from: 999,
        taken: (500, 520),
        told: &["Idle; pauses: 12"],
        ..FROM_1
    },
    Watch {
        shows: "the second pause closes",
        going: 1,
        told: &[ENDED, DONE, "Closed; pauses: 2; told to end"],
        ..FROM_1
    },
    Watch {
        shows: "the last pause closes",
        going: 11,
        told: &[ENDED, DONE, "Idle; pauses: 12; told to end"],
        ..FROM_1
    },
    Watch {
        shows: "the first write fails",
        write: 1,
        told: &["WriteFault; pauses: 0"],
        ..FROM_1
    },
    Watch {
        shows: "the second write fails",
        write: 2,
        told: &[ENDED, "WriteFault; pauses: 0"],
        ..FROM_1
    },
    Watch {
        shows: "the first reading fails",
        reading: 1,
        told: &["ClockFault; pauses: 0"],
        ..FROM_1
    },
    Watch {
        shows: "the second reading fails, behind what was told",
        reading: 2,
        told: &[ENDED, DONE, "ClockFault; pauses: 0"],
        ..FROM_1
    },
    Watch {
        shows: "the disk fails at the second call",
        machine: Machine {
            good_calls: 6,
            ..GOOD
        },
        told: &[ENDED, DONE, "DiskFault; pauses: 0"],
        ..FROM_1
    },
    Watch {
        shows: "the disk fails at the first call",
        machine: Machine {
            good_calls: 5,
            ..GOOD
        },
        told: &["DiskFault; pauses: 0"],
        ..FROM_1
    },
    Watch {
        shows: "the disk has failed before",
        machine: Machine {
            good_calls: 5,
            fed: ALL,
            broken: true,
        },
        told: &["Stopped; pauses: 0"],
        ..FROM_1
    },
    Watch {
        shows: "no memory for the second call",
        machine: Machine { fed: 5, ..GOOD },
        told: &[ENDED, DONE, "NoMemory; pauses: 0"],
        ..FROM_1
    },
];

/// Tells both notices of a transaction, which the next one took the damper from.
fn tell_taken(rt: &impl Abort, text: &mut String, txn: u64)
    requires { txn < 1000 }
{
    let done = txn * 2;
    let ended = done.saturating_sub(1);
    let by = txn + 1;
    writeln!(
        text,
        "{{\"n\":{ended},\"at\":1000,\"txn\":{txn},\"kind\":\"ended\",\"point\":\"ahu1.damper\",\"cause\":\"superseded\",\"by\":{by}}}"
    )
    .expect(rt, "memory");
    writeln!(
        text,
        "{{\"n\":{done},\"at\":1000,\"txn\":{txn},\"kind\":\"done\"}}"
    )
    .expect(rt, "memory");
}

/// Tells the notices of each of these transactions.
fn tell_all_taken(rt: &impl Abort, text: &mut String, taken: (u32, u32)) {
    for txn in taken.0..taken.1.min(1000) {
        tell_taken(rt, text, u64::from(txn));
    }
}

/// A connection that is to watch.
#[derive(Drop)]
struct Watching<'a> {
    alloc: Global,
    run: &'a Watch,
    process: Name,
    sink: BytesSink,
    own: Own,
}

/// Has so many submits of the process `a` done, and says whether all were.
fn submit_often<G: Desk>(
    alloc: Global,
    catalogue: &Catalogue,
    desk: &G,
    pass: &mut G::Pass,
    submits: u32,
) -> bool
    requires own { G.owns desk.now pass.old }
    requires plant { actuators catalogue.now ≡ G.plant desk.now }
    ensures own { G.owns desk.now pass.new }
    ensures parts { G.parts pass.new ≡ G.parts pass.old }
{
    for _ in 0..submits {
        if !is_line_done(alloc, catalogue, desk, pass, SUBMIT) {
            return false;
        }
    }
    true
}

impl Trial for Watching<'_> {
    /// How it ended, unless what comes before it did not go as it is to.
    type Told = Option<WatchEnd>;

    fn run<G: Desk>(
        &mut self,
        catalogue: &Catalogue,
        desk: &G,
        pass: &mut G::Pass,
    ) -> Option<WatchEnd> {
        let alloc = self.alloc;
        let run = self.run;
        if !prepare(alloc, catalogue, desk, pass, run.lines, run.machine.broken)
            || !submit_often(alloc, catalogue, desk, pass, run.submits)
        {
            return None;
        }
        Some(watch_connection(
            alloc,
            desk,
            pass,
            catalogue,
            SessionId(7),
            &self.process,
            run.from.max(1),
            &mut self.sink,
            &mut self.own.clock,
            &mut self.own.waiter,
        ))
    }
}

/// A connection that is to watch the process `a`.
fn ready_to_watch<'a>(rt: &impl Abort, alloc: Global, run: &'a Watch) -> Watching<'a> {
    Watching {
        alloc,
        run,
        process: Name::new(b"a").expect(rt, "a name"),
        sink: bytes_sink(rt, alloc, run.write),
        own: Own::new(rt, alloc, &[3000], run.reading, run.going),
    }
}

/// Watches over a machine of its own, and tells what was sent and how it ended.
fn watch_over<R: Abort + Wait + Sync>(
    rt: &R,
    alloc: Global,
    catalogue: &Catalogue,
    run: &Watch,
    text: &mut String,
) {
    let mut watching = ready_to_watch(rt, alloc, run);
    let Machine {
        good_calls,
        fed,
        ..
    } = run.machine;
    let ran = run_trial(rt, alloc, catalogue, good_calls, fed, &mut watching);
    let (end, _) = ran.expect(rt, "memory");
    push_sent(rt, text, watching.sink.taken());
    tell_end(rt, alloc, text, end, watching.own);
}

/// Watches, and compares what is told.
fn try_watch<R: Abort + Wait + Sync>(rt: &R, alloc: Global, catalogue: &Catalogue, run: &Watch) {
    let mut told = String::new(alloc);
    watch_over(rt, alloc, catalogue, run, &mut told);
    compare_watch(rt, alloc, told.as_str(), run);
}

/// Compares what is told of a watch.
fn compare_watch(rt: &impl Abort, alloc: Global, told: &str, run: &Watch) {
    let mut notices = String::new(alloc);
    tell_all_taken(rt, &mut notices, run.taken);
    let rest = told.strip_prefix(notices.as_str()).unwrap_or(told);
    compare(rt, alloc, rest, run.told, run.shows);
}

/// Watches each of these, and compares what is told.
fn try_all<R: Abort + Wait + Sync>(rt: &R, alloc: Global, catalogue: &Catalogue, runs: &[Watch]) {
    for run in runs {
        try_watch(rt, alloc, catalogue, run);
    }
}

#[test]
fn processes_are_watched_as_it_was_worked_out(rt: HostRuntime) {
    let alloc = rt.alloc();
    let catalogue = Catalogue::read(alloc, THREE_POINTS.as_bytes()).expect(&rt, "a catalogue");
    try_all(&rt, alloc, &catalogue, RUNS);
}
