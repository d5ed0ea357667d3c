// Disks that stop or fail at each of their calls, and what is opened of all that a crash may leave.
ghost use Rattle.boss_model.specs.Catalogue.{actuators};
ghost use Rattle.boss_scripts.specs.Devices.{HasDevices};

use crate::outside::*;
use boss_manager::Status;
use boss_points::Catalogue;
use std::alloc::Global;
use std::process::Abort;

const INPUT: &str = "{\"op\":\"attach\",\"process\":\"a\"}
{\"at\":1000,\"op\":\"submit\",\"writes\":[{\"point\":\"ahu1.damper\",\"value\":45000,\"priority\":8,\"lease\":60000}]}
{\"at\":2000,\"op\":\"read\",\"point\":\"lamp\"}
";

/// What the script tells up to the answer of each line, where no disk fails.
const ANSWERED: [&str; 3] = [
    "write field ahu1.damper 20000 ok
write field lamp 0 ok
write field fan 1 ok
{\"ok\":\"attached\",\"process\":\"a\",\"next\":1}
",
    "write field ahu1.damper 20000 ok
write field lamp 0 ok
write field fan 1 ok
{\"ok\":\"attached\",\"process\":\"a\",\"next\":1}
{\"ok\":\"accepted\",\"txn\":1,\"until\":61000}
",
    "write field ahu1.damper 20000 ok
write field lamp 0 ok
write field fan 1 ok
{\"ok\":\"attached\",\"process\":\"a\",\"next\":1}
{\"ok\":\"accepted\",\"txn\":1,\"until\":61000}
write field ahu1.damper 45000 ok
{\"ok\":\"read\",\"point\":\"lamp\",\"value\":0,\"from\":\"default\",\"mark\":\"settled\"}
",
];

const STOPPED: &str = "{\"error\":\"stopped\"}\n";

const NEW: &str = "journal new\n";

/// What a check tells behind so many of the two changes.
const HELD: [&str; 3] = [
    "events 0 now 0 leases 0 pending 0\n",
    "events 1 now 0 leases 0 pending 0\n",
    "events 2 now 1000 leases 1 pending 0\n",
];

/// The pairs of ways in which bytes of the two disks that a crash may change are picked.
pub const PICKS: [(u64, u64); 16] = [
    (0, 0),
    (0, 1),
    (0, 2),
    (0, 5),
    (1, 0),
    (1, 1),
    (1, 2),
    (1, 5),
    (2, 0),
    (2, 1),
    (2, 2),
    (2, 5),
    (5, 0),
    (5, 1),
    (5, 2),
    (5, 5),
];

/// More calls than the script makes of a disk.
pub const MANY: u64 = 60;

/// What is left of a text before the `stopped` at its end, and how often that stands there, up to three times.
fn before_stops(told: &[u8]) -> (&[u8], usize) {
    let mut front = told;
    let mut stops: usize = 0;
    for _ in 0..3 {
        if let Some(rest) = front.strip_suffix(STOPPED.as_bytes()) {
            front = rest;
            stops = stops.saturating_add(1);
        }
    }
    (front, stops)
}

/// How many of the three lines were answered. The text has to be a front of the whole one, and then `stopped` for each line that is
/// left; or nothing, where the journal was not opened.
fn answered(rt: &impl Abort, told: &[u8]) -> usize {
    let (front, stops) = before_stops(told);
    assert!(rt; ANSWERED[2].as_bytes().starts_with(front));
    let mut answered: usize = 0;
    for text in &ANSWERED {
        if text.len() <= front.len() {
            answered = answered.saturating_add(1);
        }
    }
    assert!(rt; told.is_empty() || answered.saturating_add(stops) == 3);
    answered
}

/// Whether a check may tell this where so many lines were answered: each change that was answered, and at most the next.
fn may_hold(told: &[u8], answered: usize) -> bool {
    let nothing = answered == 0 && told == NEW.as_bytes();
    let all = HELD[answered.min(2)];
    let next = HELD[answered.saturating_add(1).min(2)];
    nothing || told == all.as_bytes() || told == next.as_bytes()
}

/// Looks at all that a crash may leave of two disks on which so many lines were answered.
fn look(rt: &impl Abort, alloc: Global, catalogue: &Catalogue, disks: &Pair, answered: usize) {
    for picks in &PICKS {
        look_at(rt, alloc, catalogue, disks, *picks, answered);
    }
}

/// Looks at the images that these numbers pick.
fn look_at(
    rt: &impl Abort,
    alloc: Global,
    catalogue: &Catalogue,
    disks: &Pair,
    picks: (u64, u64),
    answered: usize,
) {
    let left = images(rt, alloc, disks, picks);
    let (_, sink) = check(rt, alloc, catalogue, left);
    assert!(rt; may_hold(sink.taken(), answered));
}

/// Runs the script over an empty pair with these troubles, and looks at what is left. Whether it was run to its end.
fn try_script(
    rt: &impl Abort,
    alloc: Global,
    catalogue: &Catalogue,
    first: Trouble,
    second: Trouble,
) -> bool
    requires { HasDevices 1 (actuators catalogue.now) }
{
    let disks = (disk(rt, alloc, &[], first), disk(rt, alloc, &[], second));
    let ran = run(rt, alloc, catalogue, disks, INPUT);
    let done = ran.status == Status::DONE;
    assert!(rt; done || ran.status == Status::FILE_FAULT);
    let answered = answered(rt, ran.sink.taken());
    assert!(rt; done == (answered == 3));
    look(rt, alloc, catalogue, &ran.disks, answered);
    done
}

/// The same where the calls of either disk behind so many, or the next one alone, come to nothing. Whether each was run to its end.
fn try_calls(rt: &impl Abort, alloc: Global, catalogue: &Catalogue, calls: u64) -> bool
    requires { HasDevices 1 (actuators catalogue.now) }
{
    let (stops, fails) = (
        Trouble::Stops(calls),
        Trouble::Fails(calls.saturating_add(1)),
    );
    let stopped = try_script(rt, alloc, catalogue, stops, Trouble::None);
    let failed = try_script(rt, alloc, catalogue, fails, Trouble::None);
    let other_stopped = try_script(rt, alloc, catalogue, Trouble::None, stops);
    let other_failed = try_script(rt, alloc, catalogue, Trouble::None, fails);
    stopped && failed && other_stopped && other_failed
}

/// The last five calls of the first disk are those of the submit: its record, a sync, its gate, a sync; and a sync before the read, which
/// comes a second later. How many events are held where so many of them were left out, by the pick of what a crash leaves. The gate is byte
/// 65, bit 1 of the pick, and 255 less an open gate is a shut one.
const APPENDED: [(u64, u64, usize); 16] = [
    (5, 0, 1),
    (5, 1, 1),
    (4, 0, 1),
    (4, 1, 1),
    (4, 2, 1),
    (3, 0, 1),
    (3, 1, 1),
    (2, 0, 1),
    (2, 1, 2),
    (2, 2, 1),
    (2, 5, 1),
    (2, 6, 2),
    (1, 0, 2),
    (1, 2, 2),
    (0, 0, 2),
    (0, 2, 2),
];

/// Looks at what a crash leaves of the first disk at each of the last five calls of so many.
fn expect_append(rt: &impl Abort, alloc: Global, catalogue: &Catalogue, calls: u64)
    requires { HasDevices 1 (actuators catalogue.now) }
{
    for (missing, pick, events) in &APPENDED {
        let stop = Trouble::Stops(calls.saturating_sub(*missing));
        let held = HELD[(*events).min(2)];
        expect_held(rt, alloc, catalogue, stop, *pick, held);
    }
}

/// Runs the script over a first disk with this trouble, and compares what is held in the image that a number picks.
fn expect_held(
    rt: &impl Abort,
    alloc: Global,
    catalogue: &Catalogue,
    trouble: Trouble,
    pick: u64,
    held: &str,
)
    requires { HasDevices 1 (actuators catalogue.now) }
{
    let disks = (
        disk(rt, alloc, &[], trouble),
        disk(rt, alloc, &[], Trouble::None),
    );
    let ran = run(rt, alloc, catalogue, disks, INPUT);
    let left = images(rt, alloc, &ran.disks, (pick, 0));
    expect_check(rt, alloc, catalogue, left, Status::DONE, held);
}

#[test]
fn what_was_answered_outlasts_a_disk_that_fails(rt: HostRuntime) {
    let alloc = rt.alloc();
    let catalogue = three_points(&rt, alloc);
    for calls in 0..MANY {
        if try_calls(&rt, alloc, &catalogue, calls) {
            expect_append(&rt, alloc, &catalogue, calls);
            return;
        }
    }
    rt.panic("a script that ends");
}
