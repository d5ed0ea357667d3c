//! When a pump is written that is to run a minute and to stand half a minute. What a run shows was worked out by hand.

ghost use Rattle.std.specs.Prelude.{◌≡◌, ◌≤◌};
ghost use Rattle.std.specs.List.{AllByRecursion};
ghost use Rattle.boss_model.specs.Limits.{last_moment};

use crate::asking::are_done;
use boss_expiry::WorkEnd;
use boss_guard::{GuardEnd, guarded_drive, is_guarded};
use boss_model::{DriverId, Items, PointId};
use boss_outside::{DeviceCall, SimActuators};
use boss_outside_server::{ListClock, TurnWaiter, Waiter};
use boss_points::Catalogue;
use boss_shared::Desk;
use std::alloc::Global;
use std::process::Abort;
use std::sync::Wait;
use trial_keeper::{Trial, run_trial};

const ONE_PUMP: &str = "drivers = [\"heat\"]

[[point]]
name = \"pump\"
driver = \"heat\"
kind = \"binary\"
default = 0
min_on = 60000
min_off = 30000
";

const TWO_PUMPS: &str = "drivers = [\"heat\"]

[[point]]
name = \"pump\"
driver = \"heat\"
kind = \"binary\"
default = 0
min_on = 60000
min_off = 30000

[[point]]
name = \"spare\"
driver = \"heat\"
kind = \"binary\"
default = 0
min_on = 60000
min_off = 30000
";

const ATTACH: &str = r#"{"op":"attach","process":"a"}"#;

/// A lease that keeps the pump off up to 1000, ahead of one of level 8.
const OFF: &str =
    r#"{"op":"submit","writes":[{"point":"pump","value":0,"priority":5,"lease":1000}]}"#;

/// What comes into force at 1000.
const ON: &str =
    r#"{"op":"submit","writes":[{"point":"pump","value":1,"priority":8,"lease":90000}]}"#;

const ON_FOR_A_SECOND: &str =
    r#"{"op":"submit","writes":[{"point":"pump","value":1,"priority":8,"lease":2000}]}"#;

const OFF_AHEAD: &str =
    r#"{"op":"submit","writes":[{"point":"pump","value":0,"priority":2,"lease":1000}]}"#;

const ON_AHEAD: &str =
    r#"{"op":"submit","writes":[{"point":"pump","value":1,"priority":3,"lease":90000}]}"#;

const BOTH_OFF: &str =
    r#"{"op":"submit","writes":[{"point":"pump","value":0,"priority":5,"lease":1000},{"point":"spare","value":0,"priority":5,"lease":1000}]}"#;

const BOTH_ON: &str =
    r#"{"op":"submit","writes":[{"point":"pump","value":1,"priority":8,"lease":90000},{"point":"spare","value":1,"priority":8,"lease":90000}]}"#;

/// More calls than any run makes.
const ALL: u64 = 1_000_000;

/// A call that a device took, or did not take.
const fn told(point: u32, value: i64, ok: bool) -> DeviceCall {
    DeviceCall {
        point: PointId(point),
        value,
        ok,
    }
}

/// What a process asks for at 0, the worker's turns, what fails in them, and what is then told: the calls of the devices, how the
/// worker ended, and its pauses.
#[derive(Drop)]
struct Run {
    catalogue: &'static str,
    lines: &'static [&'static str],
    moments: &'static [u32],
    turns: u64,
    /// The number of the reading of the clock that fails, from 1; 0 is none.
    reading: u64,
    /// The number of the write that fails, from 1; 0 is none.
    write: u64,
    /// How many calls the disk is good for.
    good_calls: u64,
    end: WorkEnd,
    pauses: u64,
}

/// The want of 1000 is held up to 30000.
const HELD: Run = Run {
    catalogue: ONE_PUMP,
    lines: &[ATTACH, OFF, ON],
    moments: &[0, 0, 1000, 29999, 30000, 30001],
    turns: 4,
    reading: 0,
    write: 0,
    good_calls: ALL,
    end: WorkEnd::Finished,
    pauses: 2,
};

/// Up to its third turn, at 29999, nothing was written again.
const WAITING: Run = Run { turns: 3, ..HELD };

/// At level 3 the want is written at once.
const AHEAD: Run = Run {
    lines: &[ATTACH, OFF_AHEAD, ON_AHEAD],
    moments: &[0, 0, 1000, 1000],
    turns: 2,
    pauses: 0,
    ..HELD
};

/// The held want is replaced by one of the value that the pump has.
const REPLACED: Run = Run {
    lines: &[ATTACH, OFF, ON_FOR_A_SECOND],
    moments: &[0, 0, 1000, 2000, 2000, 30000],
    turns: 4,
    pauses: 2,
    ..HELD
};

/// Two wants are held, and written by rising point in one turn.
const TWO_HELD: Run = Run {
    catalogue: TWO_PUMPS,
    lines: &[ATTACH, BOTH_OFF, BOTH_ON],
    moments: &[0, 0, 0, 0, 1000, 1000, 30000],
    turns: 5,
    ..HELD
};

const CLOCK_FAILS: Run = Run {
    reading: 2,
    end: WorkEnd::ClockFault,
    pauses: 0,
    ..HELD
};

const DEVICE_FAILS: Run = Run { write: 2, ..HELD };

/// The disk is good up to the Next at 1000, and fails where the point is read.
const DISK_FAILS: Run = Run {
    good_calls: 6,
    end: WorkEnd::DiskFault,
    pauses: 0,
    ..HELD
};

/// A guarded worker.
#[derive(Drop)]
struct Worker {
    alloc: Global,
    lines: &'static [&'static str],
    turns: u64,
    devices: SimActuators,
    clock: ListClock,
    waiter: TurnWaiter,
}

impl Trial for Worker {
    type Told = Option<GuardEnd>;

    fn run<G: Desk>(
        &mut self,
        catalogue: &Catalogue,
        desk: &G,
        pass: &mut G::Pass,
    ) -> Option<GuardEnd> {
        if !is_guarded(catalogue, DriverId(0)) {
            return None;
        }
        if !are_done(self.alloc, catalogue, desk, pass, self.lines) {
            return None;
        }
        Some(guarded_drive(
            self.alloc,
            desk,
            pass,
            catalogue,
            DriverId(0),
            &mut self.devices,
            &mut self.clock,
            &mut self.waiter,
            self.turns,
        ))
    }
}

/// The call of this number, or none for 0.
fn call(rt: &impl Abort, alloc: Global, number: u64) -> Items<u64> {
    let mut calls = Items::new(alloc);
    calls.try_push(number).expect(rt, "memory");
    calls
}

fn moments(rt: &impl Abort, alloc: Global, all: &[u32]) -> Items<u64>
    ensures { AllByRecursion (λ moment. moment ≤ last_moment) result }
{
    let mut moments = Items::new(alloc);
    for moment in all {
        moments.try_push(u64::from(*moment)).expect(rt, "memory");
    }
    moments
}

fn clock(rt: &impl Abort, alloc: Global, run: &Run) -> ListClock {
    let moments = moments(rt, alloc, run.moments);
    ListClock::new(alloc, moments, call(rt, alloc, run.reading)).expect(rt, "memory")
}

fn devices(rt: &impl Abort, alloc: Global, run: &Run) -> SimActuators {
    SimActuators::new(alloc, call(rt, alloc, run.write)).expect(rt, "memory")
}

fn make(rt: &impl Abort, alloc: Global, run: &Run) -> Worker {
    Worker {
        alloc,
        lines: run.lines,
        turns: run.turns,
        devices: devices(rt, alloc, run),
        clock: clock(rt, alloc, run),
        waiter: TurnWaiter::new(alloc, 8).expect(rt, "memory"),
    }
}

/// How many pauses were made.
fn pauses_of(rt: &impl Abort, alloc: Global, waiter: TurnWaiter) -> u64 {
    let mut all = TurnWaiter::new(alloc, 0).expect(rt, "memory");
    all.join(waiter);
    pauses(rt, alloc, &all)
}

/// The pauses of the last part that was taken back.
fn pauses(rt: &impl Abort, alloc: Global, waiter: &TurnWaiter) -> u64 {
    let waits = waiter.waits(alloc).expect(rt, "memory");
    match waits.last() {
        Some(wait) => wait.pauses,
        None => 0,
    }
}

/// Takes the turns over a machine of its own.
fn drive_all<R: Abort + Wait + Sync>(
    rt: &R,
    alloc: Global,
    catalogue: &Catalogue,
    good_calls: u64,
    worker: &mut Worker,
) -> Option<GuardEnd> {
    let ran = run_trial(rt, alloc, catalogue, good_calls, ALL, worker);
    let (end, _) = ran.expect(rt, "memory");
    end
}

/// Takes the turns of a run, and compares what is told.
fn check<R: Abort + Wait + Sync>(rt: &R, alloc: Global, run: &Run, calls: &[DeviceCall]) {
    let catalogue = Catalogue::read(alloc, run.catalogue.as_bytes()).expect(rt, "a catalogue");
    let mut worker = make(rt, alloc, run);
    let end = drive_all(rt, alloc, &catalogue, run.good_calls, &mut worker);
    assert!(rt; end == Some(GuardEnd::Worked(run.end)));
    expect_calls(rt, worker.devices.calls(), calls);
    let pauses = pauses_of(rt, alloc, worker.waiter);
    assert!(rt; pauses == run.pauses);
}

fn expect_calls(rt: &impl Abort, calls: &[DeviceCall], wanted: &[DeviceCall]) {
    assert_eq!(rt; calls, wanted);
}

#[test]
fn a_want_of_level_8_is_held(rt: HostRuntime) {
    check(&rt, rt.alloc(), &WAITING, &[told(0, 0, true)]);
    check(
        &rt,
        rt.alloc(),
        &HELD,
        &[told(0, 0, true), told(0, 1, true)],
    );
}

#[test]
fn a_want_of_level_3_is_written(rt: HostRuntime) {
    check(
        &rt,
        rt.alloc(),
        &AHEAD,
        &[told(0, 0, true), told(0, 1, true)],
    );
}

#[test]
fn a_held_want_is_replaced(rt: HostRuntime) {
    check(
        &rt,
        rt.alloc(),
        &REPLACED,
        &[told(0, 0, true), told(0, 0, true)],
    );
}

#[test]
fn two_points_are_held(rt: HostRuntime) {
    let calls = [
        told(0, 0, true),
        told(1, 0, true),
        told(0, 1, true),
        told(1, 1, true),
    ];
    check(&rt, rt.alloc(), &TWO_HELD, &calls);
}

#[test]
fn each_kind_of_call_fails(rt: HostRuntime) {
    check(&rt, rt.alloc(), &CLOCK_FAILS, &[told(0, 0, true)]);
    check(
        &rt,
        rt.alloc(),
        &DEVICE_FAILS,
        &[told(0, 0, true), told(0, 1, false)],
    );
    check(&rt, rt.alloc(), &DISK_FAILS, &[told(0, 0, true)]);
}
