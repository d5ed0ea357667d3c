//! When a driver's devices look after what they took, and what follows, also where a point has minimum times. What a run shows was
//! worked out by hand.

ghost use Rattle.std.specs.Prelude.{◌≡◌, ◌≤◌, []};
ghost use Rattle.std.specs.List.{AllByRecursion};
ghost use Rattle.boss_model.specs.Catalogue.{actuators};
ghost use Rattle.boss_model.specs.Limits.{last_moment};

use boss_drive::drive;
use boss_expiry::WorkEnd;
use boss_guard::{GuardEnd, guarded_drive};
use boss_model::{DriverId, DriverPlan, Items, PointId};
use boss_outside::{Actuators, DeviceCall, Failed, Look, Noted};
use boss_outside_server::{ListClock, TurnWaiter, Waiter};
use boss_points::Catalogue;
use boss_shared::Desk;
use std::alloc::Global;
use std::process::Abort;
use std::sync::Wait;
use trial_keeper::{Trial, run_trial};

const TWO_DRIVERS: &str = "drivers = [\"heat\", \"light\"]

[[point]]
name = \"pump\"
driver = \"heat\"
kind = \"binary\"
default = 0
min_on = 60000
min_off = 30000

[[point]]
name = \"lamp\"
driver = \"light\"
kind = \"binary\"
default = 1
";

const PUMP: PointId = PointId(0);

const LAMP: PointId = PointId(1);

/// A point that is not there.
const NONE: PointId = PointId(2);

const HEAT: DriverId = DriverId(0);

const LIGHT: DriverId = DriverId(1);

/// Devices that take every command, and of which these are the looks, one each time that they are asked to look; then they rest.
#[derive(Drop)]
struct Looking {
    looks: Vec<Look>,
    /// How many looks were made.
    made: usize,
    writes: u64,
    /// How many commands they had taken at the first look.
    before: Option<u64>,
}

impl Actuators for Looking {
    ghost tells = { ⊥ };

    ghost calls = { λ devices. [] };

    ghost whole = { λ devices. Unit {0} };

    ghost faults = { λ devices. 0 };

    ghost assigned = { λ old part new. new ≡ old };

    fn write(&mut self, _point: PointId, _value: i64) -> Result<(), Failed> {
        self.writes = self.writes.saturating_add(1);
        Ok(())
    }

    fn look(&mut self, _now: u64) -> Look {
        if self.before.is_none() {
            self.before = Some(self.writes);
        }
        let look = self.looks.as_slice().get(self.made).copied();
        self.made = self.made.saturating_add(1);
        look.unwrap_or(Look::Quiet)
    }

    fn rests(&self, _now: u64) -> u64 {
        u64::MAX
    }

    fn assign(&mut self, _part: DriverPlan) {}
}

/// What a worker drives by.
#[derive(Drop)]
struct Own {
    devices: Noted<Looking>,
    clock: ListClock,
    waiter: TurnWaiter,
}

/// Turns of the second driver, then so many of the first, and of the second once more, by workers that keep minimum times or by
/// others.
#[derive(Drop)]
struct Both {
    alloc: Global,
    guarded: bool,
    turns: u64,
    heat: Own,
    light: Own,
}

impl Trial for Both {
    type Told = bool;

    /// Whether all turns were taken.
    fn run<G: Desk>(&mut self, catalogue: &Catalogue, desk: &G, pass: &mut G::Pass) -> bool {
        let Both {
            alloc,
            guarded,
            turns,
            heat,
            light,
        } = self;
        if *guarded {
            let first = keep(*alloc, desk, pass, catalogue, LIGHT, light, 2);
            let then = keep(*alloc, desk, pass, catalogue, HEAT, heat, *turns);
            let last = keep(*alloc, desk, pass, catalogue, LIGHT, light, 1);
            return first && then && last;
        }
        let first = take(desk, pass, catalogue, LIGHT, light, 2);
        let then = take(desk, pass, catalogue, HEAT, heat, *turns);
        let last = take(desk, pass, catalogue, LIGHT, light, 1);
        first && then && last
    }
}

/// Takes turns of a driver, and tells whether these were all.
fn take<G: Desk>(
    desk: &G,
    pass: &mut G::Pass,
    catalogue: &Catalogue,
    driver: DriverId,
    own: &mut Own,
    turns: u64,
) -> bool
    requires own { G.owns desk.now pass.old }
    requires plant { actuators catalogue.now ≡ G.plant desk.now }
    ensures own { G.owns desk.now pass.new }
    ensures parts { G.parts pass.new ≡ G.parts pass.old }
{
    let Own {
        devices,
        clock,
        waiter,
    } = own;
    let end = drive(desk, pass, catalogue, driver, devices, clock, waiter, turns);
    end == WorkEnd::Finished
}

/// The same, of a worker that keeps minimum times.
fn keep<G: Desk>(
    alloc: Global,
    desk: &G,
    pass: &mut G::Pass,
    catalogue: &Catalogue,
    driver: DriverId,
    own: &mut Own,
    turns: u64,
) -> bool
    requires own { G.owns desk.now pass.old }
    requires plant { actuators catalogue.now ≡ G.plant desk.now }
    ensures own { G.owns desk.now pass.new }
    ensures parts { G.parts pass.new ≡ G.parts pass.old }
{
    let Own {
        devices,
        clock,
        waiter,
    } = own;
    let end = guarded_drive(
        alloc, desk, pass, catalogue, driver, devices, clock, waiter, turns,
    );
    end == GuardEnd::Worked(WorkEnd::Finished)
}

/// The moment 0 alone.
fn moments(rt: &impl Abort, alloc: Global) -> Items<u64>
    ensures { AllByRecursion (λ moment. moment ≤ last_moment) result }
{
    let mut moments = Items::new(alloc);
    moments.try_push(0).expect(rt, "memory");
    moments
}

fn clock(rt: &impl Abort, alloc: Global) -> ListClock {
    let moments = moments(rt, alloc);
    ListClock::new(alloc, moments, Items::new(alloc)).expect(rt, "memory")
}

fn devices(rt: &impl Abort, alloc: Global, looks: &[Look]) -> Noted<Looking> {
    let devices = Looking {
        looks: looks.to_vec(alloc).expect(rt, "memory"),
        made: 0,
        writes: 0,
        before: None,
    };
    Noted::new(alloc, devices)
}

fn make_own(rt: &impl Abort, alloc: Global, looks: &[Look]) -> Own {
    Own {
        devices: devices(rt, alloc, looks),
        clock: clock(rt, alloc),
        waiter: TurnWaiter::new(alloc, 8).expect(rt, "memory"),
    }
}

/// The devices of the first driver look so, those of the second find nothing.
fn make(rt: &impl Abort, alloc: Global, guarded: bool, looks: &[Look], turns: u64) -> Both {
    Both {
        alloc,
        guarded,
        turns,
        heat: make_own(rt, alloc, looks),
        light: make_own(rt, alloc, &[]),
    }
}

/// Takes the turns over a machine of its own.
fn drive_all<R: Abort + Wait + Sync>(rt: &R, alloc: Global, both: &mut Both) {
    let catalogue = Catalogue::read(alloc, TWO_DRIVERS.as_bytes()).expect(rt, "a catalogue");
    let ran = run_trial(rt, alloc, &catalogue, u64::MAX, u64::MAX, both);
    let (all, _) = ran.expect(rt, "memory");
    assert!(rt; all);
}

/// Takes turns of both kinds of workers, and compares what came of them.
fn check<R: Abort + Wait + Sync>(
    rt: &R,
    alloc: Global,
    looks: &[Look],
    turns: u64,
    made: usize,
    heat: &[DeviceCall],
) {
    check_one(rt, alloc, false, looks, turns, made, heat);
    check_one(rt, alloc, true, looks, turns, made, heat);
}

/// Takes turns, and compares the calls of both drivers' devices and how often those of the first looked.
fn check_one<R: Abort + Wait + Sync>(
    rt: &R,
    alloc: Global,
    guarded: bool,
    looks: &[Look],
    turns: u64,
    made: usize,
    heat: &[DeviceCall],
) {
    let mut both = make(rt, alloc, guarded, looks, turns);
    drive_all(rt, alloc, &mut both);
    expect_looks(rt, both.heat.devices.devices(), made);
    expect_calls(rt, both.heat.devices.calls(), heat);
    expect_calls(rt, both.light.devices.calls(), &[told(LAMP, 1)]);
}

/// They looked so often, and not before the driver's want was served.
fn expect_looks(rt: &impl Abort, devices: &Looking, made: usize) {
    assert_eq!(rt; devices.made, made);
    assert_eq!(rt; devices.before, Some(1));
}

fn expect_calls(rt: &impl Abort, calls: &[DeviceCall], wanted: &[DeviceCall]) {
    assert_eq!(rt; calls, wanted);
}

/// A command that a device took.
const fn told(point: PointId, value: i64) -> DeviceCall {
    DeviceCall {
        point,
        value,
        ok: true,
    }
}

const fn doubt(point: PointId) -> Look {
    Look::Doubt {
        point,
        differs: true,
    }
}

#[test]
fn a_doubted_point_is_written_again(rt: HostRuntime) {
    let alloc = rt.alloc();
    let looks = [doubt(PUMP)];
    let twice = [told(PUMP, 0), told(PUMP, 0)];
    check(&rt, alloc, &looks, 2, 1, &[told(PUMP, 0)]);
    check(&rt, alloc, &looks, 3, 1, &twice);
    check(&rt, alloc, &looks, 4, 2, &twice);
}

#[test]
fn a_device_that_was_seen_is_left_alone(rt: HostRuntime) {
    check(&rt, rt.alloc(), &[Look::Seen], 4, 3, &[told(PUMP, 0)]);
}

#[test]
fn a_doubt_of_another_driver_changes_nothing(rt: HostRuntime) {
    let looks = [doubt(LAMP), doubt(NONE)];
    check(&rt, rt.alloc(), &looks, 4, 3, &[told(PUMP, 0)]);
}
