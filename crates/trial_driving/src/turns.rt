//! A driver's turns over a Modbus device. The frames were worked out by hand from MODBUS Messaging on TCP/IP 1.0b, section 3.1.3, and
//! MODBUS Application Protocol 1.1b3, sections 6.5 to 7.

ghost use Rattle.std.specs.Prelude.{◌≡◌, ◌≤◌, IsTrue};
ghost use Rattle.std.specs.List.{AllByRecursion};
ghost use Rattle.boss_drive.specs.Driving.{Driven};
ghost use Rattle.boss_lock.specs.Places.{entries_at};
ghost use Rattle.boss_model.specs.Catalogue.{actuators};
ghost use Rattle.boss_model.specs.Limits.{last_moment};
ghost use Rattle.boss_outside_server.specs.Pauses.{drive_pause, held_pause};
ghost use Rattle.def_lanes.specs.Waits.{PausedWithin};

use boss_drive::drive;
use boss_expiry::WorkEnd;
use boss_modbus::ModbusDevice;
use boss_model::{
    DriverId, DriverPlan, Form, Function, Items, Place, PointId, Protocol, Round, Scale, Where,
};
use boss_outside::{Actuators, DeviceCall, Link, ListLink, Noted};
use boss_outside_server::{Clock, ListClock, TurnWaiter, Waiter};
use boss_points::Catalogue;
use boss_shared::Desk;
use std::alloc::Global;
use std::process::Abort;
use std::sync::Wait;
use trial_keeper::{Trial, run_trial};
use trial_parts::THREE_POINTS;

const DAMPER: PointId = PointId(0);

const LAMP: PointId = PointId(1);

const FAN: PointId = PointId(2);

/// The damper in register 2, which counts units and not thousandths of them, the lamp in coil 19 and the fan in register 3, all of unit 1.
const PLACES: [Place; 3] = [
    Place {
        point: DAMPER,
        unit: 1,
        at: Where::Register {
            address: 2,
            form: Form::Unsigned16,
            scale: Scale {
                times: 1,
                per: 1_000,
                offset: 0,
                round: Round::Down,
            },
            function: Function::WriteSingle,
        },
        check: 0,
        again: 0,
    },
    Place {
        point: LAMP,
        unit: 1,
        at: Where::Coil {
            address: 19,
            function: Function::WriteSingle,
        },
        check: 0,
        again: 0,
    },
    Place {
        point: FAN,
        unit: 1,
        at: Where::Register {
            address: 3,
            form: Form::Unsigned16,
            scale: Scale {
                times: 1,
                per: 1,
                offset: 0,
                round: Round::Down,
            },
            function: Function::WriteSingle,
        },
        check: 0,
        again: 0,
    },
];

/// What the host is sent at the opening: the damper at 20, the lamp off, the fan at 1.
const SENT: [u8; 36] = [
    0, 1, 0, 0, 0, 6, 1, 6, 0, 2, 0, 20, 0, 2, 0, 0, 0, 6, 1, 5, 0, 19, 0, 0, 0, 3, 0, 0, 0, 6, 1,
    6, 0, 3, 0, 1,
];

/// The host answers the first two with their echoes, and refuses the third: it has no such address.
const REFUSED: [u8; 33] = [
    0, 1, 0, 0, 0, 6, 1, 6, 0, 2, 0, 20, 0, 2, 0, 0, 0, 6, 1, 5, 0, 19, 0, 0, 0, 3, 0, 0, 0, 3, 1,
    0x86, 2,
];

/// A worker over a Modbus device, whose calls are noted.
#[derive(Drop)]
struct Worker {
    devices: Noted<ModbusDevice<ListLink>>,
    clock: ListClock,
    waiter: TurnWaiter,
}

/// Takes turns. All that is promised of a driver's turns holds of the calls that were made of the Modbus device, whatever its link is.
fn take<G: Desk, L: Link>(
    desk: &G,
    pass: &mut G::Pass,
    catalogue: &Catalogue,
    devices: &mut Noted<ModbusDevice<L>>,
    clock: &mut ListClock,
    waiter: &mut TurnWaiter,
    turns: u64,
) -> WorkEnd
    requires own { G.owns desk.now pass.old }
    requires plant { actuators catalogue.now ≡ G.plant desk.now }
    ensures own { G.owns desk.now pass.new }
    ensures parts { G.parts pass.new ≡ G.parts pass.old }
    ensures driven { Driven (G.plant desk.now) 0 (Unit {0}) (Unit {0})
        (record {
          own = entries_at (G.seen pass.old) (G.mine pass.old);
          given = ⟦<ListClock as Clock>⟧.given clock.old;
          whole = IsTrue devices.old.whole;
          calls = devices.old.calls.items;
        })
        (record {
          own = entries_at (G.seen pass.new) (G.mine pass.new);
          given = ⟦<ListClock as Clock>⟧.given clock.new;
          whole = IsTrue devices.new.whole;
          calls = devices.new.calls.items;
        })
        ⟦<TurnWaiter as Waiter>⟧.tells (⟦<TurnWaiter as Waiter>⟧.waited waiter.old).pauses (⟦<TurnWaiter as Waiter>⟧.waited waiter.new).pauses turns result }
    ensures waited { PausedWithin held_pause drive_pause (⟦<TurnWaiter as Waiter>⟧.waited waiter.old) (⟦<TurnWaiter as Waiter>⟧.waited waiter.new) }
{
    drive(
        desk,
        pass,
        catalogue,
        DriverId(0),
        devices,
        clock,
        waiter,
        turns,
    )
}

impl Trial for Worker {
    type Told = WorkEnd;

    /// A turn for each of the three points, and one without a want.
    fn run<G: Desk>(&mut self, catalogue: &Catalogue, desk: &G, pass: &mut G::Pass) -> WorkEnd {
        take(
            desk,
            pass,
            catalogue,
            &mut self.devices,
            &mut self.clock,
            &mut self.waiter,
            4,
        )
    }
}

/// The moment 0 alone.
fn moments(rt: &impl Abort, alloc: Global) -> Items<u64>
    ensures { AllByRecursion (λ moment. moment ≤ last_moment) result }
{
    let mut moments = Items::new(alloc);
    moments.try_push(0).expect(rt, "memory");
    moments
}

fn clock(rt: &impl Abort, alloc: Global) -> ListClock {
    let moments = moments(rt, alloc);
    ListClock::new(alloc, moments, Items::new(alloc)).expect(rt, "memory")
}

/// A link whose host answers with these bytes.
fn link(rt: &impl Abort, alloc: Global, responses: &[u8]) -> ListLink {
    let mut contents = Items::new(alloc);
    let responses = Items::from_vec(responses.to_vec(alloc).expect(rt, "memory"));
    contents.try_push(responses).expect(rt, "memory");
    ListLink::new(alloc, contents, 12, Items::new(alloc)).expect(rt, "memory")
}

/// A device whose host answers with these bytes.
fn devices(rt: &impl Abort, alloc: Global, responses: &[u8]) -> Noted<ModbusDevice<ListLink>> {
    let mut device = ModbusDevice::new(alloc, link(rt, alloc, responses));
    device.assign(part(rt, alloc));
    Noted::new(alloc, device)
}

fn part(rt: &impl Abort, alloc: Global) -> DriverPlan {
    let host = b"127.0.0.1:1502".to_vec(alloc).expect(rt, "memory");
    let places = PLACES.to_vec(alloc).expect(rt, "memory");
    DriverPlan {
        host: Items::from_vec(host),
        speaks: Protocol::Modbus,
        wait: 5_000,
        tries: 1,
        places: Items::from_vec(places),
    }
}

fn make(rt: &impl Abort, alloc: Global, responses: &[u8]) -> Worker {
    Worker {
        devices: devices(rt, alloc, responses),
        clock: clock(rt, alloc),
        waiter: TurnWaiter::new(alloc, 8).expect(rt, "memory"),
    }
}

/// Drives over a machine of its own.
fn drive_all<R: Abort + Wait + Sync>(
    rt: &R,
    alloc: Global,
    catalogue: &Catalogue,
    driving: &mut Worker,
) -> WorkEnd {
    let ran = run_trial(rt, alloc, catalogue, u64::MAX, u64::MAX, driving);
    let (end, _) = ran.expect(rt, "memory");
    end
}

/// Drives the three points at the opening, of which the fan may be refused.
fn check<R: Abort + Wait + Sync>(
    rt: &R,
    alloc: Global,
    catalogue: &Catalogue,
    responses: &[u8],
    is_fan_taken: bool,
) {
    let mut driving = make(rt, alloc, responses);
    let end = drive_all(rt, alloc, catalogue, &mut driving);
    let expected = [
        DeviceCall {
            point: DAMPER,
            value: 20_000,
            ok: true,
        },
        DeviceCall {
            point: LAMP,
            value: 0,
            ok: true,
        },
        DeviceCall {
            point: FAN,
            value: 1,
            ok: is_fan_taken,
        },
    ];
    assert!(rt; end == WorkEnd::Finished);
    expect_driven(rt, &driving.devices, &expected);
}

fn expect_driven(
    rt: &impl Abort,
    devices: &Noted<ModbusDevice<ListLink>>,
    expected: &[DeviceCall],
) {
    assert_eq!(rt; devices.calls(), expected);
    assert_eq!(rt; devices.devices().link().sent(), SENT.as_slice());
}

#[test]
fn a_modbus_device_is_driven(rt: HostRuntime) {
    let alloc = rt.alloc();
    let catalogue = Catalogue::read(alloc, THREE_POINTS.as_bytes()).expect(&rt, "a catalogue");
    check(&rt, alloc, &catalogue, &SENT, true);
    check(&rt, alloc, &catalogue, &REFUSED, false);
}
