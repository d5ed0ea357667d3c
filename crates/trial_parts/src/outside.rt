ghost use Rattle.std.specs.Prelude.{◌≡◌};

use boss_model::{Items, PointId};
use boss_outside::{
    Actuators, BytesSink, BytesSource, Got, HeardSource, Hears, IdleActuators, ReadAt,
    SimActuators, Sink, Source,
};
use std::alloc::Global;
use std::process::Abort;

fn bytes(rt: &impl Abort, alloc: Global, text: &str) -> Items<u8>
    ensures { result ≡ text.now }
{
    Items::from_vec(text.as_bytes().to_vec(alloc).expect(rt, "memory"))
}

fn second_call(rt: &impl Abort, alloc: Global) -> Items<u64> {
    let mut calls = Items::new(alloc);
    calls.try_push(2).expect(rt, "memory");
    calls
}

/// Whether a read of at most three bytes gives this, and leaves these bytes where there were dots.
fn reads<S: Source>(source: &mut S, got: Got, bytes: &[u8; 3]) -> bool {
    let mut into = [b'.'; 3];
    source.read(&mut into) == got && into == *bytes
}

/// Whether a source gives `hello` by three bytes, but fails at the second read.
fn gives_hello<S: Source>(source: &mut S) -> bool {
    reads(source, Got::Bytes(3), b"hel")
        && reads(source, Got::Failed, b"...")
        && reads(source, Got::Bytes(2), b"lo.")
        && reads(source, Got::Finish, b"...")
        && reads(source, Got::Finish, b"...")
}

#[test]
fn source_gives_its_bytes_and_fails_as_planned(rt: HostRuntime) {
    let alloc = rt.alloc();
    let fails = second_call(&rt, alloc);
    let text = bytes(&rt, alloc, "hello");
    let mut source = BytesSource::new(alloc, text, fails).expect(&rt, "memory");
    assert!(&rt; gives_hello(&mut source));
}

/// Whether each of three writes is taken.
fn write_three<K: Sink>(sink: &mut K) -> [bool; 3] {
    let first = sink.write(b"ab");
    let second = sink.write(b"cd");
    let third = sink.write(b"ef");
    [first.is_ok(), second.is_ok(), third.is_ok()]
}

#[test]
fn sink_takes_bytes_and_fails_as_planned(rt: HostRuntime) {
    let alloc = rt.alloc();
    let mut sink = BytesSink::new(alloc, second_call(&rt, alloc)).expect(&rt, "memory");
    let taken = write_three(&mut sink);
    assert!(&rt; taken == [true, false, true] && sink.taken() == b"abef".as_slice());
}

/// Whether a source gives `hello` as [`gives_hello`] says, where the sink is shown behind the first read.
fn hears<K: Sink, S: Hears<K>>(source: &mut S, sink: &mut K) -> bool {
    let first = reads(source, Got::Bytes(3), b"hel");
    let took = sink.write(b"ab").is_ok();
    source.show(sink);
    first
        && took
        && reads(source, Got::Failed, b"...")
        && reads(source, Got::Bytes(2), b"lo.")
        && reads(source, Got::Finish, b"...")
}

/// The reads of `hello` as they are noted.
const HEARD: [ReadAt; 4] = [
    ReadAt { left: 5, told: 0 },
    ReadAt { left: 2, told: 2 },
    ReadAt { left: 2, told: 2 },
    ReadAt { left: 0, told: 2 },
];

#[test]
fn source_notes_what_was_taken_when_it_was_read(rt: HostRuntime) {
    let alloc = rt.alloc();
    let fails = second_call(&rt, alloc);
    let text = bytes(&rt, alloc, "hello");
    let source = BytesSource::new(alloc, text, fails).expect(&rt, "memory");
    let mut heard = HeardSource::new(alloc, source);
    let mut sink = BytesSink::new(alloc, Items::new(alloc)).expect(&rt, "memory");
    assert!(&rt; hears(&mut heard, &mut sink));
    assert!(&rt; heard.reads() == HEARD.as_slice() && heard.is_whole());
}

/// Whether each of three commands is taken.
fn command_three<A: Actuators>(devices: &mut A) -> [bool; 3] {
    let first = devices.write(PointId(7), -20_000);
    let second = devices.write(PointId(8), 1);
    let third = devices.write(PointId(7), 45_000);
    [first.is_ok(), second.is_ok(), third.is_ok()]
}

/// The three commands as they are noted.
const NOTED: &[(u32, i64, bool)] = &[(7, -20_000, true), (8, 1, false), (7, 45_000, true)];

/// Whether devices noted the three commands.
fn have_noted(devices: &SimActuators) -> bool {
    let calls = devices.calls();
    let mut same = calls.len() == NOTED.len();
    for (call, (point, value, ok)) in calls.iter().zip(NOTED) {
        same = same && call.point.0 == *point && call.value == *value && call.ok == *ok;
    }
    same && devices.is_whole()
}

#[test]
fn devices_note_each_call_and_fail_as_planned(rt: HostRuntime) {
    let alloc = rt.alloc();
    let mut devices = SimActuators::new(alloc, second_call(&rt, alloc)).expect(&rt, "memory");
    let taken = command_three(&mut devices);
    assert!(&rt; taken == [true, false, true] && have_noted(&devices));
}

#[test]
fn idle_devices_take_every_command(rt: HostRuntime) {
    let mut devices = IdleActuators::new();
    assert!(rt; command_three(&mut devices) == [true; 3]);
}
