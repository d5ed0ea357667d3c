// Scripts over two disks in memory, checks of them, and what stands outside.
ghost use Rattle.std.specs.Prelude.{◌≡◌, vec_len};
ghost use Rattle.boss_model.specs.Catalogue.{actuators};
ghost use Rattle.boss_jobs.specs.Programs.{lacks_device};
ghost use Rattle.boss_points.specs.Seen.{seen};
ghost use Rattle.boss_scripts.specs.Devices.{HasDevices};

use boss_disk::MemoryDisk;
use boss_manager::{Status, check_on_disks, script_on_disks};
use boss_model::{Items, PointId};
use boss_outside::{BytesSink, BytesSource, Hears, SimActuators};
use boss_points::{Catalogue, Point};
use std::alloc::Global;
use std::process::Abort;
use trial_parts::THREE_POINTS;

/// The two disks of a journal.
pub type Pair = (MemoryDisk, MemoryDisk);

/// Which calls of a disk come to nothing.
#[derive(Clone, Copy)]
pub enum Trouble {
    None,
    /// The call of this number alone, counted from 1.
    Fails(u64),
    /// All calls behind so many.
    Stops(u64),
}

/// The damper, the lamp and the fan, on one driver.
pub fn three_points(rt: &impl Abort, alloc: Global) -> Catalogue
    ensures { HasDevices 1 (actuators result) }
{
    one_driver(rt, alloc, THREE_POINTS)
}

/// The points of a text, all of them on its first driver.
pub fn one_driver(rt: &impl Abort, alloc: Global, text: &str) -> Catalogue
    ensures { HasDevices 1 (actuators result) }
{
    let catalogue = Catalogue::read(alloc, text.as_bytes()).expect(rt, "a catalogue");
    for place in 0..catalogue.count() {
        if is_elsewhere(catalogue.point(PointId(place))) {
            rt.panic("a second driver");
        }
    }
    catalogue
}

/// Whether a point is behind another driver than the first.
fn is_elsewhere(point: &Point) -> bool
    ensures { result ≡ lacks_device 1 (seen point.now) }
{
    let driver = point.driver;
    driver.0 >= 1
}

/// A disk of these bytes, with a trouble.
pub fn disk(rt: &impl Abort, alloc: Global, bytes: &[u8], trouble: Trouble) -> MemoryDisk {
    let fails = match trouble {
        Trouble::Fails(call) => call,
        Trouble::None | Trouble::Stops(_) => 0,
    };
    let contents = Items::from_vec(bytes.to_vec(alloc).expect(rt, "memory"));
    let mut disk = MemoryDisk::new(alloc, contents, one(rt, alloc, fails)).expect(rt, "memory");
    if let Trouble::Stops(calls) = trouble {
        disk.stop_after(calls);
    }
    disk
}

/// Two disks of these bytes, none of whose calls fails.
pub fn pair(rt: &impl Abort, alloc: Global, first: &[u8], second: &[u8]) -> Pair {
    (
        disk(rt, alloc, first, Trouble::None),
        disk(rt, alloc, second, Trouble::None),
    )
}

/// What a crash may leave of two disks: an image of each, that a number picks.
pub fn images(rt: &impl Abort, alloc: Global, disks: &Pair, picks: (u64, u64)) -> Pair {
    (
        disks.0.image(alloc, picks.0).expect(rt, "memory"),
        disks.1.image(alloc, picks.1).expect(rt, "memory"),
    )
}

/// The one number.
fn one(rt: &impl Abort, alloc: Global, number: u64) -> Items<u64> {
    let mut numbers = Items::new(alloc);
    numbers.try_push(number).expect(rt, "memory");
    numbers
}

/// A source of this text, of which no read fails.
pub fn source_of(rt: &impl Abort, alloc: Global, text: &str) -> BytesSource {
    let bytes = text.as_bytes().to_vec(alloc).expect(rt, "memory");
    BytesSource::new(alloc, Items::from_vec(bytes), Items::new(alloc)).expect(rt, "memory")
}

/// A sink whose write of this number fails, from 1; 0 is none.
pub fn sink(rt: &impl Abort, alloc: Global, fails: u64) -> BytesSink {
    BytesSink::new(alloc, one(rt, alloc, fails)).expect(rt, "memory")
}

/// The device of the one driver, whose write of this number fails.
pub fn device(rt: &impl Abort, alloc: Global, fails: u64) -> Vec<SimActuators>
    ensures { vec_len result ≡ 1 }
{
    let device = SimActuators::new(alloc, one(rt, alloc, fails)).expect(rt, "memory");
    let mut devices = Vec::new(alloc);
    devices.push(device).expect(rt, "memory");
    devices
}

/// Whether a sink took this text.
pub fn expect_told(rt: &impl Abort, sink: &BytesSink, told: &str) {
    assert_eq!(rt; sink.taken(), told.as_bytes());
}

/// Whether these are the bytes of a disk.
pub fn expect_bytes(rt: &impl Abort, disk: MemoryDisk, bytes: &[u8]) {
    assert!(rt; disk.into_bytes().slice() == bytes);
}

/// What a script left.
#[derive(Drop)]
pub struct Ran {
    pub status: Status,
    pub sink: BytesSink,
    pub devices: Vec<SimActuators>,
    pub disks: Pair,
}

/// Runs a script over two disks, with a sink and a device of its own.
pub fn run_over<S: Hears<BytesSink>>(
    alloc: Global,
    catalogue: &Catalogue,
    disks: Pair,
    source: &mut S,
    sink: BytesSink,
    devices: Vec<SimActuators>,
) -> Ran
    requires devices { vec_len devices ≡ 1 }
    requires known { HasDevices 1 (actuators catalogue.now) }
{
    let (mut sink, mut devices) = (sink, devices);
    let (first, second) = disks;
    let (disks, status) = script_on_disks(
        alloc,
        catalogue,
        first,
        second,
        source,
        &mut sink,
        &mut devices,
    );
    Ran {
        status,
        sink,
        devices,
        disks,
    }
}

/// Runs a script of this text, of which the sink's write and the device's of these numbers fail; 0 is none.
pub fn run_failing(
    rt: &impl Abort,
    alloc: Global,
    catalogue: &Catalogue,
    disks: Pair,
    text: &str,
    fails: (u64, u64),
) -> Ran
    requires { HasDevices 1 (actuators catalogue.now) }
{
    let mut source = source_of(rt, alloc, text);
    let sink = sink(rt, alloc, fails.0);
    let devices = device(rt, alloc, fails.1);
    run_over(alloc, catalogue, disks, &mut source, sink, devices)
}

/// Runs a script of which neither fails.
pub fn run(rt: &impl Abort, alloc: Global, catalogue: &Catalogue, disks: Pair, text: &str) -> Ran
    requires { HasDevices 1 (actuators catalogue.now) }
{
    run_failing(rt, alloc, catalogue, disks, text, (0, 0))
}

/// Runs a script, which has to end with this status and to tell this text, and gives the disks that it left.
pub fn expect_run(
    rt: &impl Abort,
    alloc: Global,
    catalogue: &Catalogue,
    disks: Pair,
    text: &str,
    status: Status,
    told: &str,
) -> Pair
    requires { HasDevices 1 (actuators catalogue.now) }
{
    let ran = run(rt, alloc, catalogue, disks, text);
    assert_eq!(rt; ran.status, status);
    expect_told(rt, &ran.sink, told);
    ran.disks
}

/// What a check of two disks tells.
pub fn check(
    rt: &impl Abort,
    alloc: Global,
    catalogue: &Catalogue,
    disks: Pair,
) -> (Status, BytesSink) {
    let mut sink = sink(rt, alloc, 0);
    let (first, second) = disks;
    let (_, status) = check_on_disks(alloc, catalogue, first, second, &mut sink);
    (status, sink)
}

/// A check has to end with this status, and to tell this line.
pub fn expect_check(
    rt: &impl Abort,
    alloc: Global,
    catalogue: &Catalogue,
    disks: Pair,
    status: Status,
    told: &str,
) {
    let (ended, sink) = check(rt, alloc, catalogue, disks);
    assert_eq!(rt; ended, status);
    expect_told(rt, &sink, told);
}
