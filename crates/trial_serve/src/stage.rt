//! A server in memory: what it is run on, and what is told of it afterwards.

ghost use Rattle.std.specs.Prelude.{◌≤◌};

use crate::clocks::{call, list_clock};
use crate::connections::{Connections, Talk, count, host, tell_talks};
use crate::texts::{put, put_number, tell_end};
use boss_access::{Rules, RulesRefusal};
use boss_disk::MemoryDisk;
use boss_keys::{KeyFile, Keys, KeysRefusal};
use boss_manager::{Service, Site, Status, Surroundings, serve_in_memory, serve_on_disks};
use boss_model::Items;
use boss_outside::{BytesSink, BytesSource, SimActuators};
use boss_outside_server::{Host, ListClock, ListHost, ListSpawner, TurnWaiter};
use boss_points::Catalogue;
use std::alloc::Global;
use std::process::Abort;
use std::sync::Wait;
use std::thread::Threads;

/// What a server is run on. The numbers of calls that fail are counted from 1; 0 is none.
#[derive(Clone, Copy)]
pub struct Setting<'a> {
    /// The connections of each worker, in order.
    pub workers: &'a [&'a [Talk<'a>]],
    /// What the clock gives, in each of its parts.
    pub moments: &'static [u32],
    pub clock_fails: u64,
    /// Counted over the bind and, in each part, its accepts.
    pub host_fails: u64,
    /// The number of the task that is not started.
    pub unstarted: u64,
    /// How many pauses of each part of the waiter go on.
    pub turns: u64,
    /// Whether there is a device.
    pub device: bool,
    /// The access rules of a file, or an empty text for none.
    pub rules: &'static str,
    /// The keys of a file, or an empty text for none.
    pub keys: &'static str,
    pub sink_fails: u64,
}

/// All that a server stands on but its host.
#[derive(Drop)]
struct Stage<R> {
    clock: ListClock,
    waiter: TurnWaiter,
    spawner: ListSpawner<R>,
    sink: BytesSink,
    devices: Vec<SimActuators>,
}

/// The one device, or none.
fn devices(rt: &impl Abort, alloc: Global, setting: &Setting) -> Vec<SimActuators> {
    let mut devices = Vec::new(alloc);
    if setting.device {
        let device = SimActuators::new(alloc, Items::new(alloc)).expect(rt, "memory");
        devices.push(device).expect(rt, "memory");
    }
    devices
}

impl<R: Abort> Stage<R> {
    fn new(rt: &R, alloc: Global, setting: &Setting) -> Stage<R> {
        let unstarted = call(rt, alloc, setting.unstarted);
        let fails = call(rt, alloc, setting.sink_fails);
        Stage {
            clock: list_clock(rt, alloc, setting.moments, setting.clock_fails),
            waiter: TurnWaiter::new(alloc, setting.turns).expect(rt, "memory"),
            spawner: ListSpawner::new(alloc, unstarted).expect(rt, "memory"),
            sink: BytesSink::new(alloc, fails).expect(rt, "memory"),
            devices: devices(rt, alloc, setting),
        }
    }
}

/// How many workers there are: 1 to 32.
fn workers(setting: &Setting) -> u32
    ensures some { 1 ≤ result }
    ensures few { result ≤ 32 }
{
    setting.workers.len().clamp(1, 32) as u32
}

/// The rules of a text, if it has some.
fn rules(alloc: Global, text: &str) -> Result<Option<Rules>, RulesRefusal> {
    if text.is_empty() {
        return Ok(None);
    }
    match Rules::read(alloc, text.as_bytes()) {
        Ok(rules) => Ok(Some(rules)),
        Err(refusal) => Err(refusal),
    }
}

/// The keys of a text, if it has some.
fn keys(alloc: Global, text: &str) -> Result<Option<Keys>, KeysRefusal> {
    if text.is_empty() {
        return Ok(None);
    }
    match KeyFile::read(alloc, text.as_bytes()) {
        Ok(file) => Ok(Some(file.keys)),
        Err(refusal) => Err(refusal),
    }
}

/// Serves all connections, by as many workers as the setting has.
fn serve<R: Abort + Threads + Wait + Sync>(
    rt: &R,
    alloc: Global,
    catalogue: &Catalogue,
    setting: &Setting,
    host: &mut Connections,
    stage: &mut Stage<R>,
) -> Status
    requires { ⟦<ListHost<BytesSource, BytesSink> as Host>⟧.sound host.old }
{
    let Ok(rules) = rules(alloc, setting.rules) else {
        return Status::RULES;
    };
    let Ok(keys) = keys(alloc, setting.keys) else {
        return Status::KEYS;
    };
    let none = None;
    let service = Service {
        address: "here",
        workers: workers(setting),
        connections: count(setting.workers),
        rules: &none,
        plan: &none,
        keys: &none,
    };
    let surroundings = Surroundings {
        sink: &mut stage.sink,
        devices: &mut stage.devices,
        clock: &mut stage.clock,
        host,
        waiter: &mut stage.waiter,
        spawner: &mut stage.spawner,
    };
    let site = Site {
        catalogue,
        rules,
        keys,
        reserve: 0,
    };
    serve_in_memory(rt, alloc, site, service, surroundings)
}

/// What is told of a server that is run on these connections.
fn run_on<R: Abort + Threads + Wait + Sync>(
    rt: &R,
    alloc: Global,
    catalogue: &Catalogue,
    setting: &Setting,
    host: &mut Connections,
) -> String
    requires { ⟦<ListHost<BytesSource, BytesSink> as Host>⟧.sound host.old }
{
    let mut stage = Stage::new(rt, alloc, setting);
    let status = serve(rt, alloc, catalogue, setting, host, &mut stage);
    tell(rt, alloc, host, &stage, status)
}

/// What comes of a server, as text.
pub fn run<R: Abort + Threads + Wait + Sync>(
    rt: &R,
    alloc: Global,
    catalogue: &Catalogue,
    setting: &Setting,
) -> String {
    let mut host = host(rt, alloc, setting.workers, setting.host_fails);
    run_on(rt, alloc, catalogue, setting, &mut host)
}

/// The addresses that a server's host was made to listen at, each with a blank behind it.
pub fn addresses<R: Abort + Threads + Wait + Sync>(
    rt: &R,
    alloc: Global,
    catalogue: &Catalogue,
    setting: &Setting,
) -> String {
    let mut host = host(rt, alloc, setting.workers, setting.host_fails);
    let mut text = run_on(rt, alloc, catalogue, setting, &mut host);
    text.clear();
    tell_addresses(rt, &mut text, &host);
    text
}

fn tell_addresses(rt: &impl Abort, text: &mut String, host: &Connections) {
    for address in host.listens() {
        put(rt, text, address.slice());
        put(rt, text, b" ");
    }
}

/// The two disks of a journal.
pub type Pair = (MemoryDisk, MemoryDisk);

/// Serves all connections over a journal on two disks, without rules and keys.
fn serve_kept<R: Abort + Threads + Wait + Sync>(
    rt: &R,
    alloc: Global,
    catalogue: &Catalogue,
    setting: &Setting,
    disks: Pair,
    host: &mut Connections,
    stage: &mut Stage<R>,
) -> (Pair, Status)
    requires { ⟦<ListHost<BytesSource, BytesSink> as Host>⟧.sound host.old }
{
    let none = None;
    let service = Service {
        address: "here",
        workers: workers(setting),
        connections: count(setting.workers),
        rules: &none,
        plan: &none,
        keys: &none,
    };
    let surroundings = Surroundings {
        sink: &mut stage.sink,
        devices: &mut stage.devices,
        clock: &mut stage.clock,
        host,
        waiter: &mut stage.waiter,
        spawner: &mut stage.spawner,
    };
    let site = Site {
        catalogue,
        rules: None,
        keys: None,
        reserve: 0,
    };
    serve_on_disks(rt, alloc, site, disks.0, disks.1, service, surroundings)
}

/// What comes of a server over a journal, as text, and its disks afterwards.
pub fn run_on_disks<R: Abort + Threads + Wait + Sync>(
    rt: &R,
    alloc: Global,
    catalogue: &Catalogue,
    setting: &Setting,
    disks: Pair,
) -> (String, Pair) {
    let mut stage = Stage::new(rt, alloc, setting);
    let mut host = host(rt, alloc, setting.workers, setting.host_fails);
    let (disks, status) = serve_kept(rt, alloc, catalogue, setting, disks, &mut host, &mut stage);
    (tell(rt, alloc, &host, &stage, status), disks)
}

/// What is left of a server, as lines: each connection that came back with its session and what it was told, each worker's pauses and
/// whether it was told to close, each call of the device, the server's own line, and the status.
fn tell<R: Abort>(
    rt: &R,
    alloc: Global,
    host: &Connections,
    stage: &Stage<R>,
    status: Status,
) -> String {
    let mut text = String::new(alloc);
    tell_talks(rt, &mut text, alloc, host);
    tell_pauses(rt, &mut text, alloc, &stage.waiter);
    tell_calls(rt, &mut text, &stage.devices);
    tell_end(rt, &mut text, stage.sink.taken(), status.0);
    text
}

fn tell_pauses(rt: &impl Abort, text: &mut String, alloc: Global, waiter: &TurnWaiter) {
    for note in waiter.waits(alloc).expect(rt, "memory") {
        put_number(rt, text, "pauses ", note.pauses);
        put(rt, text, if note.closed { b" closed\n" } else { b"\n" });
    }
}

fn tell_calls(rt: &impl Abort, text: &mut String, devices: &Vec<SimActuators>) {
    for device in devices {
        for call in device.calls() {
            writeln!(text, "point {} {}", call.point.0, call.value).expect(rt, "memory");
        }
    }
}
