//! What is outside of the program in a trial, and what a run of it tells.

ghost use Rattle.std.specs.Prelude.{◌≡◌, IsTrue};
ghost use Rattle.boss_files.specs.Shelf.{have_distinct_names};

use boss_files::MemoryFiles;
use boss_manager::{Next, Status, boss, boss_serve};
use boss_model::Items;
use boss_outside::{BytesSink, BytesSource, DeviceCall, SimActuators};
use boss_outside_server::{ListClock, ListHost, ListSpawner, TurnWaiter};
use std::alloc::Global;
use std::process::Abort;
use std::sync::Wait;
use std::thread::Threads;

/// The words of a script with its journal in memory.
pub const SCRIPT_WORDS: &str = "script site.toml -";

/// The number of the call that fails, from 1, of each thing outside; 0 is none.
#[derive(Clone, Copy)]
pub struct Fails {
    pub files: u64,
    pub source: u64,
    pub sink: u64,
    pub device: u64,
    pub host: u64,
}

pub const NONE_FAILS: Fails = Fails {
    files: 0,
    source: 0,
    sink: 0,
    device: 0,
    host: 0,
};

/// What a run of the program is given.
#[derive(Clone, Copy)]
pub struct Given<'a> {
    pub words: &'a str,
    /// What the file `site.toml` holds.
    pub file: &'a str,
    /// What the file `plan.toml` holds.
    pub plan: &'a str,
    pub input: &'a str,
    pub fails: Fails,
}

/// What a run of the program is to tell.
#[derive(Clone, Copy)]
pub struct Told<'a> {
    pub output: &'a str,
    /// The calls that the first device is made, as lines: the number of the point, the value, and what came of it.
    pub calls: &'a str,
    pub status: u8,
}

/// Runs the program, and compares all that it tells.
pub fn expect<R: Abort + Threads + Wait + Sync>(
    rt: &R,
    alloc: Global,
    shows: &str,
    given: &Given,
    told: &Told,
) {
    let ran = run(rt, alloc, given);
    let wanted = wanted(rt, alloc, told);
    expect_text(rt, ran.as_str(), wanted.as_str(), shows);
}

fn wanted(rt: &impl Abort, alloc: Global, told: &Told) -> String {
    let text = format!(in alloc; "{}{}status {}\n", told.output, told.calls, told.status);
    text.expect(rt, "memory")
}

/// Compares texts.
pub fn expect_text(rt: &impl Abort, told: &str, wanted: &str, shows: &str) {
    assert_eq!(rt; told, wanted, "{shows}");
}

/// Runs the program on these words with two files, `site.toml` and `plan.toml`, with this input, and with sixteen devices, of which
/// the first may fail, and gives all that it tells as one text.
fn run<R: Abort + Threads + Wait + Sync>(rt: &R, alloc: Global, given: &Given) -> String {
    let mut files = files_of(rt, alloc, given);
    let ran = run_on(rt, alloc, &mut files, given.words, given.input, given.fails);
    tell(rt, alloc, &ran)
}

fn files_of(rt: &impl Abort, alloc: Global, given: &Given) -> MemoryFiles {
    let shelf = shelf(rt, alloc, given.file, given.plan);
    let fails = call(rt, alloc, given.fails.files);
    MemoryFiles::new(alloc, shelf, fails).expect(rt, "memory")
}

/// What is left of a run of the program, beside its files.
#[derive(Drop)]
pub struct Ran {
    pub sink: BytesSink,
    pub devices: Vec<SimActuators>,
    pub status: Status,
}

/// Runs the program on these words over these files, with this input, and with sixteen devices. Of the calls of all but the files one
/// may fail.
pub fn run_on<R: Abort + Threads + Wait + Sync>(
    rt: &R,
    alloc: Global,
    files: &mut MemoryFiles,
    words: &str,
    input: &str,
    fails: Fails,
) -> Ran {
    let words = words_of(rt, alloc, words);
    let mut source = source_of(rt, alloc, input, fails.source);
    let mut sink = BytesSink::new(alloc, call(rt, alloc, fails.sink)).expect(rt, "memory");
    let mut devices = sixteen_devices(rt, alloc, fails.device);
    let status = alone(
        rt,
        alloc,
        &words,
        files,
        &mut source,
        &mut sink,
        &mut devices,
        fails.host,
    );
    Ran {
        sink,
        devices,
        status,
    }
}

/// Runs the program with a host that has no connection and may not be able to listen, a clock that tells 0, a waiter that closes at once, and a spawner that starts
/// every task.
fn alone<R: Abort + Threads + Wait + Sync>(
    rt: &R,
    alloc: Global,
    words: &Vec<String>,
    files: &mut MemoryFiles,
    source: &mut BytesSource,
    sink: &mut BytesSink,
    devices: &mut Vec<SimActuators>,
    host_fails: u64,
) -> Status {
    let job = match boss(alloc, words, files, source, sink, devices) {
        Next::Done(status) => return status,
        Next::Serve(job) => job,
    };
    let mut clock = ListClock::new(alloc, Items::new(alloc), Items::new(alloc)).expect(
        rt, "memory",
    );
    let mut host: ListHost<BytesSource, BytesSink> = ListHost::new(
        alloc,
        Items::new(alloc),
        call(rt, alloc, host_fails),
    ).expect(rt, "memory");
    let mut waiter = TurnWaiter::new(alloc, 0).expect(rt, "memory");
    let mut spawner: ListSpawner<R> = ListSpawner::new(alloc, Items::new(alloc)).expect(
        rt, "memory",
    );
    boss_serve(
        rt,
        alloc,
        &job,
        files,
        source,
        sink,
        devices,
        &mut clock,
        &mut host,
        &mut waiter,
        &mut spawner,
    )
}

/// The words of a text, which blanks part. An empty text has none.
fn words_of(rt: &impl Abort, alloc: Global, text: &str) -> Vec<String> {
    let mut words = Vec::new(alloc);
    put_words(rt, alloc, text, &mut words);
    words
}

fn put_words(rt: &impl Abort, alloc: Global, text: &str, words: &mut Vec<String>) {
    for word in text.split(' ') {
        if !word.is_empty() {
            put_word(rt, alloc, word, words);
        }
    }
}

fn put_word(rt: &impl Abort, alloc: Global, word: &str, words: &mut Vec<String>) {
    let word = String::from_str(alloc, word).expect(rt, "memory");
    words.push(word).expect(rt, "memory");
}

/// The files `site.toml` and `plan.toml`, with these texts.
fn shelf(rt: &impl Abort, alloc: Global, site: &str, plan: &str) -> Items<(Items<u8>, Items<u8>)>
    ensures { IsTrue (have_distinct_names result) }
{
    let mut files = Vec::new(alloc);
    let site = (bytes(rt, alloc, "site.toml"), bytes(rt, alloc, site));
    files.push(site).expect(rt, "memory");
    let plan = (bytes(rt, alloc, "plan.toml"), bytes(rt, alloc, plan));
    files.push(plan).expect(rt, "memory");
    Items::from_vec(files)
}

fn source_of(rt: &impl Abort, alloc: Global, text: &str, fails: u64) -> BytesSource {
    let text = bytes(rt, alloc, text);
    BytesSource::new(alloc, text, call(rt, alloc, fails)).expect(rt, "memory")
}

/// Sixteen devices, of which the first fails the call of this number.
fn sixteen_devices(rt: &impl Abort, alloc: Global, fails: u64) -> Vec<SimActuators> {
    let mut devices = Vec::new(alloc);
    put_device(rt, alloc, fails, &mut devices);
    for _ in 1..16 {
        put_device(rt, alloc, 0, &mut devices);
    }
    devices
}

/// One device more, which fails the call of this number.
fn put_device(rt: &impl Abort, alloc: Global, fails: u64, devices: &mut Vec<SimActuators>) {
    let device = SimActuators::new(alloc, call(rt, alloc, fails)).expect(rt, "memory");
    devices.push(device).expect(rt, "memory");
}

/// The bytes of a text.
pub fn bytes(rt: &impl Abort, alloc: Global, text: &str) -> Items<u8>
    ensures { result ≡ text.now }
{
    Items::from_vec(text.as_bytes().to_vec(alloc).expect(rt, "memory"))
}

/// The one call of this number.
fn call(rt: &impl Abort, alloc: Global, number: u64) -> Items<u64> {
    let mut calls = Items::new(alloc);
    calls.try_push(number).expect(rt, "memory");
    calls
}

/// The output, the calls of the first device, and the status.
fn tell(rt: &impl Abort, alloc: Global, ran: &Ran) -> String {
    let mut text = String::new(alloc);
    tell_output(rt, &mut text, &ran.sink);
    tell_calls(rt, &mut text, ran.devices.first().expect(rt, "a device"));
    tell_status(rt, &mut text, ran.status);
    text
}

/// Tells what a sink took.
pub fn tell_output(rt: &impl Abort, text: &mut String, sink: &BytesSink) {
    let output = str::from_utf8(sink.taken()).expect(rt, "a text");
    text.push_str(output).expect(rt, "memory");
}

pub fn tell_status(rt: &impl Abort, text: &mut String, status: Status) {
    writeln!(text, "status {}", status.0).expect(rt, "memory");
}

fn tell_calls(rt: &impl Abort, text: &mut String, device: &SimActuators) {
    assert!(rt; device.is_whole());
    for call in device.calls() {
        tell_call(rt, text, call);
    }
}

fn tell_call(rt: &impl Abort, text: &mut String, call: &DeviceCall) {
    let result = if call.ok { "ok" } else { "failed" };
    writeln!(text, "{} {} {result}", call.point.0, call.value).expect(rt, "memory");
}
