ghost use Rattle.std.specs.Prelude.{◌≡◌, ◌≤◌, ◌<◌, false, List, length};
ghost use Rattle.std.specs.List.{AllByRecursion};
ghost use Rattle.boss_model.specs.Catalogue.{actuators};
ghost use Rattle.boss_model.specs.declared.state.Actuator.{Actuator};
ghost use Rattle.boss_model.specs.Sound.{IsAllowed, IsSound};
ghost use Rattle.def_history.specs.History.{MayCall};

use crate::texts::{expect_text, tell_all, tell_outcome};
use crate::threads::{DAMPER, read_and_renew, renewal};
use boss_model::{Command, Items, Name, SessionId};
use boss_points::Catalogue;
use boss_shared::{Desk, Keeper, Manager};
use std::alloc::Global;
use std::process::Abort;
use std::sync::Wait;
use std::thread::Threads;
use trial_keeper::FailingKeeper;
use trial_parts::THREE_POINTS;

/// The damper at 45 for a minute, at this level.
fn submit(rt: &impl Abort, alloc: Global, priority: i64) -> Command
    ensures { (plant : List Actuator) → 0 < length plant → IsAllowed plant result }
{
    trial_keeper::submit(alloc, priority).expect(rt, "memory")
}

fn attach(rt: &impl Abort, name: &[u8]) -> Command
    ensures { (plant : List Actuator) → 0 < length plant → IsAllowed plant result }
{
    let name = Name::new(name).expect(rt, "a name");
    Command::Attach { name }
}

/// Both, and the slots of the damper.
fn batch(rt: &impl Abort, alloc: Global) -> Items<(Command, u64)>
    ensures count { length result ≡ 3 }
    ensures may { (plant : List Actuator) → 0 < length plant → AllByRecursion (MayCall plant) result }
{
    let mut commands = Items::new(alloc);
    let attach = attach(rt, b"a");
    commands.try_push((attach, 1000)).expect(rt, "memory");
    let submit = submit(rt, alloc, 8);
    commands.try_push((submit, 1000)).expect(rt, "memory");
    commands
        .try_push((Command::Array { point: DAMPER }, 1001))
        .expect(rt, "memory");
    commands
}

/// Asks as this session, and tells what came of it.
fn ask<G: Desk>(
    rt: &impl Abort,
    desk: &G,
    pass: &mut G::Pass,
    session: SessionId,
    command: &Command,
    moment: u64,
    told: &mut String,
)
    requires own { G.owns desk.now pass.old }
    requires may { MayCall (G.plant desk.now) (command.now, moment) }
    ensures own { G.owns desk.now pass.new }
    ensures parts { G.parts pass.new ≡ G.parts pass.old }
{
    let outcome = desk.call(pass, session, command, moment);
    tell_outcome(rt, told, &outcome);
}

/// Asks several commands at once as this session, and tells what came of them.
fn ask_all<G: Desk>(
    rt: &impl Abort,
    alloc: Global,
    desk: &G,
    pass: &mut G::Pass,
    session: SessionId,
    commands: &Items<(Command, u64)>,
    told: &mut String,
)
    requires own { G.owns desk.now pass.old }
    requires some { 1 ≤ length commands.now }
    requires few { length commands.now ≤ 16 }
    requires may { AllByRecursion (MayCall (G.plant desk.now)) commands.now }
    ensures own { G.owns desk.now pass.new }
    ensures parts { G.parts pass.new ≡ G.parts pass.old }
{
    let mut answers = Vec::with_capacity(alloc, 16).expect(rt, "memory");
    let outcomes = desk.call_all(pass, session, commands, &mut answers);
    tell_all(rt, told, answers.as_slice(), &outcomes, 0);
}

/// Asks the batch as this session, and tells what came of it.
fn ask_batch<G: Desk>(
    rt: &impl Abort,
    alloc: Global,
    desk: &G,
    pass: &mut G::Pass,
    session: SessionId,
    told: &mut String,
)
    requires own { G.owns desk.now pass.old }
    requires point { 0 < length (G.plant desk.now) }
    ensures own { G.owns desk.now pass.new }
    ensures parts { G.parts pass.new ≡ G.parts pass.old }
{
    let commands = batch(rt, alloc);
    ask_all(rt, alloc, desk, pass, session, &commands, told);
}

/// An attach and a submit.
pub fn hold_damper<G: Desk>(
    rt: &impl Abort,
    alloc: Global,
    desk: &G,
    pass: &mut G::Pass,
    told: &mut String,
)
    requires own { G.owns desk.now pass.old }
    requires point { 0 < length (G.plant desk.now) }
    ensures own { G.owns desk.now pass.new }
    ensures parts { G.parts pass.new ≡ G.parts pass.old }
{
    let attach = attach(rt, b"a");
    let submit = submit(rt, alloc, 8);
    ask(rt, desk, pass, SessionId(1), &attach, 1000, told);
    ask(rt, desk, pass, SessionId(1), &submit, 1000, told);
}

/// Two threads read and renew, over what an attach and a submit made. Then the lease lasts as long as the last renewal says, and
/// a renewal behind the tick that ended it is refused.
fn ask_in_two_threads<R: Abort + Threads, G: Desk + Sync>(
    rt: &R,
    alloc: Global,
    desk: &G,
    mut pass: G::Pass,
    told: &mut String,
) -> G::Pass
where
    G::Pass: Send,
    requires own { G.owns desk.now pass }
    requires two_parts { 2 ≤ G.parts pass }
    requires point { 0 < length (G.plant desk.now) }
    ensures own { G.owns desk.now result }
    ensures parts { G.parts result ≡ G.parts pass }
{
    hold_damper(rt, alloc, desk, &mut pass, told);
    let (mut pass, all) = read_and_renew(rt, alloc, desk, pass);
    assert!(rt; all);
    let array = Command::Array { point: DAMPER };
    ask(rt, desk, &mut pass, SessionId(1), &array, 2000, told);
    ask(
        rt,
        desk,
        &mut pass,
        SessionId(1),
        &Command::Tick,
        62_000,
        told,
    );
    let renewal = renewal(alloc);
    ask(rt, desk, &mut pass, SessionId(1), &renewal, 62_000, told);
    pass
}

/// The disk fails in the second call. It is told so, and then all are told that nothing more is done.
fn ask_over_a_failing_disk<G: Desk>(
    rt: &impl Abort,
    alloc: Global,
    desk: &G,
    pass: &mut G::Pass,
    told: &mut String,
)
    requires own { G.owns desk.now pass.old }
    requires point { 0 < length (G.plant desk.now) }
    ensures own { G.owns desk.now pass.new }
    ensures parts { G.parts pass.new ≡ G.parts pass.old }
{
    hold_damper(rt, alloc, desk, pass, told);
    ask(rt, desk, pass, SessionId(2), &Command::Tick, 1000, told);
    ask_batch(rt, alloc, desk, pass, SessionId(2), told);
}

/// What `a` may write at level 8, it may not write at 7; and `b` may write nothing.
fn ask_what_is_denied<G: Desk>(
    rt: &impl Abort,
    alloc: Global,
    desk: &G,
    pass: &mut G::Pass,
    told: &mut String,
)
    requires own { G.owns desk.now pass.old }
    requires point { 0 < length (G.plant desk.now) }
    ensures own { G.owns desk.now pass.new }
    ensures parts { G.parts pass.new ≡ G.parts pass.old }
{
    hold_damper(rt, alloc, desk, pass, told);
    let higher = submit(rt, alloc, 7);
    ask(rt, desk, pass, SessionId(1), &higher, 1001, told);
    let attach = attach(rt, b"b");
    ask(rt, desk, pass, SessionId(2), &attach, 1002, told);
    let submit = submit(rt, alloc, 8);
    ask(rt, desk, pass, SessionId(2), &submit, 1003, told);
}

/// What is asked of a machine.
#[derive(Clone, Copy)]
pub enum Asked {
    InTwoThreads,
    AtOnce,
    OverAFailingDisk,
    WhatIsDenied,
}

/// Asks this of a machine.
pub fn ask_for<R: Abort + Threads, G: Desk + Sync>(
    rt: &R,
    alloc: Global,
    desk: &G,
    mut pass: G::Pass,
    asked: Asked,
    told: &mut String,
) -> G::Pass
where
    G::Pass: Send,
    requires own { G.owns desk.now pass }
    requires two_parts { 2 ≤ G.parts pass }
    requires point { 0 < length (G.plant desk.now) }
    ensures own { G.owns desk.now result }
    ensures parts { G.parts result ≡ G.parts pass }
{
    match asked {
        Asked::InTwoThreads => ask_in_two_threads(rt, alloc, desk, pass, told),
        Asked::AtOnce => {
            ask_batch(rt, alloc, desk, &mut pass, SessionId(1), told);
            pass
        }
        Asked::OverAFailingDisk => {
            ask_over_a_failing_disk(rt, alloc, desk, &mut pass, told);
            pass
        }
        Asked::WhatIsDenied => {
            ask_what_is_denied(rt, alloc, desk, &mut pass, told);
            pass
        }
    }
}

/// Asks this of a machine of a keeper before anything was done, and tells what it is told.
fn ask_machine<R: Abort + Threads + Wait + Sync>(
    rt: &R,
    alloc: Global,
    keeper: FailingKeeper,
    asked: Asked,
    told: &mut String,
)
    requires points { 0 < length keeper.unkept.engine.plant }
    requires sound { IsSound keeper.unkept.engine.plant keeper.unkept.engine.state }
    requires running { keeper.stopped ≡ false }
{
    match Manager::new(rt, alloc, keeper, 2) {
        Ok((manager, pass)) => {
            let pass = ask_for(rt, alloc, &manager, pass, asked, told);
            let keeper = manager.close(pass);
            tell_stop(rt, told, &keeper);
        }
        Err(_) => rt.panic("no memory"),
    }
}

/// Tells whether a keeper has stopped.
fn tell_stop(rt: &impl Abort, told: &mut String, keeper: &FailingKeeper) {
    if keeper.has_stopped() {
        told.push_str("stopped\n").expect(rt, "memory");
    }
}

/// The catalogue of three points.
pub fn three_points(rt: &impl Abort, alloc: Global) -> Catalogue
    ensures { 0 < length (actuators result) }
{
    let catalogue = Catalogue::read(alloc, THREE_POINTS.as_bytes()).expect(rt, "a catalogue");
    if catalogue.count() != 3 {
        rt.panic("three points");
    }
    catalogue
}

/// An engine of three points whose disk fails in the call after so many good ones, where so many of the commands that may want memory
/// find it before one finds none.
pub fn keeper_of(rt: &impl Abort, alloc: Global, good_calls: u64, fed: u64) -> FailingKeeper
    ensures points { 0 < length result.unkept.engine.plant }
    ensures sound { IsSound result.unkept.engine.plant result.unkept.engine.state }
    ensures running { result.stopped ≡ false }
{
    let catalogue = three_points(rt, alloc);
    FailingKeeper::starving(alloc, &catalogue, good_calls, fed).expect(rt, "memory")
}

/// What is asked, how many calls the disk is good for, and what is told.
const ROWS: [(Asked, u64, &str); 3] = [
    (
        Asked::InTwoThreads,
        10_000,
        "attached: 1 0
accepted: 1 61000
the damper is held: 1 62000
ticked: 62000 0
refused, for the lease expired: 62000 62000
",
    ),
    (
        Asked::AtOnce,
        1,
        "attached: 1 0
accepted: 1 61000
the damper is held: 1 61000
done: 3 0
",
    ),
    (
        Asked::OverAFailingDisk,
        1,
        "attached: 1 0
the disk failed: 0 0
it has stopped: 0 0
done: 0 0
it has stopped: 0 0
stopped
",
    ),
];

/// Asks this of a machine whose disk is good for so many calls, and compares what is told.
fn expect_told<R: Abort + Threads + Wait + Sync>(
    rt: &R,
    alloc: Global,
    asked: Asked,
    good_calls: u64,
    wanted: &str,
) {
    let keeper = keeper_of(rt, alloc, good_calls, u64::MAX);
    let mut told = String::new(alloc);
    ask_machine(rt, alloc, keeper, asked, &mut told);
    expect_text(rt, told.as_str(), wanted);
}

#[test]
fn callers_share_one_machine(rt: HostRuntime) {
    let alloc = rt.alloc();
    for row in &ROWS {
        expect_told(&rt, alloc, row.0, row.1, row.2);
    }
}
