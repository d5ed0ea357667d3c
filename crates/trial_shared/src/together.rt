// What two callers ask for at once, and is kept together: by a keeper alone, and from two threads.
ghost use Rattle.std.specs.Prelude.{◌≡◌, ◌≤◌, ◌<◌, false, List, length};
ghost use Rattle.boss_model.specs.declared.state.Actuator.{Actuator};
ghost use Rattle.boss_model.specs.Sound.{IsSound};
ghost use Rattle.boss_shared.specs.Together.{MayAsk};

use crate::texts::{expect_text, tell_all};
use crate::threads::{DAMPER, renewal};
use crate::trials::{hold_damper, keeper_of};
use boss_model::{Command, Name, SessionId};
use boss_shared::{Asked, Desk, Keeper, Manager};
use std::alloc::Global;
use std::process::Abort;
use std::sync::Wait;
use std::thread::{Threads, join};
use trial_keeper::{FailingKeeper, Taken, asked, two_asked};

/// Tells what a caller is told.
fn tell_asked(rt: &impl Abort, told: &mut String, asked: &Asked) {
    let tried = asked.tried as u64;
    tell_all(rt, told, asked.answers.as_slice(), &asked.outcomes, tried);
}

/// An attach under this name and a submit at this level, by one of several callers.
fn caller(rt: &impl Abort, alloc: Global, session: u64, name: &[u8], priority: i64) -> Asked
    ensures count { length result.commands ≡ 2 }
    ensures may { (plant : List Actuator) → 0 < length plant → MayAsk plant result }
{
    let name = Name::new(name).expect(rt, "a name");
    asked(alloc, SessionId(session), name, priority).expect(rt, "memory")
}

/// Has what two callers ask for done together by a keeper, and tells what each is told.
fn ask_together(rt: &impl Abort, alloc: Global, keeper: &mut FailingKeeper, told: &mut String)
    requires { 0 < length keeper.old.unkept.engine.plant }
{
    let mut group = [caller(rt, alloc, 1, b"a", 8), caller(rt, alloc, 2, b"b", 7)];
    keeper.apply_together(&mut group);
    tell_both(rt, told, &group);
}

/// Tells what each of two callers is told.
fn tell_both(rt: &impl Abort, told: &mut String, group: &[Asked; 2]) {
    let [first, second] = group;
    tell_asked(rt, told, first);
    tell_asked(rt, told, second);
}

/// How many calls the disk is good for, how many commands that may want memory find it, and what the two callers are told. The
/// second number behind `done` is how many commands were tried.
const ROWS: [(u64, u64, &str); 5] = [
    // All of both is done: of the two leases on the damper the second one's is in force.
    (
        1,
        100,
        "attached: 1 0
accepted: 1 61000
done: 2 2
attached: 1 0
accepted: 2 61000
done: 2 2
",
    ),
    // The second caller's attach finds no memory, so its submit is not done either.
    (
        1,
        2,
        "attached: 1 0
accepted: 1 61000
done: 2 2
done: 0 0
no memory: 0 0
",
    ),
    // The first caller's submit finds none: what the second asks for is done.
    (
        1,
        1,
        "attached: 1 0
done: 1 1
no memory: 0 0
attached: 1 0
accepted: 1 61000
done: 2 2
",
    ),
    // The second caller's submit finds none.
    (
        1,
        3,
        "attached: 1 0
accepted: 1 61000
done: 2 2
attached: 1 0
done: 1 1
no memory: 0 0
",
    ),
    // The disk fails: the first caller is told that, the second that it had.
    (
        0,
        100,
        "done: 0 0
the disk failed: 0 0
done: 0 0
it has stopped: 0 0
",
    ),
];

/// Asks over a disk that is good for so many calls, with so much memory, and compares what is told.
fn expect_told(rt: &impl Abort, alloc: Global, good_calls: u64, fed: u64, wanted: &str) {
    let mut keeper = keeper_of(rt, alloc, good_calls, fed);
    let mut told = String::new(alloc);
    ask_together(rt, alloc, &mut keeper, &mut told);
    expect_text(rt, told.as_str(), wanted);
    assert!(rt; keeper.has_stopped() == (good_calls == 0));
}

#[test]
fn each_caller_is_told_of_what_it_asked_for(rt: HostRuntime) {
    let alloc = rt.alloc();
    for row in &ROWS {
        expect_told(&rt, alloc, row.0, row.1, row.2);
    }
}

// ---- from two threads

/// How often each of the threads asks.
const TIMES: u64 = 100;

/// A renewal and a reading of the damper.
fn renewal_and_reading(rt: &impl Abort, alloc: Global) -> Asked
    ensures { (plant : List Actuator) → 0 < length plant → MayAsk plant result }
{
    let read = Command::Read { point: DAMPER };
    two_asked(alloc, SessionId(1), renewal(alloc), read, 1001).expect(rt, "memory")
}

/// Asks once, and says whether all was answered.
fn ask_once<G: Desk>(desk: &G, pass: &mut G::Pass, asked: &mut Asked) -> bool
    requires own { G.owns desk.now pass.old }
    requires may { MayAsk (G.plant desk.now) asked.old }
    ensures own { G.owns desk.now pass.new }
    ensures parts { G.parts pass.new ≡ G.parts pass.old }
    ensures may { MayAsk (G.plant desk.now) asked.new }
{
    let outcomes = desk.call_all(pass, asked.session, &asked.commands, &mut asked.answers);
    outcomes.rest.is_none()
}

/// Asks the same so often, and says whether all was answered each time.
fn ask_often<G: Desk>(desk: &G, mut pass: G::Pass, mut asked: Asked) -> (G::Pass, bool)
    requires own { G.owns desk.now pass }
    requires may { MayAsk (G.plant desk.now) asked }
    ensures own { G.owns desk.now result.0 }
    ensures parts { G.parts result.0 ≡ G.parts pass }
{
    let mut all = true;
    for _ in 0..TIMES {
        all &= ask_once(desk, &mut pass, &mut asked);
    }
    (pass, all)
}

/// Two threads ask at once, each with a pass of its own. Whether all was answered.
fn ask_in_two_threads<R: Threads, G: Desk + Sync>(
    rt: &R,
    desk: &G,
    mut pass: G::Pass,
    one: Asked,
    two: Asked,
) -> (G::Pass, bool)
where
    G::Pass: Send,
    requires own { G.owns desk.now pass }
    requires two_parts { 2 ≤ G.parts pass }
    requires one { MayAsk (G.plant desk.now) one }
    requires two { MayAsk (G.plant desk.now) two }
    ensures own { G.owns desk.now result.0 }
    ensures parts { G.parts result.0 ≡ G.parts pass }
{
    let other = desk.split(&mut pass);
    let ((mut pass, first), (other, second)) = join(
        rt,
        move || -> (G::Pass, bool)
            requires { G.owns desk.now pass × MayAsk (G.plant desk.now) one }
            ensures { G.owns desk.entry.now result.0 × (G.parts result.0 ≡ G.parts pass) }
        { ask_often(desk, pass, one) },
        move || -> (G::Pass, bool)
            requires { G.owns desk.now other × MayAsk (G.plant desk.now) two }
            ensures { G.owns desk.entry.now result.0 × (G.parts result.0 ≡ G.parts other) }
        { ask_often(desk, other, two) },
    );
    desk.join(&mut pass, other);
    (pass, first && second)
}

/// An attach and a submit, of which nothing is compared.
fn hold_untold<G: Desk>(rt: &impl Abort, alloc: Global, desk: &G, pass: &mut G::Pass)
    requires own { G.owns desk.now pass.old }
    requires point { 0 < length (G.plant desk.now) }
    ensures own { G.owns desk.now pass.new }
    ensures parts { G.parts pass.new ≡ G.parts pass.old }
{
    let mut told = String::new(alloc);
    hold_damper(rt, alloc, desk, pass, &mut told);
}

/// Has two threads ask over what an attach and a submit made.
fn hold_and_ask<R: Abort + Threads, G: Desk + Sync>(
    rt: &R,
    alloc: Global,
    desk: &G,
    mut pass: G::Pass,
) -> G::Pass
where
    G::Pass: Send,
    requires own { G.owns desk.now pass }
    requires two_parts { 2 ≤ G.parts pass }
    requires point { 0 < length (G.plant desk.now) }
    ensures own { G.owns desk.now result }
    ensures parts { G.parts result ≡ G.parts pass }
{
    hold_untold(rt, alloc, desk, &mut pass);
    let one = renewal_and_reading(rt, alloc);
    let two = renewal_and_reading(rt, alloc);
    let (pass, all) = ask_in_two_threads(rt, desk, pass, one, two);
    assert!(rt; all);
    pass
}

/// Has two threads ask a machine of a keeper before anything was done, and gives the keeper.
fn asked_by_two<R: Abort + Threads + Wait + Sync>(
    rt: &R,
    alloc: Global,
    keeper: FailingKeeper,
) -> FailingKeeper
    requires points { 0 < length keeper.unkept.engine.plant }
    requires sound { IsSound keeper.unkept.engine.plant keeper.unkept.engine.state }
    requires running { keeper.stopped ≡ false }
{
    match Manager::new(rt, alloc, keeper, 2) {
        Ok((manager, pass)) => {
            let pass = hold_and_ask(rt, alloc, &manager, pass);
            manager.close(pass)
        }
        Err(_) => rt.panic("no memory"),
    }
}

/// Behind the two calls that took the damper there are two hundred callers' calls of two commands each. How many of them were kept
/// together is the schedule's.
fn expect_shared(rt: &impl Abort, taken: &[Taken]) {
    let mut commands: usize = 0;
    let mut callers: usize = 0;
    for call in taken {
        commands = commands.saturating_add(call.commands);
        callers = callers.saturating_add(call.callers);
    }
    assert!(rt; commands == 402 && callers == 202);
}

/// What two threads ask for is done once each, in a record of its own or in one that has those of both.
#[test]
fn two_threads_share_a_record(rt: HostRuntime) {
    let alloc = rt.alloc();
    let keeper = keeper_of(&rt, alloc, 10_000, 10_000).slow(20_000);
    let keeper = asked_by_two(&rt, alloc, keeper);
    expect_shared(&rt, keeper.taken());
}
