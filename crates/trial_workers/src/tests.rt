ghost use Rattle.std.specs.Prelude.{◌≡◌, [], OnOk, IfOk};
ghost use Rattle.std.specs.List.{AllByRecursion};
ghost use Rattle.boss_outside_server.specs.Hosts.{IsUntouched};

use crate::clients::Clients;
use crate::serving::Serving;
use boss_adapters::{RealClock, RealHost, RealSpawner, RealWaiter};
use boss_model::{Items, NoMemory};
use boss_outside::{BytesSink, BytesSource, Ringer, Sink, Source};
use boss_outside_server::{
    Accepted, Clock, Host, Leaving, Lengths, ListClock, ListHost, ListSpawner, OneOf, Ran, Spawner,
    Task, TurnWaiter, Waited, Waiter, Woke,
};
use std::alloc::Global;
use std::io::Eprint;
use std::net::{Net, SocketAddr, TcpListener, TcpStream};
use std::sync::Wait;
use std::test::Fail;
use std::thread::Threads;
use std::{thread, time};

// What a trial sees is written down as a number of decimal digits, so that one comparison tells of all of it.

/// A digit more behind these.
fn then(digits: u64, digit: u64) -> u64 {
    digits.saturating_mul(10).saturating_add(digit)
}

/// The items of a list.
fn items(alloc: Global, all: &[u64]) -> Result<Items<u64>, NoMemory>
    ensures { IfOk result (λ items. items ≡ all.now) }
{
    Ok(Items::from_vec(all.to_vec(alloc)?))
}

/// Behind these digits the moments that so many readings of a clock give, and 8 for each that fails.
fn readings(mut digits: u64, clock: &mut ListClock, count: u64) -> u64 {
    for _ in 0..count {
        digits = then(digits, clock.now().unwrap_or(8));
    }
    digits
}

/// A reading of a clock, four of its part, and then what both gave.
fn readings_of_two(alloc: Global, clock: &mut ListClock) -> Result<u64, NoMemory> {
    let mut part = clock.split(alloc)?;
    let mut digits = readings(0, clock, 1);
    digits = readings(digits, &mut part, 4);
    clock.join(part);
    for moment in clock.given(alloc)? {
        digits = then(digits, *moment);
    }
    Ok(digits)
}

/// The readings of a clock of two moments, of which the second in each part fails.
fn readings_of_two_moments(alloc: Global) -> Result<u64, NoMemory> {
    let fails = items(alloc, &[2])?;
    let mut clock = ListClock::new(alloc, items(alloc, &[5, 9])?, fails)?;
    readings_of_two(alloc, &mut clock)
}

#[test]
fn a_clock_gives_its_list_in_each_part(rt: HostRuntime) -> Result<(), Fail> {
    assert_eq!(rt; readings_of_two_moments(rt.alloc())?, 558_995_599);
    Ok(())
}

#[test]
fn a_clock_without_a_moment_gives_zero(rt: HostRuntime) -> Result<(), Fail> {
    let alloc = rt.alloc();
    let mut clock = ListClock::new(alloc, Items::new(alloc), Items::new(alloc))?;
    assert_eq!(rt; readings(1, &mut clock, 1), 10);
    Ok(())
}

/// Behind these digits a 1 for each pause that says Again, and a 2 for each that says Close.
fn pauses<W: Waiter>(mut digits: u64, waiter: &mut W, count: u64, milliseconds: u64) -> u64 {
    for _ in 0..count {
        digits = match waiter.pause(milliseconds) {
            Woke::Again => then(digits, 1),
            Woke::Close => then(digits, 2),
        };
    }
    digits
}

/// Four pauses of a part of a waiter, and then for each part that came back the number of its pauses and a 1 where its last
/// one said Close.
fn pauses_of_a_part(alloc: Global, waiter: &mut TurnWaiter) -> Result<u64, NoMemory> {
    let mut part = waiter.split(alloc)?;
    let mut digits = pauses(0, &mut part, 4, 1_000);
    waiter.join(part);
    for note in waiter.waits(alloc)? {
        digits = then(then(digits, note.pauses), u64::from(note.closed));
    }
    Ok(digits)
}

#[test]
fn a_waiter_in_memory_closes_after_its_turns(rt: HostRuntime) -> Result<(), Fail> {
    let mut waiter = TurnWaiter::new(rt.alloc(), 2)?;
    let digits = pauses_of_a_part(rt.alloc(), &mut waiter)?;
    assert_eq!(rt; digits, 112_241);
    Ok(())
}

/// What is noted of a worker where three are expected.
fn note(
    pauses: u64,
    lengths: Lengths,
    closed: bool,
    leaving: Leaving,
    bell: Option<u32>,
) -> Waited {
    Waited {
        pauses,
        lengths,
        closed,
        closes: u64::from(closed),
        expected: 3,
        leaving,
        bell,
    }
}

/// Whether a waiter that expects three workers keeps what it is to of four parts: one that never paused; one that paused twice for
/// 100 ms, and left behind seven connections; one that listens at a second bell, and whose pauses are of two lengths; and one that left
/// twice.
fn keeps_four_notes(alloc: Global, waiter: &mut TurnWaiter) -> Result<bool, NoMemory> {
    waiter.expect(3);
    let first = waiter.split(alloc)?;
    let mut second = waiter.split(alloc)?;
    let mut third = waiter.split(alloc)?;
    let mut fourth = waiter.split(alloc)?;
    pauses(0, &mut second, 2, 100);
    second.leave(7);
    third.listen(4);
    pauses(0, &mut third, 1, 100);
    third.listen(5);
    pauses(0, &mut third, 1, 20);
    fourth.leave(0);
    fourth.leave(1);
    waiter.join(first);
    waiter.join(second);
    waiter.join(third);
    waiter.join(fourth);
    let wanted = [
        note(0, Lengths::NoPause, false, Leaving::NotYet, None),
        note(2, Lengths::Within(100, 100), true, Leaving::Once(7), None),
        note(2, Lengths::Within(20, 100), true, Leaving::NotYet, Some(5)),
        note(0, Lengths::NoPause, false, Leaving::Often, None),
    ];
    let notes = waiter.waits(alloc)?;
    let mut same = notes.len() == wanted.len();
    for (kept, wanted) in notes.iter().zip(wanted.iter()) {
        same = same && **kept == *wanted;
    }
    Ok(same)
}

#[test]
fn a_waiter_keeps_what_its_parts_noted(rt: HostRuntime) -> Result<(), Fail> {
    let mut waiter = TurnWaiter::new(rt.alloc(), 1)?;
    assert!(rt; keeps_four_notes(rt.alloc(), &mut waiter)?);
    Ok(())
}

/// A pause of a part of a waiter that expects two workers, one behind the leave of each, and one of the waiter itself.
fn pauses_behind_leaves<W: Waiter>(alloc: Global, waiter: &mut W) -> Result<u64, NoMemory> {
    waiter.expect(2);
    let mut first = waiter.split(alloc)?;
    let mut second = waiter.split(alloc)?;
    let mut third = waiter.split(alloc)?;
    let mut digits = pauses(0, &mut third, 1, 1);
    first.leave(1);
    digits = pauses(digits, &mut third, 1, 1);
    second.leave(0);
    digits = pauses(digits, &mut third, 1, 1);
    digits = pauses(digits, waiter, 1, 1);
    waiter.join(third);
    Ok(digits)
}

#[test]
fn a_real_waiter_closes_at_the_last_leave(rt: HostRuntime) -> Result<(), Fail> {
    let mut clock = RealClock::new(rt.alloc(), &rt)?;
    let mut waiter = RealWaiter::new(rt.alloc(), &rt, &mut clock)?;
    let digits = pauses_behind_leaves(rt.alloc(), &mut waiter)?;
    assert_eq!(rt; digits, 1_122);
    Ok(())
}

/// Longer than a test may take, in milliseconds.
const TOO_LONG: u64 = 600_000;

/// The pauses of a worker: one behind a ring of its bell, one while it is rung, one in which only another bell was rung, and for the worker
/// for time one behind an alarm whose moment is there.
fn rung_pauses<R: Threads + Wait + time::Clock + Eprint + Copy + Drop + Send + Sync>(
    rt: R,
    alloc: Global,
) -> Result<u64, NoMemory> {
    let mut clock = RealClock::new(alloc, rt)?;
    let mut waiter = RealWaiter::new(alloc, rt, &mut clock)?;
    let mut ringer = waiter.ringer(alloc)?;
    waiter.expect(1);
    let mut part = waiter.split(alloc)?;
    part.listen(7);
    ringer.ring(7);
    let mut digits = pauses(0, &mut part, 1, TOO_LONG);
    let (then, _) = thread::join(
        &rt,
        || pauses(digits, &mut part, 1, TOO_LONG),
        || ringer.ring(7),
    );
    digits = then;
    ringer.ring(8);
    digits = pauses(digits, &mut part, 1, 20);
    part.listen(0);
    ringer.set_alarm(0);
    Ok(pauses(digits, &mut part, 2, TOO_LONG))
}

#[test]
fn a_real_waiter_is_woken_by_its_bell(rt: HostRuntime) -> Result<(), Fail> {
    assert_eq!(rt; rung_pauses(&rt, rt.alloc())?, 11_111);
    Ok(())
}

/// A pause of a worker at a bell that nobody rings, while the only one that is waited for leaves.
fn closed_pause<R: Threads + Wait + time::Clock + Eprint + Copy + Drop + Send + Sync>(
    rt: R,
    alloc: Global,
) -> Result<u64, NoMemory> {
    let mut clock = RealClock::new(alloc, rt)?;
    let mut waiter = RealWaiter::new(alloc, rt, &mut clock)?;
    waiter.expect(1);
    let mut part = waiter.split(alloc)?;
    part.listen(7);
    let (digits, _) = thread::join(
        &rt,
        || pauses(0, &mut part, 1, TOO_LONG),
        || waiter.leave(1),
    );
    Ok(digits)
}

#[test]
fn a_real_waiter_sees_a_close_while_it_sleeps(rt: HostRuntime) -> Result<(), Fail> {
    assert_eq!(rt; closed_pause(&rt, rt.alloc())?, 2);
    Ok(())
}

#[test]
fn the_real_clock_is_past_the_year_2020(rt: HostRuntime) -> Result<(), Fail> {
    let mut clock = RealClock::new(rt.alloc(), &rt)?;
    let mut part = clock.split(rt.alloc())?;
    let now = part.now().unwrap_or(0);
    clock.join(part);
    // The first of January 2020, and of 2120.
    assert!(rt; 1_577_836_800_000 < now && now < 4_733_510_400_000);
    Ok(())
}

#[test]
fn the_real_clock_begins_where_it_is_told_to_in_one_standing(rt: HostRuntime) -> Result<(), Fail> {
    let mut clock = RealClock::new(rt.alloc(), &rt)?;
    // In 2262, so that no wall clock has come up to it.
    let least: u64 = 9_214_646_400_000;
    clock.begin(least);
    let mut part = clock.split(rt.alloc())?;
    let first = clock.now().unwrap_or(0);
    let second = part.now().unwrap_or(0);
    clock.join(part);
    assert!(rt; least <= first && first <= second && second < least + 60_000);
    Ok(())
}

/// A connection by which this text comes in.
fn connection(alloc: Global, text: &str) -> Result<(BytesSource, BytesSink), NoMemory>
    ensures { IfOk result (λ ends. IsUntouched ⟦<BytesSource as Source>⟧ ⟦<BytesSink as Sink>⟧ ends.0 ends.1) }
{
    let bytes = Items::from_vec(text.as_bytes().to_vec(alloc)?);
    let input = BytesSource::new(alloc, bytes, Items::new(alloc))?;
    let output = BytesSink::new(alloc, Items::new(alloc))?;
    Ok((input, output))
}

/// Three connections in two parts.
fn two_parts(alloc: Global) -> Result<ListHost<BytesSource, BytesSink>, NoMemory>
    ensures { IfOk result (λ host. ⟦<ListHost<BytesSource, BytesSink> as Host>⟧.sound host) }
{
    let mut first = Items::new(alloc);
    first.try_push(connection(alloc, "one")?)?;
    first.try_push(connection(alloc, "two")?)?;
    let mut second = Items::new(alloc);
    second.try_push(connection(alloc, "three")?)?;
    let mut parts = Items::new(alloc);
    parts.try_push(first)?;
    parts.try_push(second)?;
    ListHost::new(alloc, parts, Items::new(alloc))
}

/// Whether a host that was asked to listen at three addresses listens at the first and the last, where its second call fails.
fn listens_twice(alloc: Global) -> Result<bool, NoMemory> {
    let parts: Items<Items<(BytesSource, BytesSink)>> = Items::new(alloc);
    let mut host = ListHost::new(alloc, parts, items(alloc, &[2])?)?;
    let first = host.bind("here:1").is_ok();
    let second = host.bind("there:2").is_ok();
    let third = host.bind("yonder:3").is_ok();
    let [one, other] = host.listens() else {
        return Ok(false);
    };
    let same = one.slice() == "here:1".as_bytes() && other.slice() == "yonder:3".as_bytes();
    Ok(first && !second && third && same)
}

#[test]
fn a_host_notes_where_it_listens(rt: HostRuntime) -> Result<(), Fail> {
    assert!(rt; listens_twice(rt.alloc())?);
    Ok(())
}

/// One task more: it serves so many connections of the host, with numbers from this one on.
fn add(
    alloc: Global,
    host: &mut ListHost<BytesSource, BytesSink>,
    tasks: &mut Vec<Serving<ListHost<BytesSource, BytesSink>>>,
    connections: u32,
    next: u64,
) -> Result<(), NoMemory>
    requires sound { ⟦<ListHost<BytesSource, BytesSink> as Host>⟧.sound host.old }
    requires ready { AllByRecursion ⟦<Serving<ListHost<BytesSource, BytesSink>> as Task>⟧.ready tasks.old.items }
    ensures sound { ⟦<ListHost<BytesSource, BytesSink> as Host>⟧.sound host.new }
    ensures ready { OnOk result (AllByRecursion ⟦<Serving<ListHost<BytesSource, BytesSink>> as Task>⟧.ready tasks.new.items) }
{
    let part = host.split(alloc, connections)?;
    tasks.push(Serving::new(part, next))?;
    Ok(())
}

/// Tasks for two connections, for one and for none.
fn three_tasks(
    alloc: Global,
    host: &mut ListHost<BytesSource, BytesSink>,
) -> Result<Vec<Serving<ListHost<BytesSource, BytesSink>>>, NoMemory>
    requires { ⟦<ListHost<BytesSource, BytesSink> as Host>⟧.sound host.old }
    ensures sound { ⟦<ListHost<BytesSource, BytesSink> as Host>⟧.sound host.new }
    ensures ready { IfOk result (λ tasks. AllByRecursion ⟦<Serving<ListHost<BytesSource, BytesSink>> as Task>⟧.ready tasks.items) }
{
    let mut tasks = Vec::new(alloc);
    add(alloc, host, &mut tasks, 2, 7)?;
    add(alloc, host, &mut tasks, 1, 3)?;
    add(alloc, host, &mut tasks, 0, 5)?;
    Ok(tasks)
}

/// Behind these digits a 1 if the task was started and a 2 if it was not, how often it ran, and how often it was abandoned.
/// The host takes its part back.
fn take_back<H: Host>(digits: u64, host: &mut H, ran: Ran<Serving<H>>) -> u64
    requires { H.sound host.old }
    ensures { H.sound host.new }
{
    let (start, task) = match ran {
        Ran::Ended(task) => (1, task),
        Ran::NotStarted(task) => (2, task),
    };
    host.join(task.host);
    let digits = then(then(digits, start), u64::from(task.runs));
    then(digits, u64::from(task.abandons))
}

/// The same of each task.
fn take_back_all<H: Host>(host: &mut H, done: Vec<Ran<Serving<H>>>) -> u64
    requires { H.sound host.old }
{
    let mut digits = 0;
    for ran in done {
        digits = take_back(digits, host, ran);
    }
    digits
}

/// What becomes of three tasks of a host.
fn run<R: Threads>(
    alloc: Global,
    host: &mut ListHost<BytesSource, BytesSink>,
    spawner: &mut ListSpawner<R>,
) -> Result<u64, NoMemory>
    requires { ⟦<ListHost<BytesSource, BytesSink> as Host>⟧.sound host.old }
{
    let tasks = three_tasks(alloc, host)?;
    match spawner.run_all(alloc, tasks) {
        Ok(done) => Ok(take_back_all(host, done)),
        Err(_refused) => Err(NoMemory),
    }
}

/// Whether these are the sessions of the connections that came back, and the texts that they took.
fn served(
    alloc: Global,
    host: &ListHost<BytesSource, BytesSink>,
    wanted: &[(u64, &str)],
) -> Result<bool, NoMemory> {
    let served = host.served(alloc)?;
    let mut same = served.len() == wanted.len();
    for (ended, (session, text)) in served.iter().zip(wanted) {
        same = same && ended.session.0 == *session && ended.output.taken() == text.as_bytes();
    }
    Ok(same)
}

/// What becomes of three tasks of which those with these numbers are not started; 0 where other connections than these came
/// back.
fn trial<R: Threads>(
    _threads: &R,
    alloc: Global,
    fails: &[u64],
    wanted: &[(u64, &str)],
) -> Result<u64, NoMemory> {
    let mut spawner: ListSpawner<R> = ListSpawner::new(alloc, items(alloc, fails)?)?;
    let mut host = two_parts(alloc)?;
    let digits = run(alloc, &mut host, &mut spawner);
    match served(alloc, &host, wanted) {
        Ok(true) => digits,
        Ok(false) => Ok(0),
        Err(NoMemory) => Err(NoMemory),
    }
}

#[test]
fn a_host_hands_out_three_connections_in_two_parts(rt: HostRuntime) -> Result<(), Fail> {
    let wanted = [(7, "one"), (8, "two"), (3, "three")];
    assert_eq!(rt; trial(&rt, rt.alloc(), &[], &wanted)?, 110_110_110);
    Ok(())
}

#[test]
fn a_task_that_is_not_started_is_abandoned(rt: HostRuntime) -> Result<(), Fail> {
    let wanted = [(7, "one"), (8, "two")];
    assert_eq!(rt; trial(&rt, rt.alloc(), &[2], &wanted)?, 110_201_110);
    Ok(())
}

/// Two tasks that serve five connections of a host, and the clients that make them.
fn tasks_over<
    R: Net<Listener = TcpListener, Stream = TcpStream> + Eprint + time::Clock + Copy + Drop,
>(
    rt: R,
    alloc: Global,
    host: &mut RealHost<R>,
    address: SocketAddr,
) -> Result<Vec<OneOf<Serving<RealHost<R>>, Clients<R>>>, NoMemory>
    ensures { IfOk result (λ tasks. AllByRecursion ⟦<OneOf<Serving<RealHost<R>>, Clients<R>> as Task>⟧.ready tasks.items) }
{
    let first = host.split(alloc, 3)?;
    let second = host.split(alloc, 2)?;
    let mut tasks = Vec::new(alloc);
    tasks.push(OneOf::First(Serving::new(first, 1)))?;
    tasks.push(OneOf::First(Serving::new(second, 2)))?;
    tasks.push(OneOf::Second(Clients {
        net: rt,
        address,
        answered: 0,
    }))?;
    Ok(tasks)
}

/// Ten for a task that served, whose part the host takes back; for the clients how many of them were answered; and for a
/// task that was not started a thousand.
fn points<R: Net<Listener = TcpListener, Stream = TcpStream> + Eprint + time::Clock + Copy + Drop>(
    host: &mut RealHost<R>,
    ran: Ran<OneOf<Serving<RealHost<R>>, Clients<R>>>,
) -> u32 {
    match ran {
        Ran::Ended(OneOf::First(task)) => {
            host.join(task.host);
            10
        }
        Ran::Ended(OneOf::Second(clients)) => clients.answered,
        Ran::NotStarted(_) => 1_000,
    }
}

/// The points of the tasks over a host that listens at this address.
fn points_at<
    R: Net<Listener = TcpListener, Stream = TcpStream>
        + Threads
        + Eprint
        + time::Clock
        + Copy
        + Drop
        + Send,
>(rt: R, alloc: Global, host: &mut RealHost<R>, address: SocketAddr) -> Result<u32, NoMemory> {
    let tasks = tasks_over(rt, alloc, host, address)?;
    let Ok(done) = RealSpawner::new(rt).run_all(alloc, tasks) else {
        return Err(NoMemory);
    };
    let mut sum: u32 = 0;
    for ran in done {
        sum = sum.saturating_add(points(host, ran));
    }
    Ok(sum)
}

/// A free port of this machine, at which the host listens from now on.
fn listen<R: Net<Listener = TcpListener, Stream = TcpStream> + Eprint + time::Clock + Copy + Drop>(
    host: &mut RealHost<R>,
) -> Option<SocketAddr> {
    host.bind("127.0.0.1:0").ok()?;
    host.local_addr()
}

#[test]
fn five_clients_are_served_by_two_parts_of_a_listener(rt: HostRuntime) -> Result<(), Fail> {
    let mut host = RealHost::new(rt.alloc(), &rt);
    let sum = match listen(&mut host) {
        Some(address) => points_at(&rt, rt.alloc(), &mut host, address),
        None => Ok(0),
    };
    assert_eq!(rt; sum.unwrap_or(0), 25);
    Ok(())
}

/// Whether a host can't listen at this address.
fn is_refused<
    R: Net<Listener = TcpListener, Stream = TcpStream> + Eprint + time::Clock + Copy + Drop,
>(rt: R, alloc: Global, address: SocketAddr) -> Result<bool, NoMemory> {
    let taken = format!(in alloc; "{address}")?;
    let mut other = RealHost::new(alloc, rt);
    Ok(other.bind(&taken).is_err())
}

#[test]
fn a_taken_address_is_a_fault(rt: HostRuntime) -> Result<(), Fail> {
    let mut host = RealHost::new(rt.alloc(), &rt);
    let refused = match listen(&mut host) {
        Some(address) => is_refused(&rt, rt.alloc(), address),
        None => Ok(false),
    };
    assert!(rt; refused.unwrap_or(false));
    Ok(())
}

/// Whether an accept of a part of this host fails.
fn fails_to_accept<
    R: Net<Listener = TcpListener, Stream = TcpStream> + Eprint + time::Clock + Copy + Drop,
>(alloc: Global, host: &mut RealHost<R>) -> Result<bool, NoMemory> {
    let mut part = host.split(alloc, 1)?;
    Ok(matches!(part.accept(), Accepted::Failed))
}

#[test]
fn a_host_that_listens_nowhere_accepts_nothing(rt: HostRuntime) -> Result<(), Fail> {
    let mut host = RealHost::new(rt.alloc(), &rt);
    let refused = host.bind("no address").is_err() && host.local_addr().is_none();
    let failed = fails_to_accept(rt.alloc(), &mut host);
    assert!(rt; refused && failed.unwrap_or(false));
    Ok(())
}
