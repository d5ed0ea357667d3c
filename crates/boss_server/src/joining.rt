ghost use Rattle.std.specs.Prelude.{◌≡◌, ℕ, ◌+◌, ◌-◌, ◌^◌, ◌<◌, ◌≤◌, ◌∷◌, ◌++◌, min, List, [], Bool, length, insert, vec_len, vec_capacity, option_copied};
ghost use Rattle.boss_outside.specs.Counts.{Joins};
ghost use Rattle.boss_lock.specs.Places.{IsLonger};
ghost use Rattle.def_lanes.specs.Parts.{Joined};
ghost use Rattle.boss_worker.specs.Desks.{own_of};
ghost use Rattle.boss_worker.specs.Saying.{terms_of};
ghost use Rattle.boss_worker.specs.Workers.{faults_at, handed_at, served_at, share_at, was_at, HasLeft};
ghost use Rattle.boss_server.specs.Accounts.{Account};
ghost use Rattle.boss_server.specs.Hosted.{hosted_at, RoseBy};
ghost use Rattle.boss_server.specs.Places.{put_back, FitsAmong};
ghost use Rattle.boss_server.specs.References.{KeepsReferences};
ghost use Rattle.boss_server.specs.Turns.{devices_in, is_any_unrun, shares_in, EachInTurn, IsWorkerOf};

use crate::Outside;
use boss_outside::Actuators;
use boss_outside_server::{Clock, Host, Ran, Waiter};
use boss_shared::Desk;
use boss_worker::{Duty, Flags, Server, Worker};

/// Puts an item at a place, for which there is room.
fn insert_in_room<T: Drop>(items: &mut Vec<T>, place: usize, item: T)
    requires within { place ≤ vec_len items.old }
    requires room { vec_len items.old < vec_capacity items.old }
    ensures items { items.new.items ≡ insert items.old.items place item }
    ensures room { vec_capacity items.old ≤ vec_capacity items.new }
{
    let inserted = items.insert(place, item);
    let Ok(()) = inserted else { unreachable!() };
}

/// Takes back what a worker's duty has: its part of the host, or the devices of its driver, which have their place by its number.
fn join_duty<H: Host, A: Actuators + Drop>(host: &mut H, devices: &mut Vec<A>, duty: Duty<H, A>)
    requires sound { H.sound host.old }
    requires place { FitsAmong (length devices.old.items) duty }
    requires room { vec_len devices.old + length (was_at duty) ≤ vec_capacity devices.old }
    ensures devices { devices.new.items ≡ put_back duty devices.old.items }
    ensures room { vec_capacity devices.old ≤ vec_capacity devices.new }
    ensures sound { H.sound host.new }
    ensures served { H.tells → H.served host.new ≡ H.served host.old ++ served_at H.Host duty }
    ensures listens { H.tells → H.listens host.new ≡ H.listens host.old }
    ensures count { Joins (H.faults host.old) (faults_at H.Host duty) (H.faults host.new) }
    ensures handed { RoseBy (handed_at H.Host duty) (H.handed host.old) (H.handed host.new) }
{
    match duty {
        Duty::Connections(part) => host.join(part),
        Duty::Time => {}
        Duty::Devices(driver, device, _) => {
            insert_in_room(devices, usize::from(driver.0), device);
        }
    }
}

/// Takes a worker's parts back, and gives what went wrong at it.
pub(crate) fn join_one<'a, G: Desk, H: Host, C: Clock, W: Waiter, A: Actuators + Drop, P>(
    desk: &G,
    pass: &mut G::Pass,
    outside: &mut Outside<'_, H, C, W, A, P>,
    worker: Worker<'a, G, H, C, W, A>,
) -> Flags
    requires own { G.owns desk.now pass.old × G.owns desk.now worker.pass }
    requires sound { H.sound outside.old.host.now }
    requires place { FitsAmong (length outside.old.devices.now.items) worker.duty }
    requires room { vec_len outside.old.devices.now + length (was_at worker.duty) ≤ vec_capacity outside.old.devices.now }
    ensures references { KeepsReferences outside.old outside.new }
    ensures own { G.owns desk.now pass.new }
    ensures parts { G.parts pass.new ≡ G.parts pass.old + G.parts worker.entry.pass }
    ensures seen { IsLonger (G.seen pass.old) (G.seen worker.entry.pass) (G.seen pass.new) }
    ensures joined { Joined (own_of G.Desk pass.old) (own_of G.Desk worker.entry.pass) (own_of G.Desk pass.new) }
    ensures nothing { own_of G.Desk pass.old ≡ [] → own_of G.Desk worker.entry.pass ≡ [] → own_of G.Desk pass.new ≡ [] }
    ensures sound { H.sound outside.new.host.now }
    ensures served { H.tells → H.served outside.new.host.now ≡ H.served outside.old.host.now ++ served_at H.Host worker.entry.duty }
    ensures listens { H.tells → H.listens outside.new.host.now ≡ H.listens outside.old.host.now }
    ensures hosted { Joins (H.faults outside.old.host.now) (faults_at H.Host worker.entry.duty) (H.faults outside.new.host.now) }
    ensures handed { RoseBy (handed_at H.Host worker.entry.duty) (H.handed outside.old.host.now) (H.handed outside.new.host.now) }
    ensures given { C.tells → C.given outside.new.clock.now ≡ C.given outside.old.clock.now ++ C.given worker.entry.clock }
    ensures ticked { Joins (C.faults outside.old.clock.now) (C.faults worker.entry.clock) (C.faults outside.new.clock.now) }
    ensures ticks { min (C.faults outside.old.clock.now + C.faults worker.entry.clock) (2 ^ 64 - 1) ≤ C.faults outside.new.clock.now }
    ensures waited { W.tells → W.waits outside.new.waiter.now ≡ W.waits outside.old.waiter.now ++ W.waited worker.entry.waiter ∷ [] }
    ensures spawner { outside.new.spawner.now ≡ outside.old.spawner.now }
    ensures devices { outside.new.devices.now.items ≡ put_back worker.entry.duty outside.old.devices.now.items }
    ensures room { vec_capacity outside.old.devices.now ≤ vec_capacity outside.new.devices.now }
    ensures flags { result ≡ worker.entry.flags }
{
    let Worker {
        pass: own_pass,
        duty,
        clock: own_clock,
        waiter: own_waiter,
        flags,
        ..
    } = worker;
    desk.join(pass, own_pass);
    join_duty(outside.host, outside.devices, duty);
    outside.clock.join(own_clock);
    outside.waiter.join(own_waiter);
    flags
}

/// The worker, and whether it ran.
fn worker_of<T>(ran: Ran<T>) -> (T, bool)
    ensures { IsWorkerOf ran result.0 result.1 }
{
    match ran {
        Ran::Ended(worker) => (worker, true),
        Ran::NotStarted(worker) => (worker, false),
    }
}

/// Takes the parts of all workers back, in their order. Gives what went wrong at them, and whether one of them did not run.
pub(crate) fn join_all<'a, G: Desk, H: Host, C: Clock, W: Waiter, A: Actuators + Drop, P>(
    server: &Server<'_, G>,
    pass: &mut G::Pass,
    outside: &mut Outside<'_, H, C, W, A, P>,
    done: Vec<Ran<Worker<'a, G, H, C, W, A>>>,
) -> (Flags, bool)
    requires own { G.owns server.now.desk pass.old }
    requires empty { own_of G.Desk pass.old ≡ [] }
    requires sound { H.sound outside.old.host.now }
    requires left { EachInTurn done.items 0 (λ ran number worker. (worker.server.now ≡ server.now) × (worker.number ≡ number)
        × HasLeft G.Desk H.Host C.Clock W.Waiter A.Actuators ran (terms_of server.now.catalogue.now (G.denies server.now.desk) (option_copied server.now.keys) server.now.workers H.In.tells H.Out.tells H.tells C.tells W.tells)
        server.now.desk number worker.pass worker.duty worker.clock worker.waiter worker.flags) }
    requires room { vec_len outside.old.devices.now + length (devices_in done.items (λ worker. was_at worker.duty)) ≤ vec_capacity outside.old.devices.now }
    ensures references { KeepsReferences outside.old outside.new }
    ensures own { G.owns server.now.desk pass.new }
    ensures parts { G.parts pass.new ≡ G.parts pass.old + length done.entry.items }
    ensures sound { H.sound outside.new.host.now }
    ensures listens { H.tells → H.listens outside.new.host.now ≡ H.listens outside.old.host.now }
    ensures spawner { outside.new.spawner.now ≡ outside.old.spawner.now }
    ensures account { Account A.calls (λ device. A.tells × A.whole device) (terms_of server.now.catalogue.now (G.denies server.now.desk) (option_copied server.now.keys) server.now.workers H.In.tells H.Out.tells H.tells C.tells W.tells) W.tells
        (length done.entry.items) (shares_in done.entry.items (λ worker. share_at H.Host worker.duty)) (own_of G.Desk pass.new) (G.seen pass.new)
        (H.served outside.old.host.now) (H.served outside.new.host.now) (C.given outside.old.clock.now) (C.given outside.new.clock.now)
        (hosted_at H.Host outside.old.host.now) (hosted_at H.Host outside.new.host.now) (C.faults outside.old.clock.now) (C.faults outside.new.clock.now)
        (W.waits outside.old.waiter.now) (W.waits outside.new.waiter.now)
        (devices_in done.entry.items (λ worker. was_at worker.duty)) outside.old.devices.now.items outside.new.devices.now.items result.0 result.1 }
    ensures unrun { result.1 ≡ is_any_unrun done.entry.items }
{
    let mut flags = Flags::none();
    let mut unrun = false;
    for ran in done {
        let (worker, has_run) = worker_of(ran);
        flags = flags.with(join_one(&server.desk, pass, outside, worker));
        unrun |= !has_run;
    }
    (flags, unrun)
}
