ghost use Rattle.std.specs.Prelude.{◌≡◌, ℕ, ◌+◌, ◌<◌, ◌≤◌, ◌∷◌, ◌++◌, [], length, vec_len, vec_capacity, IfOk, OnOk};
ghost use Rattle.boss_model.specs.Limits.{most_workers};
ghost use Rattle.boss_model.specs.Catalogue.{actuators};
ghost use Rattle.boss_worker.specs.Desks.{own_of};
ghost use Rattle.boss_worker.specs.Workers.{share_at, was_at, IsReady};
ghost use Rattle.boss_server.specs.Making.{StaysClock, StaysHost, StaysWaiter};
ghost use Rattle.boss_server.specs.References.{KeepsReferences};
ghost use Rattle.boss_server.specs.Turns.{devices_of, shares_of, AllInTurn};

use crate::Outside;
use crate::parts::{all_three, clock_and_waiter};
use crate::shares::share_for;
use boss_model::{DriverId, NoMemory};
use boss_outside::Actuators;
use boss_outside_server::{Clock, Host, Waiter};
use boss_shared::Desk;
use boss_worker::{Duty, Flags, Server, Worker};
use std::alloc::Global;
use std::snapshot::Snapshot;

/// Puts an item at the end, for which there is room.
fn push_in_room<T: Drop>(items: &mut Vec<T>, item: T)
    requires { vec_len items.old < vec_capacity items.old }
    ensures items { items.new.items ≡ items.old.items ++ item ∷ [] }
    ensures room { vec_capacity items.old ≤ vec_capacity items.new }
{
    let pushed = items.push(item);
    let Ok(()) = pushed else { unreachable!() };
}

/// Makes the next worker for connections, which has so many to serve, and puts it at the end, where there is room for it.
fn make_next<'a, G: Desk, H: Host, C: Clock, W: Waiter, A: Actuators + Drop, P>(
    alloc: Global,
    server: &'a Server<'a, G>,
    pass: &mut G::Pass,
    outside: &mut Outside<'_, H, C, W, A, P>,
    number: u32,
    connections: u32,
    made: &mut Vec<Worker<'a, G, H, C, W, A>>,
) -> Result<(), NoMemory>
    requires own { G.owns server.now.desk pass.old }
    requires parts { 2 ≤ G.parts pass.old }
    requires told { W.tells → (W.waited outside.old.waiter.now).expected ≡ server.now.workers }
    requires plant { actuators server.now.catalogue.now ≡ G.plant server.now.desk }
    requires sound { H.sound outside.old.host.now }
    requires number { number < server.now.workers }
    requires few { server.now.workers ≤ most_workers }
    requires room { vec_len made.old < vec_capacity made.old }
    requires next { number ≡ length made.old.items }
    requires ready { AllInTurn made.old.items 0 (λ number worker. (worker.server.now ≡ server.now) × (worker.number ≡ number)
        × IsReady G.Desk H.Host C.Clock W.Waiter A.Actuators server.now.catalogue.now server.now.desk server.now.workers
        number worker.pass worker.duty worker.clock worker.waiter worker.flags) }
    ensures references { KeepsReferences outside.old outside.new }
    ensures own { G.owns server.now.desk pass.new }
    ensures parts { G.parts pass.new + length made.new.items ≡ G.parts pass.old + length made.old.items }
    ensures pass { (G.seen pass.new ≡ G.seen pass.old) × (G.mine pass.new ≡ G.mine pass.old) }
    ensures sound { H.sound outside.new.host.now }
    ensures host { StaysHost H.Host outside.old.host.now outside.new.host.now }
    ensures clock { StaysClock C.Clock outside.old.clock.now outside.new.clock.now }
    ensures waiter { StaysWaiter W.Waiter outside.old.waiter.now outside.new.waiter.now }
    ensures rest { (outside.new.devices.now ≡ outside.old.devices.now) × (outside.new.spawner.now ≡ outside.old.spawner.now) }
    ensures room { vec_capacity made.old ≤ vec_capacity made.new }
    ensures ready { AllInTurn made.new.items 0 (λ number worker. (worker.server.now ≡ server.now) × (worker.number ≡ number)
        × IsReady G.Desk H.Host C.Clock W.Waiter A.Actuators server.now.catalogue.now server.now.desk server.now.workers
        number worker.pass worker.duty worker.clock worker.waiter worker.flags) }
    ensures one { OnOk result (length made.new.items ≡ length made.old.items + 1) }
    ensures share { OnOk result (shares_of made.new.items (λ worker. share_at H.Host worker.duty)
        ≡ shares_of made.old.items (λ worker. share_at H.Host worker.duty) + connections) }
    ensures devices { devices_of made.new.items (λ worker. was_at worker.duty) ≡ devices_of made.old.items (λ worker. was_at worker.duty) }
    ensures within { length made.new.items ≤ length made.old.items + 1 }
{
    let (part, own_clock, own_waiter) = all_three(
        alloc,
        outside.host,
        outside.clock,
        outside.waiter,
        connections,
    )?;
    let own_pass = server.desk.split(pass);
    push_in_room(
        made,
        Worker {
            alloc,
            server,
            number,
            pass: own_pass,
            duty: Duty::Connections(part),
            clock: own_clock,
            waiter: own_waiter,
            flags: Flags::none(),
        },
    );
    Ok(())
}

/// Makes the workers that serve connections, among which these are shared out. There is room for them. Without memory there may
/// be fewer.
fn make_connections<'a, G: Desk, H: Host, C: Clock, W: Waiter, A: Actuators + Drop, P>(
    alloc: Global,
    server: &'a Server<'a, G>,
    pass: &mut G::Pass,
    outside: &mut Outside<'_, H, C, W, A, P>,
    connections: u32,
    made: &mut Vec<Worker<'a, G, H, C, W, A>>,
) -> Result<(), NoMemory>
    requires own { G.owns server.now.desk pass.old }
    requires parts { server.now.workers + 1 ≤ G.parts pass.old }
    requires told { W.tells → (W.waited outside.old.waiter.now).expected ≡ server.now.workers }
    requires plant { actuators server.now.catalogue.now ≡ G.plant server.now.desk }
    requires sound { H.sound outside.old.host.now }
    requires some { 1 ≤ server.now.workers }
    requires few { server.now.workers ≤ most_workers }
    requires none { made.old.items ≡ [] }
    requires room { server.now.workers ≤ vec_capacity made.old }
    ensures references { KeepsReferences outside.old outside.new }
    ensures own { G.owns server.now.desk pass.new }
    ensures parts { G.parts pass.new + length made.new.items ≡ G.parts pass.old }
    ensures pass { (G.seen pass.new ≡ G.seen pass.old) × (G.mine pass.new ≡ G.mine pass.old) }
    ensures sound { H.sound outside.new.host.now }
    ensures host { StaysHost H.Host outside.old.host.now outside.new.host.now }
    ensures clock { StaysClock C.Clock outside.old.clock.now outside.new.clock.now }
    ensures waiter { StaysWaiter W.Waiter outside.old.waiter.now outside.new.waiter.now }
    ensures rest { (outside.new.devices.now ≡ outside.old.devices.now) × (outside.new.spawner.now ≡ outside.old.spawner.now) }
    ensures ready { AllInTurn made.new.items 0 (λ number worker. (worker.server.now ≡ server.now) × (worker.number ≡ number)
        × IsReady G.Desk H.Host C.Clock W.Waiter A.Actuators server.now.catalogue.now server.now.desk server.now.workers
        number worker.pass worker.duty worker.clock worker.waiter worker.flags) }
    ensures room { vec_capacity made.old ≤ vec_capacity made.new }
    ensures count { OnOk result (length made.new.items ≡ server.now.workers) }
    ensures share { OnOk result (shares_of made.new.items (λ worker. share_at H.Host worker.duty) ≡ connections) }
    ensures devices { devices_of made.new.items (λ worker. was_at worker.duty) ≡ [] }
{
    for number in 0..server.workers {
        let share = share_for(connections, server.workers, number);
        make_next(alloc, server, pass, outside, number, share, made)?;
    }
    Ok(())
}

/// Makes the worker that lets time pass, and puts it behind those that serve connections, where there is room for it.
fn make_time<'a, G: Desk, H: Host, C: Clock, W: Waiter, A: Actuators + Drop>(
    alloc: Global,
    server: &'a Server<'a, G>,
    pass: &mut G::Pass,
    clock: &mut C,
    waiter: &mut W,
    made: &mut Vec<Worker<'a, G, H, C, W, A>>,
) -> Result<(), NoMemory>
    requires own { G.owns server.now.desk pass.old }
    requires parts { 2 ≤ G.parts pass.old }
    requires told { W.tells → (W.waited waiter.old).expected ≡ server.now.workers }
    requires plant { actuators server.now.catalogue.now ≡ G.plant server.now.desk }
    requires few { server.now.workers ≤ most_workers }
    requires next { length made.old.items ≡ server.now.workers }
    requires room { vec_len made.old < vec_capacity made.old }
    requires ready { AllInTurn made.old.items 0 (λ number worker. (worker.server.now ≡ server.now) × (worker.number ≡ number)
        × IsReady G.Desk H.Host C.Clock W.Waiter A.Actuators server.now.catalogue.now server.now.desk server.now.workers
        number worker.pass worker.duty worker.clock worker.waiter worker.flags) }
    ensures own { G.owns server.now.desk pass.new }
    ensures parts { G.parts pass.new + length made.new.items ≡ G.parts pass.old + length made.old.items }
    ensures pass { (G.seen pass.new ≡ G.seen pass.old) × (G.mine pass.new ≡ G.mine pass.old) }
    ensures clock { StaysClock C.Clock clock.old clock.new }
    ensures waiter { StaysWaiter W.Waiter waiter.old waiter.new }
    ensures ready { AllInTurn made.new.items 0 (λ number worker. (worker.server.now ≡ server.now) × (worker.number ≡ number)
        × IsReady G.Desk H.Host C.Clock W.Waiter A.Actuators server.now.catalogue.now server.now.desk server.now.workers
        number worker.pass worker.duty worker.clock worker.waiter worker.flags) }
    ensures count { OnOk result (length made.new.items ≡ server.now.workers + 1) }
    ensures share { shares_of made.new.items (λ worker. share_at H.Host worker.duty) ≡ shares_of made.old.items (λ worker. share_at H.Host worker.duty) }
    ensures devices { devices_of made.new.items (λ worker. was_at worker.duty) ≡ devices_of made.old.items (λ worker. was_at worker.duty) }
    ensures room { vec_capacity made.old ≤ vec_capacity made.new }
{
    let (own_clock, own_waiter) = clock_and_waiter(alloc, clock, waiter)?;
    let own_pass = server.desk.split(pass);
    push_in_room(
        made,
        Worker {
            alloc,
            server,
            number: server.workers,
            pass: own_pass,
            duty: Duty::Time,
            clock: own_clock,
            waiter: own_waiter,
            flags: Flags::none(),
        },
    );
    Ok(())
}

/// Makes the worker of the driver whose device is the next one, which is taken out, and puts it behind the others, where there is
/// room for it. Without memory the device stays.
fn make_drive<'a, G: Desk, H: Host, C: Clock, W: Waiter, A: Actuators + Drop, P>(
    alloc: Global,
    server: &'a Server<'a, G>,
    pass: &mut G::Pass,
    outside: &mut Outside<'_, H, C, W, A, P>,
    driver: u16,
    made: &mut Vec<Worker<'a, G, H, C, W, A>>,
) -> Result<(), NoMemory>
    requires own { G.owns server.now.desk pass.old }
    requires parts { 2 ≤ G.parts pass.old }
    requires told { W.tells → (W.waited outside.old.waiter.now).expected ≡ server.now.workers }
    requires plant { actuators server.now.catalogue.now ≡ G.plant server.now.desk }
    requires few { server.now.workers ≤ most_workers }
    requires some { 0 < vec_len outside.old.devices.now }
    requires next { length made.old.items ≡ server.now.workers + 1 + driver }
    requires room { vec_len made.old < vec_capacity made.old }
    requires ready { AllInTurn made.old.items 0 (λ number worker. (worker.server.now ≡ server.now) × (worker.number ≡ number)
        × IsReady G.Desk H.Host C.Clock W.Waiter A.Actuators server.now.catalogue.now server.now.desk server.now.workers
        number worker.pass worker.duty worker.clock worker.waiter worker.flags) }
    ensures references { KeepsReferences outside.old outside.new }
    ensures own { G.owns server.now.desk pass.new }
    ensures parts { G.parts pass.new + length made.new.items ≡ G.parts pass.old + length made.old.items }
    ensures pass { (G.seen pass.new ≡ G.seen pass.old) × (G.mine pass.new ≡ G.mine pass.old) }
    ensures clock { StaysClock C.Clock outside.old.clock.now outside.new.clock.now }
    ensures waiter { StaysWaiter W.Waiter outside.old.waiter.now outside.new.waiter.now }
    ensures rest { (outside.new.host.now ≡ outside.old.host.now) × (outside.new.spawner.now ≡ outside.old.spawner.now) }
    ensures ready { AllInTurn made.new.items 0 (λ number worker. (worker.server.now ≡ server.now) × (worker.number ≡ number)
        × IsReady G.Desk H.Host C.Clock W.Waiter A.Actuators server.now.catalogue.now server.now.desk server.now.workers
        number worker.pass worker.duty worker.clock worker.waiter worker.flags) }
    ensures share { shares_of made.new.items (λ worker. share_at H.Host worker.duty) ≡ shares_of made.old.items (λ worker. share_at H.Host worker.duty) }
    ensures devices { devices_of made.new.items (λ worker. was_at worker.duty) ++ outside.new.devices.now.items
        ≡ devices_of made.old.items (λ worker. was_at worker.duty) ++ outside.old.devices.now.items }
    ensures devices_room { vec_capacity outside.new.devices.now ≡ vec_capacity outside.old.devices.now }
    ensures room { vec_capacity made.old ≤ vec_capacity made.new }
    ensures count { OnOk result (length made.new.items ≡ length made.old.items + 1) }
    ensures taken { OnOk result (vec_len outside.new.devices.now + 1 ≡ vec_len outside.old.devices.now) }
{
    let (own_clock, own_waiter) = clock_and_waiter(alloc, outside.clock, outside.waiter)?;
    let own_pass = server.desk.split(pass);
    let device = outside.devices.remove(0);
    let was = Snapshot::of(&device);
    push_in_room(
        made,
        Worker {
            alloc,
            server,
            number: server.workers + 1 + u32::from(driver),
            pass: own_pass,
            duty: Duty::Devices(DriverId(driver), device, was),
            clock: own_clock,
            waiter: own_waiter,
            flags: Flags::none(),
        },
    );
    Ok(())
}

/// Makes the workers of the drivers from the first one on, whose devices are taken out, and puts them behind the others, where there is
/// room for them. Without memory there may be fewer, and the devices of the others stay.
fn make_drives<'a, G: Desk, H: Host, C: Clock, W: Waiter, A: Actuators + Drop, P>(
    alloc: Global,
    server: &'a Server<'a, G>,
    pass: &mut G::Pass,
    outside: &mut Outside<'_, H, C, W, A, P>,
    drives: u16,
    made: &mut Vec<Worker<'a, G, H, C, W, A>>,
) -> Result<(), NoMemory>
    requires own { G.owns server.now.desk pass.old }
    requires parts { drives + 1 ≤ G.parts pass.old }
    requires told { W.tells → (W.waited outside.old.waiter.now).expected ≡ server.now.workers }
    requires plant { actuators server.now.catalogue.now ≡ G.plant server.now.desk }
    requires few { server.now.workers ≤ most_workers }
    requires some { drives ≤ vec_len outside.old.devices.now }
    requires next { length made.old.items ≡ server.now.workers + 1 }
    requires room { vec_len made.old + drives ≤ vec_capacity made.old }
    requires ready { AllInTurn made.old.items 0 (λ number worker. (worker.server.now ≡ server.now) × (worker.number ≡ number)
        × IsReady G.Desk H.Host C.Clock W.Waiter A.Actuators server.now.catalogue.now server.now.desk server.now.workers
        number worker.pass worker.duty worker.clock worker.waiter worker.flags) }
    ensures references { KeepsReferences outside.old outside.new }
    ensures own { G.owns server.now.desk pass.new }
    ensures parts { G.parts pass.new + length made.new.items ≡ G.parts pass.old + length made.old.items }
    ensures pass { (G.seen pass.new ≡ G.seen pass.old) × (G.mine pass.new ≡ G.mine pass.old) }
    ensures clock { StaysClock C.Clock outside.old.clock.now outside.new.clock.now }
    ensures waiter { StaysWaiter W.Waiter outside.old.waiter.now outside.new.waiter.now }
    ensures rest { (outside.new.host.now ≡ outside.old.host.now) × (outside.new.spawner.now ≡ outside.old.spawner.now) }
    ensures ready { AllInTurn made.new.items 0 (λ number worker. (worker.server.now ≡ server.now) × (worker.number ≡ number)
        × IsReady G.Desk H.Host C.Clock W.Waiter A.Actuators server.now.catalogue.now server.now.desk server.now.workers
        number worker.pass worker.duty worker.clock worker.waiter worker.flags) }
    ensures share { shares_of made.new.items (λ worker. share_at H.Host worker.duty) ≡ shares_of made.old.items (λ worker. share_at H.Host worker.duty) }
    ensures devices { devices_of made.new.items (λ worker. was_at worker.duty) ++ outside.new.devices.now.items
        ≡ devices_of made.old.items (λ worker. was_at worker.duty) ++ outside.old.devices.now.items }
    ensures devices_room { vec_capacity outside.new.devices.now ≡ vec_capacity outside.old.devices.now }
    ensures count { OnOk result (length made.new.items ≡ length made.old.items + drives) }
    ensures taken { OnOk result (vec_len outside.new.devices.now + drives ≡ vec_len outside.old.devices.now) }
{
    for driver in 0..drives {
        make_drive(alloc, server, pass, outside, driver, made)?;
    }
    Ok(())
}

/// Makes all workers: those that serve connections, which are shared out among them, the one that lets time pass, and one for each
/// of so many drivers, whose devices are taken out. There is room for them. Without memory there may be fewer.
pub(crate) fn make_all<'a, G: Desk, H: Host, C: Clock, W: Waiter, A: Actuators + Drop, P>(
    alloc: Global,
    server: &'a Server<'a, G>,
    pass: &mut G::Pass,
    outside: &mut Outside<'_, H, C, W, A, P>,
    connections: u32,
    drives: u16,
    made: &mut Vec<Worker<'a, G, H, C, W, A>>,
) -> Result<(), NoMemory>
    requires own { G.owns server.now.desk pass.old }
    requires parts { server.now.workers + 2 + drives ≤ G.parts pass.old }
    requires told { W.tells → (W.waited outside.old.waiter.now).expected ≡ server.now.workers }
    requires plant { actuators server.now.catalogue.now ≡ G.plant server.now.desk }
    requires sound { H.sound outside.old.host.now }
    requires some { 1 ≤ server.now.workers }
    requires few { server.now.workers ≤ most_workers }
    requires device { drives ≤ vec_len outside.old.devices.now }
    requires none { made.old.items ≡ [] }
    requires room { server.now.workers + 1 + drives ≤ vec_capacity made.old }
    ensures references { KeepsReferences outside.old outside.new }
    ensures own { G.owns server.now.desk pass.new }
    ensures parts { G.parts pass.new + length made.new.items ≡ G.parts pass.old }
    ensures pass { (G.seen pass.new ≡ G.seen pass.old) × (G.mine pass.new ≡ G.mine pass.old) }
    ensures sound { H.sound outside.new.host.now }
    ensures host { StaysHost H.Host outside.old.host.now outside.new.host.now }
    ensures clock { StaysClock C.Clock outside.old.clock.now outside.new.clock.now }
    ensures waiter { StaysWaiter W.Waiter outside.old.waiter.now outside.new.waiter.now }
    ensures spawner { outside.new.spawner.now ≡ outside.old.spawner.now }
    ensures ready { AllInTurn made.new.items 0 (λ number worker. (worker.server.now ≡ server.now) × (worker.number ≡ number)
        × IsReady G.Desk H.Host C.Clock W.Waiter A.Actuators server.now.catalogue.now server.now.desk server.now.workers
        number worker.pass worker.duty worker.clock worker.waiter worker.flags) }
    ensures devices { devices_of made.new.items (λ worker. was_at worker.duty) ++ outside.new.devices.now.items ≡ outside.old.devices.now.items }
    ensures devices_room { vec_capacity outside.new.devices.now ≡ vec_capacity outside.old.devices.now }
    ensures count { OnOk result (length made.new.items ≡ server.now.workers + 1 + drives) }
    ensures taken { OnOk result (vec_len outside.new.devices.now + drives ≡ vec_len outside.old.devices.now) }
    ensures share { OnOk result (shares_of made.new.items (λ worker. share_at H.Host worker.duty) ≡ connections) }
{
    make_connections(alloc, server, pass, outside, connections, made)?;
    make_time(alloc, server, pass, outside.clock, outside.waiter, made)?;
    make_drives(alloc, server, pass, outside, drives, made)
}
