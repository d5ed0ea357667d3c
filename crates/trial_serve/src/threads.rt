//! A server whose workers run in threads of their own.

ghost use Rattle.std.specs.Prelude.{◌≤◌};

use crate::clocks::list_clock;
use crate::texts::tell_end;
use boss_adapters::{Door, RealClock, RealSpawner, RealWaiter};
use boss_manager::{Service, Site, Status, Surroundings, serve_in_memory};
use boss_model::Items;
use boss_outside::{BytesSink, SimActuators};
use boss_outside_server::{Host, ListClock};
use boss_points::Catalogue;
use std::alloc::Global;
use std::io::Eprint;
use std::process::Abort;
use std::sync::{Arc, Wait};
use std::thread::Threads;
use std::time;

/// Serves connections of a host, without a device. Where there is a door, whoever pauses looks at it.
fn serve<
    R: Abort + Threads + Wait + time::Clock + Eprint + Copy + Drop + Send + Sync,
    H: Host + Send,
>(
    rt: R,
    alloc: Global,
    catalogue: &Catalogue,
    service: Service<'_>,
    door: Option<Arc<Door, Global>>,
    host: &mut H,
    sink: &mut BytesSink,
    clock: &mut ListClock,
) -> Status
where
    H::In: Send,
    H::Out: Send,
    requires sound { H.sound host.old }
    requires some { 1 ≤ service.workers }
    requires few { service.workers ≤ 32 }
    ensures sound { H.sound host.new }
{
    let mut devices: Vec<SimActuators> = Vec::new(alloc);
    let mut spawner = RealSpawner::new(rt);
    let mut real = RealClock::new(alloc, rt).expect(&rt, "memory");
    let mut waiter = RealWaiter::new(alloc, rt, &mut real).expect(&rt, "memory");
    if let Some(door) = door {
        waiter.watch(door);
    }
    let surroundings = Surroundings {
        sink,
        devices: &mut devices,
        clock,
        host,
        waiter: &mut waiter,
        spawner: &mut spawner,
    };
    let site = Site {
        catalogue,
        rules: None,
        keys: None,
        reserve: 0,
    };
    serve_in_memory(rt, alloc, site, service, surroundings)
}

/// Serves so many connections of a host by so many workers in threads of their own, always at the moment 1,000, and tells how that ended. Where
/// there is a door, whoever pauses looks at it.
pub fn serve_in_threads<
    R: Abort + Threads + Wait + time::Clock + Eprint + Copy + Drop + Send + Sync,
    H: Host + Send,
>(
    rt: R,
    alloc: Global,
    catalogue: &Catalogue,
    workers: u32,
    connections: u32,
    door: Option<Arc<Door, Global>>,
    host: &mut H,
    text: &mut String,
)
where
    H::In: Send,
    H::Out: Send,
    requires sound { H.sound host.old }
    requires some { 1 ≤ workers }
    requires few { workers ≤ 32 }
    ensures sound { H.sound host.new }
{
    let mut sink = BytesSink::new(alloc, Items::new(alloc)).expect(&rt, "memory");
    let mut clock = list_clock(&rt, alloc, &[1_000], 0);
    let none = None;
    let service = Service {
        address: "here",
        workers,
        connections,
        rules: &none,
        plan: &none,
        keys: &none,
    };
    let status = serve(
        rt, alloc, catalogue, service, door, host, &mut sink, &mut clock,
    );
    tell_end(&rt, text, sink.taken(), status.0);
}
