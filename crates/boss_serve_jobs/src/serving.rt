ghost use Rattle.std.specs.Prelude.{◌≡◌, ◌≤◌, false, [], List, vec_capacity};
ghost use Rattle.boss_model.specs.Limits.{most_workers};
ghost use Rattle.boss_model.specs.Catalogue.{actuators};
ghost use Rattle.boss_model.specs.declared.event.Event.{Event};
ghost use Rattle.boss_model.specs.Sound.{IsSound};
ghost use Rattle.boss_journal_lines.specs.Reports.{longest_summary, summary_line};
ghost use Rattle.boss_jobs.specs.Journals.{on_disks};
ghost use Rattle.boss_server.specs.References.{KeepsReferences};
ghost use Rattle.boss_server.specs.Sites.{gates_of};
ghost use Rattle.boss_serve_jobs.specs.Serving.{
  at_end,
  at_start,
  Listened,
  ListensBy,
  parts_of,
  RanWorkers,
  ServesKeeper,
  ServesMemory,
  ServesOver,
  status_of,
  TellsEnd,
  TellsLast,
};

use crate::standing::{Standing, Tally};
use crate::world::{Service, Surroundings};
use boss_disk::Disk;
use boss_jobs::{Status, say_journal};
use boss_journal_lines::{LONGEST_SUMMARY, summary_in_room};
use boss_memory_keeper::Unkept;
use boss_model::{LOG_LIMIT, NoMemory};
use boss_opening::open;
use boss_outside::{Actuators, Failed, Sink};
use boss_outside_server::{Announcement, Clock, Host, Spawner, Waiter};
use boss_server::{Ended, Outside, Site, serve_ringing};
use std::alloc::Global;
use std::sync::Wait;

/// How the workers of a server ran.
#[derive(Clone, Copy)]
enum Run {
    /// None of them, as the host could not listen at its address.
    NotBound,
    /// None of them, as no memory was to be had.
    NoMemory,
    /// They all ended, and this is what went wrong at them.
    Ended(Ended),
}

/// Serves so many connections at an address over a journal on two disks, which come back: the journal is opened, the host listens,
/// the workers run, and where no disk failed one line tells what the history leaves, for which room was taken before.
pub fn serve_on_disks<
    R: Wait + Sync + Drop,
    D: Disk + Send,
    K: Sink,
    A: Actuators + Drop + Send,
    C: Clock + Send,
    H: Host + Send,
    W: Waiter + Send,
    P: Spawner,
>(
    rt: R,
    alloc: Global,
    site: Site<'_>,
    first: D,
    second: D,
    service: Service<'_>,
    surroundings: Surroundings<'_, K, A, C, H, W, P>,
) -> ((D, D), Status)
where
    H::In: Send,
    H::Out: Send,
    W::Bells: Send,
    requires sound { H.sound surroundings.host.now }
    requires some { 1 ≤ service.workers }
    requires few { service.workers ≤ most_workers }
    ensures sound { H.sound (at_end surroundings.exit).host }
    ensures listens { H.tells → Listened H.Host service.entry.address.now (at_start surroundings.entry).host (at_end surroundings.exit).host result.1.0 }
    ensures serves { ServesOver K.Sink A.Actuators H.Host H.In.Source H.Out.Sink C.Clock W.Waiter P.Spawner site.entry.catalogue.now
        (on_disks D.Disk (first, second)) (on_disks D.Disk result.0) (gates_of site.entry.catalogue.now site.entry.rules) site.entry.keys service.entry.workers service.entry.connections
        (at_start surroundings.entry) (at_end surroundings.exit) result.1.0 }
{
    let mut line = Vec::new(alloc);
    if line.reserve(LONGEST_SUMMARY).is_err() {
        return ((first, second), Status::NO_MEMORY);
    }
    match open(alloc, site.catalogue, first, second, LOG_LIMIT) {
        Ok(durable) => {
            let (durable, status) = serve_over(
                rt,
                alloc,
                site,
                durable,
                &mut line,
                service,
                surroundings,
            );
            (durable.close(), status)
        }
        Err((disks, refusal)) => {
            let status = say_journal(alloc, surroundings.sink, &refusal);
            (disks, status)
        }
    }
}

/// Serves over memory alone: what was done is gone when the server ends.
pub fn serve_in_memory<
    R: Wait + Sync + Drop,
    K: Sink,
    A: Actuators + Drop + Send,
    C: Clock + Send,
    H: Host + Send,
    W: Waiter + Send,
    P: Spawner,
>(
    rt: R,
    alloc: Global,
    site: Site<'_>,
    service: Service<'_>,
    surroundings: Surroundings<'_, K, A, C, H, W, P>,
) -> Status
where
    H::In: Send,
    H::Out: Send,
    W::Bells: Send,
    requires sound { H.sound surroundings.host.now }
    requires some { 1 ≤ service.workers }
    requires few { service.workers ≤ most_workers }
    ensures sound { H.sound (at_end surroundings.exit).host }
    ensures listens { H.tells → Listened H.Host service.entry.address.now (at_start surroundings.entry).host (at_end surroundings.exit).host result.0 }
    ensures serves { ServesMemory K.Sink A.Actuators H.Host H.In.Source H.Out.Sink C.Clock W.Waiter P.Spawner site.entry.catalogue.now
        (gates_of site.entry.catalogue.now site.entry.rules) site.entry.keys service.entry.workers service.entry.connections (at_start surroundings.entry) (at_end surroundings.exit) result.0 }
{
    let mut line = Vec::new(alloc);
    if line.reserve(LONGEST_SUMMARY).is_err() {
        return Status::NO_MEMORY;
    }
    match Unkept::new(alloc, site.catalogue) {
        Ok(unkept) => {
            let (_, status) = serve_over(rt, alloc, site, unkept, &mut line, service, surroundings);
            status
        }
        Err(NoMemory) => Status::NO_MEMORY,
    }
}

/// Serves over a keeper that has not stopped, which comes back. The last line is empty and has room.
fn serve_over<
    R: Wait + Sync + Drop,
    V: Tally + Send,
    K: Sink,
    A: Actuators + Drop + Send,
    C: Clock + Send,
    H: Host + Send,
    W: Waiter + Send,
    P: Spawner,
>(
    rt: R,
    alloc: Global,
    site: Site<'_>,
    keeper: V,
    line: &mut Vec<u8>,
    service: Service<'_>,
    surroundings: Surroundings<'_, K, A, C, H, W, P>,
) -> (V, Status)
where
    H::In: Send,
    H::Out: Send,
    W::Bells: Send,
    requires running { V.stopped keeper ≡ false }
    requires kept { IsSound (V.plant keeper) (V.state keeper) }
    requires images { V.leaves keeper (V.state keeper).persistent (V.state keeper).persistent }
    requires events { (before : List Event) × V.keeps keeper before }
    requires plant { actuators site.catalogue.now ≡ V.plant keeper }
    requires empty { line.old.items ≡ [] }
    requires room { longest_summary ≤ vec_capacity line.old }
    requires sound { H.sound surroundings.host.now }
    requires some { 1 ≤ service.workers }
    requires few { service.workers ≤ most_workers }
    ensures sound { H.sound (at_end surroundings.exit).host }
    ensures listens { H.tells → Listened H.Host service.entry.address.now (at_start surroundings.entry).host (at_end surroundings.exit).host result.1.0 }
    ensures under { V.under result.0 ≡ V.under keeper }
    ensures serves { ServesKeeper K.Sink A.Actuators H.Host H.In.Source H.Out.Sink C.Clock W.Waiter P.Spawner V.Keeper V.known
        site.entry.catalogue.now keeper result.0 (gates_of site.entry.catalogue.now site.entry.rules) site.entry.keys service.entry.workers service.entry.connections
        (at_start surroundings.entry) (at_end surroundings.exit) result.1.0 }
{
    let Surroundings {
        sink,
        devices,
        clock,
        host,
        waiter,
        spawner,
    } = surroundings;
    let mut outside = Outside::new(host, clock, waiter, devices, spawner);
    let (keeper, run) = run_workers(rt, alloc, keeper, site, service, &mut outside);
    let status = tell_end(sink, line, keeper.standing(), run);
    (keeper, status)
}

/// Lets the host listen at an address, has the clock begin no earlier than the keeper stands, and runs the workers over the keeper,
/// whose disk never failed. The keeper comes back: it then stands for one history from the keeper as it was handed over, which is all
/// that the workers did.
fn run_workers<
    R: Wait + Sync + Drop,
    V: Tally + Send,
    A: Actuators + Drop + Send,
    C: Clock + Send,
    H: Host + Send,
    W: Waiter + Send,
    P: Spawner,
>(
    rt: R,
    alloc: Global,
    keeper: V,
    site: Site<'_>,
    service: Service<'_>,
    outside: &mut Outside<'_, H, C, W, A, P>,
) -> (V, Run)
where
    H::In: Send,
    H::Out: Send,
    W::Bells: Send,
    requires running { V.stopped keeper ≡ false }
    requires kept { IsSound (V.plant keeper) (V.state keeper) }
    requires images { V.leaves keeper (V.state keeper).persistent (V.state keeper).persistent }
    requires events { (before : List Event) × V.keeps keeper before }
    requires plant { actuators site.catalogue.now ≡ V.plant keeper }
    requires sound { H.sound outside.old.host.now }
    requires some { 1 ≤ service.workers }
    requires few { service.workers ≤ most_workers }
    ensures references { KeepsReferences outside.old outside.new }
    ensures sound { H.sound outside.new.host.now }
    ensures listens { H.tells → ListensBy H.Host service.entry.address.now outside.old.host.now outside.new.host.now result.1 }
    ensures under { V.under result.0 ≡ V.under keeper }
    ensures ran { RanWorkers A.Actuators H.Host H.In.Source H.Out.Sink C.Clock W.Waiter P.Spawner V.Keeper site.entry.catalogue.now keeper result.0
        (gates_of site.entry.catalogue.now site.entry.rules) site.entry.keys service.entry.workers service.entry.connections (parts_of outside.old) (parts_of outside.new) result.1 }
{
    match outside.host.bind(service.address) {
        Ok(()) => {
            let standing = keeper.standing();
            outside.clock.begin(standing.now);
            outside.host.announce(announcement(&site, standing));
            let (keeper, ended) = serve_ringing(
                rt,
                alloc,
                keeper,
                site,
                outside,
                service.workers,
                service.connections,
            );
            match ended {
                Ok(ended) => (keeper, Run::Ended(ended)),
                Err(NoMemory) => (keeper, Run::NoMemory),
            }
        }
        Err(Failed) => (keeper, Run::NotBound),
    }
}

/// What a server says where it begins to listen.
fn announcement(site: &Site<'_>, standing: Standing) -> Announcement {
    Announcement {
        points: site.catalogue.count(),
        drivers: site.catalogue.drivers(),
        events: standing.events,
        now: standing.now,
        reserve: site.reserve,
    }
}

/// Tells how a server ended: where its workers ran and no disk failed, one line of what the history leaves. The line is empty
/// and has room, so no memory is taken.
fn tell_end<K: Sink>(sink: &mut K, line: &mut Vec<u8>, standing: Standing, run: Run) -> Status
    requires empty { line.old.items ≡ [] }
    requires room { longest_summary ≤ vec_capacity line.old }
    ensures { TellsEnd K.Sink (summary_line standing.events standing.now standing.leases standing.pending) run sink.old sink.new result.0 }
{
    match run {
        Run::NotBound => Status::HOST_FAULT,
        Run::NoMemory => Status::NO_MEMORY,
        Run::Ended(ended) => {
            if ended.flags.disk {
                return Status::FILE_FAULT;
            }
            tell_summary(sink, line, standing, status_of(ended))
        }
    }
}

/// Tells in one write what a history leaves. A write that failed counts where nothing else is told.
fn tell_summary<K: Sink>(
    sink: &mut K,
    line: &mut Vec<u8>,
    standing: Standing,
    told: Status,
) -> Status
    requires empty { line.old.items ≡ [] }
    requires room { longest_summary ≤ vec_capacity line.old }
    ensures { TellsLast K.Sink (summary_line standing.events standing.now standing.leases standing.pending) told.0 sink.old sink.new result.0 }
{
    summary_in_room(
        line,
        standing.events,
        standing.now,
        standing.leases,
        standing.pending,
    );
    match sink.write(line) {
        Ok(()) => told,
        Err(Failed) if told == Status::DONE => Status::WRITE_FAULT,
        Err(Failed) => told,
    }
}

/// The status that tells what went wrong at workers that ran.
fn status_of(ended: Ended) -> Status
    ensures { result.0 ≡ status_of ended.flags ended.unstarted }
{
    let Ended { flags, unstarted } = ended;
    if flags.disk {
        Status::FILE_FAULT
    } else if unstarted {
        Status::UNSTARTED
    } else if flags.clock {
        Status::CLOCK_FAULT
    } else if flags.host {
        Status::HOST_FAULT
    } else if flags.memory {
        Status::NO_MEMORY
    } else {
        Status::DONE
    }
}
