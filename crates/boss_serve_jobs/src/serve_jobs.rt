ghost use Rattle.std.specs.Prelude.{◌≡◌, ◌≢◌, ℕ, ◌≤◌, List, [], ◌∷◌, vec_len};
ghost use Rattle.boss_model.specs.Limits.{most_workers};
ghost use Rattle.boss_files.specs.Names.{second_name};
ghost use Rattle.boss_jobs.specs.Journals.{AsksFront, in_files};
ghost use Rattle.boss_server.specs.Sites.{gates_of};
ghost use Rattle.boss_serve_jobs.specs.ServeJobs.{all_at_end, all_at_start, DoesServe, ServesInMemory};
ghost use Rattle.boss_serve_jobs.specs.Serving.{at_end, at_start, Listened, ServesOver};

use crate::keying::parted;
use crate::preparing::prepare;
use crate::serving::{serve_in_memory, serve_on_disks};
use crate::world::{Service, Surroundings, World};
use boss_files::{FileFault, Files, close_stores, open_stores, second_name};
use boss_jobs::Status;
use boss_outside::{Actuators, Sink, Source};
use boss_outside_server::{Clock, Host, Spawner, Waiter};
use boss_server::Site;
use std::alloc::Global;
use std::sync::Wait;

/// Serves so many connections at an address under the catalogue of a file, the access rules of another and the keys of a third, with the devices as a plan
/// assigns them, over a journal that is kept in two files: that of its name, and that of its name with `.b` after it.
pub fn do_kept_serve<
    R: Wait + Sync + Drop,
    F: Files,
    S: Source,
    K: Sink,
    A: Actuators + Drop + Send,
    C: Clock + Send,
    H: Host + Send,
    W: Waiter + Send,
    P: Spawner,
>(
    rt: R,
    alloc: Global,
    name: &str,
    journal: &str,
    service: Service<'_>,
    world: World<'_, F, S, K, A, C, H, W, P>,
) -> Status
where
    F::Store: Send,
    H::In: Send,
    H::Out: Send,
    W::Bells: Send,
    requires sound { H.sound world.host.now }
    requires some { 1 ≤ service.workers }
    requires few { service.workers ≤ most_workers }
    ensures sound { H.sound (all_at_end world.exit).host }
    ensures serves { DoesServe F.Files S.Source K.Sink A.Actuators H.Host H.In.Source H.Out.Sink
        C.Clock W.Waiter P.Spawner name.now journal.now service.entry.address.now service.entry.rules.now service.entry.plan.now service.entry.keys.now (vec_len world.entry.devices.now) service.entry.workers service.entry.connections
        (all_at_start world.entry)
        (all_at_end world.exit) result.0 }
{
    let World {
        files,
        sink,
        devices,
        clock,
        host,
        waiter,
        spawner,
        ..
    } = world;
    let (catalogue, rules, file) = match prepare(
        alloc,
        name,
        service.rules,
        service.plan,
        service.keys,
        files,
        sink,
        devices,
    ) {
        Ok(made) => made,
        Err(status) => return status,
    };
    let (keys, reserve) = parted(file);
    let site = Site {
        catalogue: &catalogue,
        rules,
        keys,
        reserve,
    };
    let surroundings = Surroundings {
        sink,
        devices,
        clock,
        host,
        waiter,
        spawner,
    };
    serve_in_files(rt, alloc, site, journal, service, files, surroundings)
}

/// Serves over the journal of this name.
fn serve_in_files<
    R: Wait + Sync + Drop,
    F: Files,
    K: Sink,
    A: Actuators + Drop + Send,
    C: Clock + Send,
    H: Host + Send,
    W: Waiter + Send,
    P: Spawner,
>(
    rt: R,
    alloc: Global,
    site: Site<'_>,
    journal: &str,
    service: Service<'_>,
    files: &mut F,
    surroundings: Surroundings<'_, K, A, C, H, W, P>,
) -> Status
where
    F::Store: Send,
    H::In: Send,
    H::Out: Send,
    W::Bells: Send,
    requires sound { H.sound surroundings.host.now }
    requires some { 1 ≤ service.workers }
    requires few { service.workers ≤ most_workers }
    ensures sound { H.sound (at_end surroundings.exit).host }
    ensures serves { ServesOver K.Sink A.Actuators H.Host H.In.Source H.Out.Sink C.Clock W.Waiter P.Spawner site.entry.catalogue.now
        (in_files F.Files journal.now files.old) (in_files F.Files journal.now files.new) (gates_of site.entry.catalogue.now site.entry.rules) site.entry.keys service.entry.workers service.entry.connections
        (at_start surroundings.entry)
        (at_end surroundings.exit) result.0 }
    ensures listens { H.tells → Listened H.Host service.entry.address.now (at_start surroundings.entry).host (at_end surroundings.exit).host result.0 }
    ensures asks { F.tells → AsksFront (journal.now ∷ second_name journal.now ∷ []) (F.asked files.old) (F.asked files.new) }
    ensures others { F.tells → (file : List ℕ) → file ≢ journal.now → file ≢ second_name journal.now → F.holds files.new file ≡ F.holds files.old file }
{
    let Ok(second) = second_name(alloc, journal) else {
        return Status::NO_MEMORY;
    };
    match open_stores(alloc, files, journal, second.as_str()) {
        Ok((first, other)) => {
            let (stores, status) = serve_on_disks(
                rt,
                alloc,
                site,
                first,
                other,
                service,
                surroundings,
            );
            close_stores(files, journal, second.as_str(), stores);
            status
        }
        Err(FileFault::Failed) => Status::FILE_FAULT,
        Err(FileFault::NoMemory) => Status::NO_MEMORY,
    }
}

/// Serves so many connections at an address under the catalogue of a file, the access rules of another and the keys of a third, with the devices as a plan
/// assigns them, over memory alone.
pub fn do_memory_serve<
    R: Wait + Sync + Drop,
    F: Files,
    S: Source,
    K: Sink,
    A: Actuators + Drop + Send,
    C: Clock + Send,
    H: Host + Send,
    W: Waiter + Send,
    P: Spawner,
>(
    rt: R,
    alloc: Global,
    name: &str,
    service: Service<'_>,
    world: World<'_, F, S, K, A, C, H, W, P>,
) -> Status
where
    H::In: Send,
    H::Out: Send,
    W::Bells: Send,
    requires sound { H.sound world.host.now }
    requires some { 1 ≤ service.workers }
    requires few { service.workers ≤ most_workers }
    ensures sound { H.sound (all_at_end world.exit).host }
    ensures serves { ServesInMemory F.Files S.Source K.Sink A.Actuators H.Host H.In.Source H.Out.Sink
        C.Clock W.Waiter P.Spawner name.now service.entry.address.now service.entry.rules.now service.entry.plan.now service.entry.keys.now (vec_len world.entry.devices.now) service.entry.workers service.entry.connections
        (all_at_start world.entry)
        (all_at_end world.exit) result.0 }
{
    let World {
        files,
        sink,
        devices,
        clock,
        host,
        waiter,
        spawner,
        ..
    } = world;
    let (catalogue, rules, file) = match prepare(
        alloc,
        name,
        service.rules,
        service.plan,
        service.keys,
        files,
        sink,
        devices,
    ) {
        Ok(made) => made,
        Err(status) => return status,
    };
    let (keys, reserve) = parted(file);
    let site = Site {
        catalogue: &catalogue,
        rules,
        keys,
        reserve,
    };
    let surroundings = Surroundings {
        sink,
        devices,
        clock,
        host,
        waiter,
        spawner,
    };
    serve_in_memory(rt, alloc, site, service, surroundings)
}
