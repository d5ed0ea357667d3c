//! The jobs, each over a journal in two files, or with `-` in its place over memory alone.

ghost use Rattle.std.specs.Prelude.{◌≡◌, ◌≢◌, ◌≤◌, codes, vec_len};
ghost use Rattle.boss_adopt_jobs.specs.AdoptJobs.{AdoptsJournal, AdoptsMemory};
ghost use Rattle.boss_jobs.specs.Checks.{ChecksJournal, ChecksMemory};
ghost use Rattle.boss_jobs.specs.Jobs.{DoesScript, world};
ghost use Rattle.boss_jobs.specs.KeptScripts.{DoesKeptScript};
ghost use Rattle.boss_model.specs.Limits.{most_workers};
ghost use Rattle.boss_serve_jobs.specs.ServeJobs.{DoesServe, ServesInMemory, all_at_end, all_at_start};
ghost use Rattle.boss_shift_jobs.specs.ShiftJobs.{ShiftsJournal};
ghost use Rattle.boss_standby_jobs.specs.FeedJobs.{FeedsJournal, FeedsMemory};
ghost use Rattle.boss_standby_jobs.specs.StandbyJobs.{DoesStandby, StandbyMemory};

use boss_adopt_jobs::{adopt_kept, adopt_memory};
use boss_files::Files;
use boss_jobs::{Status, check_kept, check_memory, do_kept_script, do_script};
use boss_outside::{Actuators, Hears, Sink, Source};
use boss_outside_server::{Clock, Host, Spawner, Waiter};
use boss_serve_jobs::{Service, World, do_kept_serve, do_memory_serve};
use boss_shift_jobs::shift_kept;
use boss_standby_jobs::{feed_kept, feed_memory, standby_kept, standby_memory};
use boss_words::Word;
use std::alloc::Global;
use std::sync::Wait;

/// Runs a script over a journal in two files, or with `-` in memory alone.
pub fn script<F: Files, S: Hears<K>, K: Sink, A: Actuators>(
    alloc: Global,
    name: &Word,
    journal: &Word,
    files: &mut F,
    source: &mut S,
    sink: &mut K,
    devices: &mut Vec<A>,
) -> Status
    ensures kept { journal.now ≢ codes "-" → DoesKeptScript F.Files S.Source K.Sink A.Actuators name.now journal.now (vec_len devices.old)
        (world files.old source.old sink.old devices.old.items) (world files.new source.new sink.new devices.new.items) result.0 }
    ensures memory { journal.now ≡ codes "-" → DoesScript F.Files S.Source K.Sink A.Actuators name.now (vec_len devices.old)
        (world files.old source.old sink.old devices.old.items) (world files.new source.new sink.new devices.new.items) result.0 }
{
    if journal.text() == "-" {
        do_script(alloc, name.text(), files, source, sink, devices)
    } else {
        do_kept_script(
            alloc,
            name.text(),
            journal.text(),
            files,
            source,
            sink,
            devices,
        )
    }
}

/// Checks a journal in two files, or with `-` in memory alone.
pub fn check<F: Files, S: Source, K: Sink, A: Actuators>(
    alloc: Global,
    name: &Word,
    journal: &Word,
    files: &mut F,
    source: &mut S,
    sink: &mut K,
    devices: &mut Vec<A>,
) -> Status
    ensures kept { journal.now ≢ codes "-" → ChecksJournal F.Files S.Source K.Sink A.Actuators name.now journal.now (vec_len devices.old)
        (world files.old source.old sink.old devices.old.items) (world files.new source.new sink.new devices.new.items) result.0 }
    ensures memory { journal.now ≡ codes "-" → ChecksMemory F.Files S.Source K.Sink A.Actuators name.now (vec_len devices.old)
        (world files.old source.old sink.old devices.old.items) (world files.new source.new sink.new devices.new.items) result.0 }
{
    if journal.text() == "-" {
        check_memory(alloc, name.text(), files, source, sink, devices)
    } else {
        check_kept(
            alloc,
            name.text(),
            journal.text(),
            files,
            source,
            sink,
            devices,
        )
    }
}

/// Adopts a journal in two files, or with `-` in memory alone.
pub fn adopt<F: Files, S: Source, K: Sink, A: Actuators>(
    alloc: Global,
    old_name: &Word,
    new_name: &Word,
    journal: &Word,
    files: &mut F,
    source: &mut S,
    sink: &mut K,
    devices: &mut Vec<A>,
) -> Status
    ensures kept { journal.now ≢ codes "-" → AdoptsJournal F.Files S.Source K.Sink A.Actuators old_name.now new_name.now (vec_len devices.old)
        (world files.old source.old sink.old devices.old.items) (world files.new source.new sink.new devices.new.items) result.0 journal.now }
    ensures memory { journal.now ≡ codes "-" → AdoptsMemory F.Files S.Source K.Sink A.Actuators old_name.now new_name.now (vec_len devices.old)
        (world files.old source.old sink.old devices.old.items) (world files.new source.new sink.new devices.new.items) result.0 }
{
    if journal.text() == "-" {
        adopt_memory(
            alloc,
            old_name.text(),
            new_name.text(),
            files,
            source,
            sink,
            devices,
        )
    } else {
        adopt_kept(
            alloc,
            old_name.text(),
            new_name.text(),
            journal.text(),
            files,
            source,
            sink,
            devices,
        )
    }
}

/// Takes all moments of a journal in two files back by so many milliseconds. With `-` it is in memory alone, and new, which is told as a
/// check tells it.
pub fn shift<F: Files, S: Source, K: Sink, A: Actuators>(
    alloc: Global,
    name: &Word,
    journal: &Word,
    by: u64,
    files: &mut F,
    source: &mut S,
    sink: &mut K,
    devices: &mut Vec<A>,
) -> Status
    ensures kept { journal.now ≢ codes "-" → ShiftsJournal F.Files S.Source K.Sink A.Actuators name.now journal.now by (vec_len devices.old)
        (world files.old source.old sink.old devices.old.items) (world files.new source.new sink.new devices.new.items) result.0 }
    ensures memory { journal.now ≡ codes "-" → ChecksMemory F.Files S.Source K.Sink A.Actuators name.now (vec_len devices.old)
        (world files.old source.old sink.old devices.old.items) (world files.new source.new sink.new devices.new.items) result.0 }
{
    if journal.text() == "-" {
        check_memory(alloc, name.text(), files, source, sink, devices)
    } else {
        shift_kept(
            alloc,
            name.text(),
            journal.text(),
            by,
            files,
            source,
            sink,
            devices,
        )
    }
}

/// Tells a journal in two files as a feed, or with `-` in memory alone.
pub fn feed<F: Files, S: Source, K: Sink, A: Actuators>(
    alloc: Global,
    name: &Word,
    journal: &Word,
    from: u64,
    files: &mut F,
    source: &mut S,
    sink: &mut K,
    devices: &mut Vec<A>,
) -> Status
    ensures kept { journal.now ≢ codes "-" → FeedsJournal F.Files S.Source K.Sink A.Actuators name.now journal.now from (vec_len devices.old)
        (world files.old source.old sink.old devices.old.items) (world files.new source.new sink.new devices.new.items) result.0 }
    ensures memory { journal.now ≡ codes "-" → FeedsMemory F.Files S.Source K.Sink A.Actuators name.now (vec_len devices.old)
        (world files.old source.old sink.old devices.old.items) (world files.new source.new sink.new devices.new.items) result.0 }
{
    if journal.text() == "-" {
        feed_memory(alloc, name.text(), files, source, sink, devices)
    } else {
        feed_kept(
            alloc,
            name.text(),
            journal.text(),
            from,
            files,
            source,
            sink,
            devices,
        )
    }
}

/// Has a journal in two files follow a feed, or with `-` in memory alone.
pub fn standby<F: Files, S: Source, K: Sink, A: Actuators>(
    alloc: Global,
    name: &Word,
    journal: &Word,
    files: &mut F,
    source: &mut S,
    sink: &mut K,
    devices: &mut Vec<A>,
) -> Status
    ensures kept { journal.now ≢ codes "-" → DoesStandby F.Files S.Source K.Sink A.Actuators name.now journal.now (vec_len devices.old)
        (world files.old source.old sink.old devices.old.items) (world files.new source.new sink.new devices.new.items) result.0 }
    ensures memory { journal.now ≡ codes "-" → StandbyMemory F.Files S.Source K.Sink A.Actuators name.now (vec_len devices.old)
        (world files.old source.old sink.old devices.old.items) (world files.new source.new sink.new devices.new.items) result.0 }
{
    if journal.text() == "-" {
        standby_memory(alloc, name.text(), files, source, sink, devices)
    } else {
        standby_kept(
            alloc,
            name.text(),
            journal.text(),
            files,
            source,
            sink,
            devices,
        )
    }
}

/// Serves over a journal in two files, or with `-` over memory alone.
pub fn serve<
    R: Wait + Sync + Drop,
    F: Files,
    S: Source,
    K: Sink,
    A: Actuators + Drop + Send,
    C: Clock + Send,
    H: Host + Send,
    W: Waiter + Send,
    P: Spawner,
>(
    rt: R,
    alloc: Global,
    name: &Word,
    journal: &Word,
    service: Service<'_>,
    world: World<'_, F, S, K, A, C, H, W, P>,
) -> Status
where
    F::Store: Send,
    H::In: Send,
    H::Out: Send,
    W::Bells: Send,
    requires sound { H.sound world.host.now }
    requires some { 1 ≤ service.workers }
    requires few { service.workers ≤ most_workers }
    ensures sound { H.sound (all_at_end world.exit).host }
    ensures kept { journal.now ≢ codes "-" → DoesServe F.Files S.Source K.Sink A.Actuators H.Host H.In.Source H.Out.Sink
        C.Clock W.Waiter P.Spawner name.now journal.now service.entry.address.now service.entry.rules.now service.entry.plan.now service.entry.keys.now (vec_len world.entry.devices.now) service.entry.workers service.entry.connections
        (all_at_start world.entry) (all_at_end world.exit) result.0 }
    ensures memory { journal.now ≡ codes "-" → ServesInMemory F.Files S.Source K.Sink A.Actuators H.Host H.In.Source H.Out.Sink
        C.Clock W.Waiter P.Spawner name.now service.entry.address.now service.entry.rules.now service.entry.plan.now service.entry.keys.now (vec_len world.entry.devices.now) service.entry.workers service.entry.connections
        (all_at_start world.entry) (all_at_end world.exit) result.0 }
{
    if journal.text() == "-" {
        do_memory_serve(rt, alloc, name.text(), service, world)
    } else {
        do_kept_serve(rt, alloc, name.text(), journal.text(), service, world)
    }
}
