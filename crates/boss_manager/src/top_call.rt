ghost use Rattle.std.specs.Prelude.{◌≡◌, ◌≢◌, ◌≤◌, List, ℕ, Some, codes, false, vec_len};
ghost use Rattle.boss_words.specs.declared.job.Job.TheVariants as job;
ghost use Rattle.boss_words.specs.Words.{job_of, texts};
ghost use Rattle.boss_adopt_jobs.specs.AdoptJobs.{AdoptsJournal, AdoptsMemory};
ghost use Rattle.boss_jobs.specs.Checks.{ChecksJournal, ChecksMemory};
ghost use Rattle.boss_jobs.specs.Jobs.{DoesScript, SaysHelp, SaysUsage, SaysVersion, world};
ghost use Rattle.boss_jobs.specs.KeptScripts.{DoesKeptScript};
ghost use Rattle.boss_jobs.specs.LoadJobs.{DoesLoad};
ghost use Rattle.boss_jobs.specs.Programs.{is_served, script_of_words};
ghost use Rattle.boss_manager.specs.declared.next.ServeJob.{ServeJob};
ghost use Rattle.boss_manager.specs.Nexts.{HasWorkers, IfDone, IsLeft, OnDone, server_of};
ghost use Rattle.boss_model.specs.Limits.{most_workers};
ghost use Rattle.boss_shift_jobs.specs.ShiftJobs.{ShiftsJournal};
ghost use Rattle.boss_standby_jobs.specs.FeedJobs.{FeedsJournal, FeedsMemory};
ghost use Rattle.boss_standby_jobs.specs.StandbyJobs.{DoesStandby, StandbyMemory};
ghost use Rattle.boss_serve_jobs.specs.ServeJobs.{DoesServe, server_world, ServesInMemory};

use crate::doing::do_words;
use crate::jobs::serve;
use crate::{Next, ServeJob};
use boss_files::Files;
use boss_jobs::Status;
use boss_outside::{Actuators, Hears, Sink, Source};
use boss_outside_server::{Clock, Host, Spawner, Waiter};
use boss_serve_jobs::{Service, World};
use std::alloc::Global;
use std::sync::Wait;

/// Does what the words ask for, but for a server, which is left to be served by [`boss_serve`]. The words do not include the program's
/// own name. It is given no clock, no network and nothing to wait by, and it returns, whatever the words are.
///
/// This is a script, `script CATALOGUE JOURNAL`, a check, `check CATALOGUE JOURNAL`, an adoption of a changed catalogue, `adopt OLD NEW
/// JOURNAL`, a shift, `shift CATALOGUE JOURNAL BY`, a feed, `feed CATALOGUE JOURNAL FROM`, a standby, `standby CATALOGUE JOURNAL`, or a generated load, `load COUNT SEED`; `help` tells these, and `version` the program's. A
/// script reads the catalogue, opens the journal, answers the lines of the source to the sink and drives the devices, the d-th of them for
/// driver d. A check tells what the journal stands for. An adoption takes that over under the new catalogue, where no removed point is in
/// use and each point takes all values that it holds. A shift takes all moments of what the journal stands for back by BY milliseconds,
/// where it and its reversions have lasted so long. A feed tells the journal's events above FROM, and a standby does again in its own
/// journal what a feed from the source tells. The journal is kept in two files, that of its name and that of its name with `.b` behind it,
/// or with `-` in memory alone. A load tells what came of a generated day.
pub fn boss<F: Files, S: Hears<K>, K: Sink, A: Actuators>(
    alloc: Global,
    words: &Vec<String>,
    files: &mut F,
    source: &mut S,
    sink: &mut K,
    devices: &mut Vec<A>,
) -> Next
    // The job of each row of words that is done here.
    ensures script { (name : List ℕ) → script_of_words (texts words.now.items) ≡ Some name
        → IfDone result (DoesScript F.Files S.Source K.Sink A.Actuators name (vec_len devices.old)
        (world files.old source.old sink.old devices.old.items) (world files.new source.new sink.new devices.new.items)) }
    ensures kept_script { (name journal : List ℕ) → job_of (texts words.now.items) ≡ Some (job.Script name journal) → journal ≢ codes "-"
        → IfDone result (DoesKeptScript F.Files S.Source K.Sink A.Actuators name journal (vec_len devices.old)
        (world files.old source.old sink.old devices.old.items) (world files.new source.new sink.new devices.new.items)) }
    ensures check { (name journal : List ℕ) → job_of (texts words.now.items) ≡ Some (job.Check name journal) → journal ≢ codes "-"
        → IfDone result (ChecksJournal F.Files S.Source K.Sink A.Actuators name journal (vec_len devices.old)
        (world files.old source.old sink.old devices.old.items) (world files.new source.new sink.new devices.new.items)) }
    ensures check_memory { (name : List ℕ) → job_of (texts words.now.items) ≡ Some (job.Check name (codes "-"))
        → IfDone result (ChecksMemory F.Files S.Source K.Sink A.Actuators name (vec_len devices.old)
        (world files.old source.old sink.old devices.old.items) (world files.new source.new sink.new devices.new.items)) }
    ensures adopt { (old_name new_name journal : List ℕ) → job_of (texts words.now.items) ≡ Some (job.Adopt old_name new_name journal) → journal ≢ codes "-"
        → IfDone result (λ status. AdoptsJournal F.Files S.Source K.Sink A.Actuators old_name new_name (vec_len devices.old)
        (world files.old source.old sink.old devices.old.items) (world files.new source.new sink.new devices.new.items) status journal) }
    ensures adopt_memory { (old_name new_name : List ℕ) → job_of (texts words.now.items) ≡ Some (job.Adopt old_name new_name (codes "-"))
        → IfDone result (AdoptsMemory F.Files S.Source K.Sink A.Actuators old_name new_name (vec_len devices.old)
        (world files.old source.old sink.old devices.old.items) (world files.new source.new sink.new devices.new.items)) }
    ensures shift { (name journal : List ℕ) (by : ℕ) → job_of (texts words.now.items) ≡ Some (job.Shift name journal by) → journal ≢ codes "-"
        → IfDone result (ShiftsJournal F.Files S.Source K.Sink A.Actuators name journal by (vec_len devices.old)
        (world files.old source.old sink.old devices.old.items) (world files.new source.new sink.new devices.new.items)) }
    // A journal in memory alone is new, and that is told as a check tells it.
    ensures shift_memory { (name : List ℕ) (by : ℕ) → job_of (texts words.now.items) ≡ Some (job.Shift name (codes "-") by)
        → IfDone result (ChecksMemory F.Files S.Source K.Sink A.Actuators name (vec_len devices.old)
        (world files.old source.old sink.old devices.old.items) (world files.new source.new sink.new devices.new.items)) }
    ensures feed { (name journal : List ℕ) (from : ℕ) → job_of (texts words.now.items) ≡ Some (job.Feed name journal from) → journal ≢ codes "-"
        → IfDone result (FeedsJournal F.Files S.Source K.Sink A.Actuators name journal from (vec_len devices.old)
        (world files.old source.old sink.old devices.old.items) (world files.new source.new sink.new devices.new.items)) }
    ensures feed_memory { (name : List ℕ) (from : ℕ) → job_of (texts words.now.items) ≡ Some (job.Feed name (codes "-") from)
        → IfDone result (FeedsMemory F.Files S.Source K.Sink A.Actuators name (vec_len devices.old)
        (world files.old source.old sink.old devices.old.items) (world files.new source.new sink.new devices.new.items)) }
    ensures standby { (name journal : List ℕ) → job_of (texts words.now.items) ≡ Some (job.Standby name journal) → journal ≢ codes "-"
        → IfDone result (DoesStandby F.Files S.Source K.Sink A.Actuators name journal (vec_len devices.old)
        (world files.old source.old sink.old devices.old.items) (world files.new source.new sink.new devices.new.items)) }
    ensures standby_memory { (name : List ℕ) → job_of (texts words.now.items) ≡ Some (job.Standby name (codes "-"))
        → IfDone result (StandbyMemory F.Files S.Source K.Sink A.Actuators name (vec_len devices.old)
        (world files.old source.old sink.old devices.old.items) (world files.new source.new sink.new devices.new.items)) }
    ensures load { (count seed : ℕ) → job_of (texts words.now.items) ≡ Some (job.Load count seed)
        → IfDone result (DoesLoad F.Files S.Source K.Sink A.Actuators count seed
        (world files.old source.old sink.old devices.old.items) (world files.new source.new sink.new devices.new.items)) }
    ensures help { job_of (texts words.now.items) ≡ Some job.Help → IfDone result (SaysHelp F.Files S.Source K.Sink A.Actuators
        (world files.old source.old sink.old devices.old.items) (world files.new source.new sink.new devices.new.items)) }
    ensures version { job_of (texts words.now.items) ≡ Some job.Version → IfDone result (SaysVersion F.Files S.Source K.Sink A.Actuators
        (world files.old source.old sink.old devices.old.items) (world files.new source.new sink.new devices.new.items)) }
    // A server is left to be served, or there was no memory to read the words; nothing was touched.
    ensures serves { (job : ServeJob) → server_of (job_of (texts words.now.items)) ≡ Some job
        → IsLeft job result × (world files.new source.new sink.new devices.new.items ≡ world files.old source.old sink.old devices.old.items) }
    ensures workers { HasWorkers result }

    // Status 2 comes exactly where they ask for no such job, but where the line that tells it can't be written, or memory is
    // wanting.
    ensures usage_only { OnDone result (λ status. status ≡ 2 → is_served (job_of (texts words.now.items)) ≡ false) }
    ensures usage { is_served (job_of (texts words.now.items)) ≡ false → IfDone result (SaysUsage F.Files S.Source K.Sink A.Actuators
        (world files.old source.old sink.old devices.old.items) (world files.new source.new sink.new devices.new.items)) }
{
    do_words(alloc, words, files, source, sink, devices)
}

/// Serves, as the words asked for it: `serve CATALOGUE JOURNAL ADDRESS WORKERS CONNECTIONS RULES PLAN KEYS`. It reads the catalogue, opens
/// the journal, answers the lines of so many connections that the host takes at the address, by so many workers, in time that the clock
/// tells, and drives the devices, the d-th of them for driver d. With a file of keys it answers no request of a connection that did not
/// show with its first one the key of a name, and none that attaches as another. Whether it ends is its callers', its clock's and its
/// waiter's.
pub fn boss_serve<
    R: Wait + Sync + Drop,
    F: Files,
    S: Source,
    K: Sink,
    A: Actuators + Drop + Send,
    C: Clock + Send,
    H: Host + Send,
    W: Waiter + Send,
    P: Spawner,
>(
    rt: R,
    alloc: Global,
    job: &ServeJob,
    files: &mut F,
    source: &mut S,
    sink: &mut K,
    devices: &mut Vec<A>,
    clock: &mut C,
    host: &mut H,
    waiter: &mut W,
    spawner: &mut P,
) -> Status
where
    F::Store: Send,
    H::In: Send,
    H::Out: Send,
    W::Bells: Send,
    requires host { H.sound host.old }
    requires some { 1 ≤ job.now.workers }
    requires few { job.now.workers ≤ most_workers }
    ensures sound { H.sound host.new }
    ensures serve { job.now.journal ≢ codes "-" → DoesServe F.Files S.Source K.Sink A.Actuators H.Host H.In.Source H.Out.Sink C.Clock W.Waiter P.Spawner
        job.now.catalogue job.now.journal job.now.address job.now.rules job.now.plan job.now.keys (vec_len devices.old) job.now.workers job.now.connections
        (server_world (world files.old source.old sink.old devices.old.items) clock.old host.old waiter.old spawner.old)
        (server_world (world files.new source.new sink.new devices.new.items) clock.new host.new waiter.new spawner.new) result.0 }
    ensures serve_memory { job.now.journal ≡ codes "-" → ServesInMemory F.Files S.Source K.Sink A.Actuators H.Host H.In.Source H.Out.Sink C.Clock W.Waiter P.Spawner
        job.now.catalogue job.now.address job.now.rules job.now.plan job.now.keys (vec_len devices.old) job.now.workers job.now.connections
        (server_world (world files.old source.old sink.old devices.old.items) clock.old host.old waiter.old spawner.old)
        (server_world (world files.new source.new sink.new devices.new.items) clock.new host.new waiter.new spawner.new) result.0 }
    ensures usage_never { result.0 ≢ 2 }
{
    let service = Service {
        address: job.address.text(),
        workers: job.workers,
        connections: job.connections,
        rules: &job.rules,
        plan: &job.plan,
        keys: &job.keys,
    };
    let world = World {
        files,
        source,
        sink,
        devices,
        clock,
        host,
        waiter,
        spawner,
    };
    serve(rt, alloc, &job.catalogue, &job.journal, service, world)
}
