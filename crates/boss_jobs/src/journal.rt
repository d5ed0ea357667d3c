ghost use Rattle.std.specs.Prelude.{◌≡◌, false, if◌then◌else◌, vec_len};
ghost use Rattle.boss_model.specs.Catalogue.{actuators};
ghost use Rattle.boss_model.specs.Sound.{IsSound};
ghost use Rattle.boss_scripts.specs.Devices.{HasDevices};
ghost use Rattle.boss_jobs.specs.Ends.{status_of};
ghost use Rattle.boss_jobs.specs.Journals.{beside, on_disks, RunsOver};
ghost use Rattle.boss_jobs.specs.Openings.{RunsFrom, TellsJournal};

use crate::Status;
use crate::saying::say;
use crate::script::status_of;
use boss_disk::Disk;
use boss_durable::Durable;
use boss_journal_lines::refusal_line;
use boss_lines::Next;
use boss_model::LOG_LIMIT;
use boss_opening::open;
use boss_outside::{Actuators, Hears, Sink, Source};
use boss_pair_find::DurableRefusal;
use boss_points::Catalogue;
use boss_scripts::{Broken, run_script};
use std::alloc::Global;

/// Runs a script over a journal on two disks, which come back: the journal is opened, the wants of the beginning are served, and then
/// each line of the source is answered, and the wants that it leaves are served, before the next is read.
///
/// Where a disk fails the line that asked for it is told `stopped`, and so is every later one that is not blank and not too long.
pub fn script_on_disks<D: Disk, S: Hears<K>, K: Sink, A: Actuators>(
    alloc: Global,
    catalogue: &Catalogue,
    first: D,
    second: D,
    source: &mut S,
    sink: &mut K,
    devices: &mut Vec<A>,
) -> ((D, D), Status)
    requires { HasDevices (vec_len devices.old) (actuators catalogue.now) }
    ensures { RunsOver ⟦<S as Source>⟧ ⟦<K as Sink>⟧ ⟦<A as Actuators>⟧ catalogue.now
        (on_disks ⟦<D as Disk>⟧ (first, second)) (on_disks ⟦<D as Disk>⟧ result.0)
        (beside source.old sink.old devices.old.items) (beside source.new sink.new devices.new.items) result.1.0 }
{
    match open(alloc, catalogue, first, second, LOG_LIMIT) {
        Ok(durable) => run_from(alloc, catalogue, durable, source, sink, devices),
        Err((disks, refusal)) => {
            let status = say_journal(alloc, sink, &refusal);
            (disks, status)
        }
    }
}

/// Runs a script over a journal that was opened.
fn run_from<D: Disk, S: Hears<K>, K: Sink, A: Actuators>(
    alloc: Global,
    catalogue: &Catalogue,
    durable: Durable<D>,
    source: &mut S,
    sink: &mut K,
    devices: &mut Vec<A>,
) -> ((D, D), Status)
    requires plant { durable.engine.plant ≡ actuators catalogue.now }
    requires going { durable.disks.stopped ≡ false }
    requires sound { IsSound durable.engine.plant durable.engine.state }
    requires devices { HasDevices (vec_len devices.old) (actuators catalogue.now) }
    ensures { RunsFrom ⟦<D as Disk>⟧ ⟦<S as Source>⟧ ⟦<K as Sink>⟧ ⟦<A as Actuators>⟧ catalogue.now durable result.0
        (beside source.old sink.old devices.old.items) (beside source.new sink.new devices.new.items) result.1.0 }
{
    let mut durable = durable;
    let end = run_script(alloc, catalogue, &mut durable, source, sink, devices);
    let status = kept_status(durable.stopped(), end);
    (durable.close(), status)
}

/// The status that tells how a script ended, whose disks may have failed.
fn kept_status(stopped: bool, end: Result<Next, Broken>) -> Status
    ensures { result.0 ≡ (if stopped then 5 else status_of end) }
{
    if stopped {
        Status::FILE_FAULT
    } else {
        status_of(end)
    }
}

/// Tells why a journal was refused. Where a disk failed, or no memory was to be had, nothing is told.
pub fn say_journal<K: Sink>(alloc: Global, sink: &mut K, refusal: &DurableRefusal) -> Status
    ensures { TellsJournal ⟦<K as Sink>⟧ refusal.now sink.old sink.new result.0 }
{
    match refusal {
        DurableRefusal::DiskFault => Status::FILE_FAULT,
        DurableRefusal::NoMemory => Status::NO_MEMORY,
        DurableRefusal::NotAJournal
        | DurableRefusal::Version { .. }
        | DurableRefusal::Catalogue { .. }
        | DurableRefusal::Damaged { .. } => match refusal_line(alloc, refusal) {
            Ok(line) => say(sink, &line, Status::JOURNAL),
            Err(_) => Status::NO_MEMORY,
        },
    }
}
