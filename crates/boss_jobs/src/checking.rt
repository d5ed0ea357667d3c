ghost use Rattle.boss_jobs.specs.Jobs.{TellsLine};
ghost use Rattle.boss_jobs.specs.Journals.{checked_line, ChecksOver, on_disks};
ghost use Rattle.boss_jobs.specs.Openings.{TellsFound};

use crate::Status;
use crate::journal::say_journal;
use crate::saying::say;
use boss_disk::Disk;
use boss_journal_lines::{new_line, summary_line};
use boss_opening::{Checked, check};
use boss_outside::Sink;
use boss_pair_find::DurableRefusal;
use boss_points::Catalogue;
use std::alloc::Global;

/// Tells what a journal on two disks stands for, as one line. The disks come back as they were: nothing is written, cut or synced.
pub fn check_on_disks<D: Disk, K: Sink>(
    alloc: Global,
    catalogue: &Catalogue,
    first: D,
    second: D,
    sink: &mut K,
) -> ((D, D), Status)
    ensures { ChecksOver ⟦<K as Sink>⟧ catalogue.now
        (on_disks ⟦<D as Disk>⟧ (first, second)) (on_disks ⟦<D as Disk>⟧ result.0) sink.old sink.new result.1.0 }
{
    let (disks, found) = check(alloc, catalogue, first, second);
    (disks, say_found(alloc, sink, found))
}

/// Tells what was found, or why the journal was refused.
fn say_found<K: Sink>(alloc: Global, sink: &mut K, found: Result<Checked, DurableRefusal>) -> Status
    ensures { TellsFound ⟦<K as Sink>⟧ found sink.old sink.new result.0 }
{
    match found {
        Ok(checked) => say_checked(alloc, sink, checked),
        Err(refusal) => say_journal(alloc, sink, &refusal),
    }
}

/// Tells what a journal stands for.
fn say_checked<K: Sink>(alloc: Global, sink: &mut K, checked: Checked) -> Status
    ensures { TellsLine ⟦<K as Sink>⟧ (checked_line checked) 0 sink.old sink.new result.0 }
{
    match checked {
        Checked::New => say(sink, new_line(), Status::DONE),
        Checked::Found {
            events,
            now,
            leases,
            pending,
        } => match summary_line(alloc, events, now, leases, pending) {
            Ok(line) => say(sink, &line, Status::DONE),
            Err(_) => Status::NO_MEMORY,
        },
    }
}
