ghost use Rattle.std.specs.Prelude.{◌≡◌, ◌≢◌, ℕ, List, [], ◌∷◌, vec_len};
ghost use Rattle.boss_files.specs.Names.{second_name};
ghost use Rattle.boss_jobs.specs.Jobs.{world};
ghost use Rattle.boss_jobs.specs.Journals.{AsksFront, in_files};
ghost use Rattle.boss_shift_jobs.specs.ShiftJobs.{ShiftsJournal};
ghost use Rattle.boss_shift_jobs.specs.Shifts.{ShiftsOver};

use crate::shifting::shift_on_disks;
use boss_files::{FileFault, Files, close_stores, open_stores, second_name};
use boss_jobs::{Status, Unusable, load, say_refusal};
use boss_outside::{Actuators, Sink, Source};
use boss_points::Catalogue;
use std::alloc::Global;

/// Takes all moments of what a journal in two files stands for, under the catalogue of a file, back by so many milliseconds, and tells
/// what came of it.
pub fn shift_kept<F: Files, S: Source, K: Sink, A: Actuators>(
    alloc: Global,
    name: &str,
    journal: &str,
    by: u64,
    files: &mut F,
    source: &mut S,
    sink: &mut K,
    devices: &mut Vec<A>,
) -> Status
    ensures { ShiftsJournal F.Files S.Source K.Sink A.Actuators name.now journal.now by (vec_len devices.old)
        (world files.old source.old sink.old devices.old.items) (world files.new source.new sink.new devices.new.items) result.0 }
{
    match load(alloc, files, name, devices.len()) {
        Ok(catalogue) => shift_in_files(alloc, &catalogue, journal, by, files, sink),
        Err(Unusable::Refused(refusal)) => say_refusal(alloc, sink, refusal),
        Err(Unusable::FileFault) => Status::FILE_FAULT,
        Err(Unusable::NoMemory) => Status::NO_MEMORY,
    }
}

/// The same of the journal of this name, with the catalogue.
fn shift_in_files<F: Files, K: Sink>(
    alloc: Global,
    catalogue: &Catalogue,
    journal: &str,
    by: u64,
    files: &mut F,
    sink: &mut K,
) -> Status
    ensures shifts { ShiftsOver K.Sink catalogue.now by
        (in_files F.Files journal.now files.old) (in_files F.Files journal.now files.new) sink.old sink.new result.0 }
    ensures asks { F.tells → AsksFront (journal.now ∷ second_name journal.now ∷ []) (F.asked files.old) (F.asked files.new) }
    ensures others { F.tells → (file : List ℕ) → file ≢ journal.now → file ≢ second_name journal.now → F.holds files.new file ≡ F.holds files.old file }
{
    let Ok(second) = second_name(alloc, journal) else {
        return Status::NO_MEMORY;
    };
    match open_stores(alloc, files, journal, second.as_str()) {
        Ok((first, other)) => {
            let (stores, status) = shift_on_disks(alloc, catalogue, by, first, other, sink);
            close_stores(files, journal, second.as_str(), stores);
            status
        }
        Err(FileFault::Failed) => Status::FILE_FAULT,
        Err(FileFault::NoMemory) => Status::NO_MEMORY,
    }
}
