ghost use Rattle.std.specs.Prelude.{◌≡◌, ◌≢◌, ℕ, List, [], ◌∷◌, vec_len};
ghost use Rattle.boss_files.specs.Names.{second_name};
ghost use Rattle.boss_jobs.specs.Jobs.{world};
ghost use Rattle.boss_jobs.specs.Journals.{AsksFront, in_files};
ghost use Rattle.boss_adopt_jobs.specs.Adoptions.{AdoptsOver};
ghost use Rattle.boss_adopt_jobs.specs.AdoptJobs.{AdoptsJournal, AdoptsMemory};

use crate::adopting::adopt_on_disks;
use crate::catalogues::load_both;
use boss_files::{FileFault, Files, close_stores, open_stores, second_name};
use boss_jobs::{Status, Unusable, say, say_refusal};
use boss_journal_lines::new_line;
use boss_outside::{Actuators, Sink, Source};
use boss_points::Catalogue;
use std::alloc::Global;

/// Takes over what a journal in two files stands for under the catalogue of the one file, under that of the other, and tells what
/// came of it.
pub fn adopt_kept<F: Files, S: Source, K: Sink, A: Actuators>(
    alloc: Global,
    old_name: &str,
    new_name: &str,
    journal: &str,
    files: &mut F,
    source: &mut S,
    sink: &mut K,
    devices: &mut Vec<A>,
) -> Status
    ensures { AdoptsJournal F.Files S.Source K.Sink A.Actuators old_name.now new_name.now (vec_len devices.old)
        (world files.old source.old sink.old devices.old.items) (world files.new source.new sink.new devices.new.items) result.0 journal.now }
{
    match load_both(alloc, files, old_name, new_name, devices.len()) {
        Ok(change) => adopt_in_files(alloc, &change.old, &change.new, journal, files, sink),
        Err(Unusable::Refused(refusal)) => say_refusal(alloc, sink, refusal),
        Err(Unusable::FileFault) => Status::FILE_FAULT,
        Err(Unusable::NoMemory) => Status::NO_MEMORY,
    }
}

/// The same of the journal of this name, with both catalogues.
fn adopt_in_files<F: Files, K: Sink>(
    alloc: Global,
    old: &Catalogue,
    new: &Catalogue,
    journal: &str,
    files: &mut F,
    sink: &mut K,
) -> Status
    ensures adopts { AdoptsOver K.Sink old.now new.now
        (in_files F.Files journal.now files.old) (in_files F.Files journal.now files.new) sink.old sink.new result.0 }
    ensures asks { F.tells → AsksFront (journal.now ∷ second_name journal.now ∷ []) (F.asked files.old) (F.asked files.new) }
    ensures others { F.tells → (file : List ℕ) → file ≢ journal.now → file ≢ second_name journal.now → F.holds files.new file ≡ F.holds files.old file }
{
    let Ok(second) = second_name(alloc, journal) else {
        return Status::NO_MEMORY;
    };
    match open_stores(alloc, files, journal, second.as_str()) {
        Ok((first, other)) => {
            let (stores, status) = adopt_on_disks(alloc, old, new, first, other, sink);
            close_stores(files, journal, second.as_str(), stores);
            status
        }
        Err(FileFault::Failed) => Status::FILE_FAULT,
        Err(FileFault::NoMemory) => Status::NO_MEMORY,
    }
}

/// The same of a journal in memory alone, which is new.
pub fn adopt_memory<F: Files, S: Source, K: Sink, A: Actuators>(
    alloc: Global,
    old_name: &str,
    new_name: &str,
    files: &mut F,
    source: &mut S,
    sink: &mut K,
    devices: &mut Vec<A>,
) -> Status
    ensures { AdoptsMemory F.Files S.Source K.Sink A.Actuators old_name.now new_name.now (vec_len devices.old)
        (world files.old source.old sink.old devices.old.items) (world files.new source.new sink.new devices.new.items) result.0 }
{
    match load_both(alloc, files, old_name, new_name, devices.len()) {
        Ok(_change) => say(sink, new_line(), Status::DONE),
        Err(Unusable::Refused(refusal)) => say_refusal(alloc, sink, refusal),
        Err(Unusable::FileFault) => Status::FILE_FAULT,
        Err(Unusable::NoMemory) => Status::NO_MEMORY,
    }
}
