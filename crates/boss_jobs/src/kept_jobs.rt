ghost use Rattle.std.specs.Prelude.{◌≡◌, ◌≢◌, ℕ, List, [], ◌∷◌, vec_len};
ghost use Rattle.boss_model.specs.Catalogue.{actuators};
ghost use Rattle.boss_scripts.specs.Devices.{HasDevices};
ghost use Rattle.boss_files.specs.Names.{second_name};
ghost use Rattle.boss_jobs.specs.Checks.{ChecksJournal, KeepsFiles};
ghost use Rattle.boss_jobs.specs.Jobs.{world};
ghost use Rattle.boss_jobs.specs.Journals.{AsksFront, beside, ChecksOver, in_files, RunsOver};
ghost use Rattle.boss_jobs.specs.KeptScripts.{DoesKeptScript};

use crate::Status;
use crate::catalogue::{Unusable, load};
use crate::checking::check_on_disks;
use crate::journal::script_on_disks;
use crate::saying::say_refusal;
use boss_files::{FileFault, Files, close_stores, open_stores, second_name};
use boss_model::NoMemory;
use boss_outside::{Actuators, Hears, Sink, Source};
use boss_points::Catalogue;
use std::alloc::Global;

/// Runs the script of a catalogue's file over a journal that is kept in two files: that of its name, and that of its name with `.b`
/// behind it.
pub fn do_kept_script<F: Files, S: Hears<K>, K: Sink, A: Actuators>(
    alloc: Global,
    name: &str,
    journal: &str,
    files: &mut F,
    source: &mut S,
    sink: &mut K,
    devices: &mut Vec<A>,
) -> Status
    ensures { DoesKeptScript ⟦<F as Files>⟧ ⟦<S as Source>⟧ ⟦<K as Sink>⟧ ⟦<A as Actuators>⟧ name.now journal.now (vec_len devices.old)
        (world files.old source.old sink.old devices.old.items) (world files.new source.new sink.new devices.new.items) result.0 }
{
    match load(alloc, files, name, devices.len()) {
        Ok(catalogue) => run_in_files(alloc, &catalogue, journal, files, source, sink, devices),
        Err(Unusable::Refused(refusal)) => say_refusal(alloc, sink, refusal),
        Err(Unusable::FileFault) => Status::FILE_FAULT,
        Err(Unusable::NoMemory) => Status::NO_MEMORY,
    }
}

/// Runs a script over the journal of this name.
fn run_in_files<F: Files, S: Hears<K>, K: Sink, A: Actuators>(
    alloc: Global,
    catalogue: &Catalogue,
    journal: &str,
    files: &mut F,
    source: &mut S,
    sink: &mut K,
    devices: &mut Vec<A>,
) -> Status
    requires { HasDevices (vec_len devices.old) (actuators catalogue.now) }
    ensures runs { RunsOver ⟦<S as Source>⟧ ⟦<K as Sink>⟧ ⟦<A as Actuators>⟧ catalogue.now
        (in_files ⟦<F as Files>⟧ journal.now files.old) (in_files ⟦<F as Files>⟧ journal.now files.new)
        (beside source.old sink.old devices.old.items) (beside source.new sink.new devices.new.items) result.0 }
    ensures asks { F.tells → AsksFront (journal.now ∷ second_name journal.now ∷ []) (F.asked files.old) (F.asked files.new) }
    ensures others { F.tells → (file : List ℕ) → file ≢ journal.now → file ≢ second_name journal.now → F.holds files.new file ≡ F.holds files.old file }
{
    let Ok(second) = second_name(alloc, journal) else {
        return Status::NO_MEMORY;
    };
    match open_stores(alloc, files, journal, second.as_str()) {
        Ok((first, other)) => {
            let (stores, status) = script_on_disks(
                alloc, catalogue, first, other, source, sink, devices,
            );
            close_stores(files, journal, second.as_str(), stores);
            status
        }
        Err(FileFault::Failed) => Status::FILE_FAULT,
        Err(FileFault::NoMemory) => Status::NO_MEMORY,
    }
}

/// Tells what a journal in two files stands for under the catalogue of a file. They stay as they are.
pub fn check_kept<F: Files, S: Source, K: Sink, A: Actuators>(
    alloc: Global,
    name: &str,
    journal: &str,
    files: &mut F,
    source: &mut S,
    sink: &mut K,
    devices: &mut Vec<A>,
) -> Status
    ensures { ChecksJournal ⟦<F as Files>⟧ ⟦<S as Source>⟧ ⟦<K as Sink>⟧ ⟦<A as Actuators>⟧ name.now journal.now (vec_len devices.old)
        (world files.old source.old sink.old devices.old.items) (world files.new source.new sink.new devices.new.items) result.0 }
{
    match load(alloc, files, name, devices.len()) {
        Ok(catalogue) => check_in_files(alloc, &catalogue, journal, files, sink),
        Err(Unusable::Refused(refusal)) => say_refusal(alloc, sink, refusal),
        Err(Unusable::FileFault) => Status::FILE_FAULT,
        Err(Unusable::NoMemory) => Status::NO_MEMORY,
    }
}

/// Tells what the journal of this name stands for.
fn check_in_files<F: Files, K: Sink>(
    alloc: Global,
    catalogue: &Catalogue,
    journal: &str,
    files: &mut F,
    sink: &mut K,
) -> Status
    ensures checks { ChecksOver ⟦<K as Sink>⟧ catalogue.now
        (in_files ⟦<F as Files>⟧ journal.now files.old) (in_files ⟦<F as Files>⟧ journal.now files.new) sink.old sink.new result.0 }
    ensures asks { F.tells → AsksFront (journal.now ∷ second_name journal.now ∷ []) (F.asked files.old) (F.asked files.new) }
    ensures keeps { KeepsFiles ⟦<F as Files>⟧ files.old files.new }
{
    let Ok(second) = second_name(alloc, journal) else {
        return Status::NO_MEMORY;
    };
    match open_stores(alloc, files, journal, second.as_str()) {
        Ok((first, other)) => {
            let (stores, status) = check_on_disks(alloc, catalogue, first, other, sink);
            close_stores(files, journal, second.as_str(), stores);
            status
        }
        Err(FileFault::Failed) => Status::FILE_FAULT,
        Err(FileFault::NoMemory) => Status::NO_MEMORY,
    }
}
