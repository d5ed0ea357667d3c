ghost use Rattle.std.specs.Prelude.{◌≡◌, ℕ, List, [], ◌∷◌, vec_len};
ghost use Rattle.boss_files.specs.Names.{second_name};
ghost use Rattle.boss_jobs.specs.Checks.{KeepsFiles};
ghost use Rattle.boss_jobs.specs.Jobs.{world};
ghost use Rattle.boss_jobs.specs.Journals.{AsksFront, in_files};
ghost use Rattle.boss_standby_jobs.specs.FeedJobs.{FeedsJournal, FeedsMemory};
ghost use Rattle.boss_standby_jobs.specs.Feeds.{FeedsOver};

use crate::feeding::feed_on_disks;
use boss_files::{FileFault, Files, close_stores, open_stores, second_name};
use boss_jobs::{Status, Unusable, load, say_refusal};
use boss_outside::{Actuators, Sink, Source};
use boss_points::Catalogue;
use std::alloc::Global;

/// Tells what a journal in two files stands for, under the catalogue of a file, as a feed above `from`. The files stay as they are.
pub fn feed_kept<F: Files, S: Source, K: Sink, A: Actuators>(
    alloc: Global,
    name: &str,
    journal: &str,
    from: u64,
    files: &mut F,
    source: &mut S,
    sink: &mut K,
    devices: &mut Vec<A>,
) -> Status
    ensures { FeedsJournal F.Files S.Source K.Sink A.Actuators name.now journal.now from (vec_len devices.old)
        (world files.old source.old sink.old devices.old.items) (world files.new source.new sink.new devices.new.items) result.0 }
{
    match load(alloc, files, name, devices.len()) {
        Ok(catalogue) => feed_in_files(alloc, &catalogue, journal, from, files, sink),
        Err(Unusable::Refused(refusal)) => say_refusal(alloc, sink, refusal),
        Err(Unusable::FileFault) => Status::FILE_FAULT,
        Err(Unusable::NoMemory) => Status::NO_MEMORY,
    }
}

/// The same of the journal of this name, with the catalogue.
fn feed_in_files<F: Files, K: Sink>(
    alloc: Global,
    catalogue: &Catalogue,
    journal: &str,
    from: u64,
    files: &mut F,
    sink: &mut K,
) -> Status
    ensures feeds { FeedsOver K.Sink catalogue.now from
        (in_files F.Files journal.now files.old) (in_files F.Files journal.now files.new) sink.old sink.new result.0 }
    ensures asks { F.tells → AsksFront (journal.now ∷ second_name journal.now ∷ []) (F.asked files.old) (F.asked files.new) }
    ensures keeps { KeepsFiles F.Files files.old files.new }
{
    let Ok(second) = second_name(alloc, journal) else {
        return Status::NO_MEMORY;
    };
    match open_stores(alloc, files, journal, second.as_str()) {
        Ok((first, other)) => {
            let (stores, status) = feed_on_disks(alloc, catalogue, first, other, from, sink);
            close_stores(files, journal, second.as_str(), stores);
            status
        }
        Err(FileFault::Failed) => Status::FILE_FAULT,
        Err(FileFault::NoMemory) => Status::NO_MEMORY,
    }
}

/// The same of a journal in memory alone, which is new: its feed is empty.
pub fn feed_memory<F: Files, S: Source, K: Sink, A: Actuators>(
    alloc: Global,
    name: &str,
    files: &mut F,
    source: &mut S,
    sink: &mut K,
    devices: &mut Vec<A>,
) -> Status
    ensures { FeedsMemory F.Files S.Source K.Sink A.Actuators name.now (vec_len devices.old)
        (world files.old source.old sink.old devices.old.items) (world files.new source.new sink.new devices.new.items) result.0 }
{
    match load(alloc, files, name, devices.len()) {
        Ok(_catalogue) => Status::DONE,
        Err(Unusable::Refused(refusal)) => say_refusal(alloc, sink, refusal),
        Err(Unusable::FileFault) => Status::FILE_FAULT,
        Err(Unusable::NoMemory) => Status::NO_MEMORY,
    }
}
