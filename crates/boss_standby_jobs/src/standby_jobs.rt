ghost use Rattle.std.specs.Prelude.{◌≡◌, ◌≢◌, ℕ, List, [], ◌∷◌, IfOk, vec_len};
ghost use Rattle.boss_disk.specs.Window.{settled};
ghost use Rattle.boss_files.specs.Names.{second_name};
ghost use Rattle.boss_jobs.specs.Jobs.{world};
ghost use Rattle.boss_jobs.specs.Journals.{AsksFront, in_files};
ghost use Rattle.boss_standby_jobs.specs.Followings.{empty_disk, FollowsNew, FollowsOver, streams};
ghost use Rattle.boss_standby_jobs.specs.StandbyJobs.{DoesStandby, StandbyMemory};

use crate::following::standby_on_disks;
use boss_disk::{Disk, MemoryDisk};
use boss_files::{FileFault, Files, close_stores, open_stores, second_name};
use boss_jobs::{Status, Unusable, load, say_refusal};
use boss_model::{Items, NoMemory};
use boss_outside::{Actuators, Sink, Source};
use boss_points::Catalogue;
use std::alloc::Global;

/// Has a journal in two files, under the catalogue of a file, follow the feed of a source, and tells what it came to.
pub fn standby_kept<F: Files, S: Source, K: Sink, A: Actuators>(
    alloc: Global,
    name: &str,
    journal: &str,
    files: &mut F,
    source: &mut S,
    sink: &mut K,
    devices: &mut Vec<A>,
) -> Status
    ensures { DoesStandby F.Files S.Source K.Sink A.Actuators name.now journal.now (vec_len devices.old)
        (world files.old source.old sink.old devices.old.items) (world files.new source.new sink.new devices.new.items) result.0 }
{
    match load(alloc, files, name, devices.len()) {
        Ok(catalogue) => follow_in_files(alloc, &catalogue, journal, files, source, sink),
        Err(Unusable::Refused(refusal)) => say_refusal(alloc, sink, refusal),
        Err(Unusable::FileFault) => Status::FILE_FAULT,
        Err(Unusable::NoMemory) => Status::NO_MEMORY,
    }
}

/// The same of the journal of this name, with the catalogue.
fn follow_in_files<F: Files, S: Source, K: Sink>(
    alloc: Global,
    catalogue: &Catalogue,
    journal: &str,
    files: &mut F,
    source: &mut S,
    sink: &mut K,
) -> Status
    ensures follows { FollowsOver S.Source K.Sink catalogue.now
        (in_files F.Files journal.now files.old) (in_files F.Files journal.now files.new)
        (streams source.old sink.old) (streams source.new sink.new) result.0 }
    ensures asks { F.tells → AsksFront (journal.now ∷ second_name journal.now ∷ []) (F.asked files.old) (F.asked files.new) }
    ensures others { F.tells → (file : List ℕ) → file ≢ journal.now → file ≢ second_name journal.now → F.holds files.new file ≡ F.holds files.old file }
{
    let Ok(second) = second_name(alloc, journal) else {
        return Status::NO_MEMORY;
    };
    match open_stores(alloc, files, journal, second.as_str()) {
        Ok((first, other)) => {
            let (stores, status) = standby_on_disks(alloc, catalogue, first, other, source, sink);
            close_stores(files, journal, second.as_str(), stores);
            status
        }
        Err(FileFault::Failed) => Status::FILE_FAULT,
        Err(FileFault::NoMemory) => Status::NO_MEMORY,
    }
}

/// The same of a journal in memory alone, which is new: what was followed is gone with the program.
pub fn standby_memory<F: Files, S: Source, K: Sink, A: Actuators>(
    alloc: Global,
    name: &str,
    files: &mut F,
    source: &mut S,
    sink: &mut K,
    devices: &mut Vec<A>,
) -> Status
    ensures { StandbyMemory F.Files S.Source K.Sink A.Actuators name.now (vec_len devices.old)
        (world files.old source.old sink.old devices.old.items) (world files.new source.new sink.new devices.new.items) result.0 }
{
    match load(alloc, files, name, devices.len()) {
        Ok(catalogue) => follow_in_memory(alloc, &catalogue, source, sink),
        Err(Unusable::Refused(refusal)) => say_refusal(alloc, sink, refusal),
        Err(Unusable::FileFault) => Status::FILE_FAULT,
        Err(Unusable::NoMemory) => Status::NO_MEMORY,
    }
}

/// The same with the catalogue.
fn follow_in_memory<S: Source, K: Sink>(
    alloc: Global,
    catalogue: &Catalogue,
    source: &mut S,
    sink: &mut K,
) -> Status
    ensures { FollowsNew S.Source K.Sink catalogue.now (streams source.old sink.old) (streams source.new sink.new) result.0 }
{
    match two_disks(alloc) {
        Ok((first, second)) => follow_new(alloc, catalogue, first, second, source, sink),
        Err(NoMemory) => Status::NO_MEMORY,
    }
}

/// The same over two disks that hold nothing, and fail for want of memory alone.
fn follow_new<D: Disk + Drop, S: Source, K: Sink>(
    alloc: Global,
    catalogue: &Catalogue,
    first: D,
    second: D,
    source: &mut S,
    sink: &mut K,
) -> Status
    requires tells { D.tells }
    requires empty { (D.reads first ≡ []) × (D.reads second ≡ []) }
    requires synced { ((D.story first).window ≡ settled (D.reads first)) × ((D.story second).window ≡ settled (D.reads second)) }
    requires fresh { (D.faults first ≡ 0) × (D.faults second ≡ 0) }
    ensures { FollowsNew S.Source K.Sink catalogue.now (streams source.old sink.old) (streams source.new sink.new) result.0 }
{
    let (_, status) = standby_on_disks(alloc, catalogue, first, second, source, sink);
    if status == Status::FILE_FAULT {
        Status::NO_MEMORY
    } else {
        status
    }
}

/// Two disks in memory that hold nothing.
fn two_disks(alloc: Global) -> Result<(MemoryDisk, MemoryDisk), NoMemory>
    ensures { IfOk result (λ disks. (disks.0 ≡ empty_disk) × (disks.1 ≡ empty_disk)) }
{
    let first = MemoryDisk::new(alloc, Items::new(alloc), Items::new(alloc))?;
    let second = MemoryDisk::new(alloc, Items::new(alloc), Items::new(alloc))?;
    Ok((first, second))
}
