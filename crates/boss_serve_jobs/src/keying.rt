ghost use Rattle.std.specs.Prelude.{◌≡◌, ℕ, List};
ghost use Rattle.boss_keys.specs.Lines.{refusal_line};
ghost use Rattle.boss_jobs.specs.Jobs.{TellsLine};
ghost use Rattle.boss_serve_jobs.specs.Keying.{AsksFor, FaultOnly, Reads, keys_in, reserve_in};

use boss_files::{FileBytes, FileFault, Files};
use boss_jobs::{Status, say};
use boss_keys::{KeyFile, Keys, KeysRefusal, refusal_line};
use boss_outside::Sink;
use std::alloc::Global;

/// How many bytes a file of keys may have.
const LONGEST_FILE: u64 = boss_model::LONGEST_FILE as u64;

/// Why a file gave no keys.
#[derive(Clone, Copy, Debug, PartialEq, Eq)]
pub enum Unkeyed {
    /// The file is there and was refused.
    Refused(KeysRefusal),
    /// The file is not there, or could not be read.
    FileFault,
    /// No memory was to be had.
    NoMemory,
}

/// What a file of keys spells.
pub fn read_keys<F: Files>(alloc: Global, files: &mut F, name: &str) -> Result<KeyFile, Unkeyed>
    ensures reads { F.tells → Reads (F.holds files.old name.now) result }
    ensures asks { F.tells → AsksFor name.now (F.asked files.old) (F.asked files.new) result }
    ensures stays { F.tells → (file : List ℕ) → F.holds files.new file ≡ F.holds files.old file }
    ensures past { F.tells → (file : List ℕ) → F.past files.new file ≡ F.past files.old file }
    ensures cause { FaultOnly (F.faults files.old) (F.faults files.new) result }
{
    let bytes = match files.read(alloc, name, LONGEST_FILE) {
        Ok(FileBytes::Whole(bytes)) => bytes,
        Ok(FileBytes::Longer { length }) => {
            return Err(Unkeyed::Refused(KeysRefusal::TooLong { length }));
        }
        Err(FileFault::Failed) => return Err(Unkeyed::FileFault),
        Err(FileFault::NoMemory) => return Err(Unkeyed::NoMemory),
    };
    match KeyFile::read(alloc, bytes.slice()) {
        Ok(file) => Ok(file),
        Err(KeysRefusal::NoMemory) => Err(Unkeyed::NoMemory),
        Err(refusal) => Err(Unkeyed::Refused(refusal)),
    }
}

/// The keys of a file, if there is one, and how many workers it keeps: none without a file.
pub fn parted(file: Option<KeyFile>) -> (Option<Keys>, u32)
    ensures keys { result.0 ≡ keys_in file }
    ensures reserve { result.1 ≡ reserve_in file }
{
    match file {
        Some(KeyFile { keys, reserve }) => (Some(keys), reserve),
        None => (None, 0),
    }
}

/// Tells why keys were refused.
pub fn say_keys_refusal<K: Sink>(alloc: Global, sink: &mut K, refusal: KeysRefusal) -> Status
    ensures { TellsLine K.Sink (refusal_line refusal) 19 sink.old sink.new result.0 }
{
    match refusal_line(alloc, refusal) {
        Ok(line) => say(sink, &line, Status::KEYS),
        Err(_) => Status::NO_MEMORY,
    }
}
