ghost use Rattle.std.specs.Prelude.{◌≡◌, ℕ, List};
ghost use Rattle.boss_access.specs.Lines.{refusal_line};
ghost use Rattle.boss_jobs.specs.Jobs.{TellsLine};
ghost use Rattle.boss_serve_jobs.specs.Ruling.{AsksFor, FaultOnly, Reads};

use boss_access::{Rules, RulesRefusal, refusal_line};
use boss_files::{FileBytes, FileFault, Files};
use boss_jobs::{Status, say};
use boss_outside::Sink;
use std::alloc::Global;

/// How many bytes a file of rules may have.
const LONGEST_FILE: u64 = boss_model::LONGEST_FILE as u64;

/// Why a file gave no rules.
#[derive(Clone, Copy, Debug, PartialEq, Eq)]
pub enum Unruled {
    /// The file is there and was refused.
    Refused(RulesRefusal),
    /// The file is not there, or could not be read.
    FileFault,
    /// No memory was to be had.
    NoMemory,
}

/// The rules of a file.
pub fn read_rules<F: Files>(alloc: Global, files: &mut F, name: &str) -> Result<Rules, Unruled>
    ensures reads { F.tells → Reads (F.holds files.old name.now) result }
    ensures asks { F.tells → AsksFor name.now (F.asked files.old) (F.asked files.new) result }
    ensures stays { F.tells → (file : List ℕ) → F.holds files.new file ≡ F.holds files.old file }
    ensures past { F.tells → (file : List ℕ) → F.past files.new file ≡ F.past files.old file }
    ensures cause { FaultOnly (F.faults files.old) (F.faults files.new) result }
{
    let bytes = match files.read(alloc, name, LONGEST_FILE) {
        Ok(FileBytes::Whole(bytes)) => bytes,
        Ok(FileBytes::Longer { length }) => {
            return Err(Unruled::Refused(RulesRefusal::TooLong { length }));
        }
        Err(FileFault::Failed) => return Err(Unruled::FileFault),
        Err(FileFault::NoMemory) => return Err(Unruled::NoMemory),
    };
    match Rules::read(alloc, bytes.slice()) {
        Ok(rules) => Ok(rules),
        Err(RulesRefusal::NoMemory) => Err(Unruled::NoMemory),
        Err(refusal) => Err(Unruled::Refused(refusal)),
    }
}

/// Tells why rules were refused.
pub fn say_rules_refusal<K: Sink>(alloc: Global, sink: &mut K, refusal: RulesRefusal) -> Status
    ensures { TellsLine K.Sink (refusal_line refusal) 16 sink.old sink.new result.0 }
{
    match refusal_line(alloc, refusal) {
        Ok(line) => say(sink, &line, Status::RULES),
        Err(_) => Status::NO_MEMORY,
    }
}
