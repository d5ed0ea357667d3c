ghost use Rattle.std.specs.Prelude.{◌≡◌, ◌≢◌, ℕ, List, [], ◌++◌, Option, Some, IsSome, IfOk, unwrap_or};
ghost use Rattle.boss_outside.specs.Counts.{Joins};
ghost use Rattle.boss_disk.specs.Window.{Window, settled};
ghost use Rattle.boss_files.specs.Files.{KeepsLimit, ReadsFile, FileCause, Asks, opened, windows};

use boss_disk::Disk;
use boss_model::{Items, NoMemory};
use boss_outside::Failed;
use std::alloc::{AllocError, Global};
use std::error::Error;
use std::fmt;

/// What was read of a file.
#[derive(Debug, Drop)]
pub enum FileBytes {
    /// All its bytes.
    Whole(Items<u8>),
    /// No byte, but its length, which is above the limit.
    Longer { length: u64 },
}

/// Why a call of the files came to nothing.
#[derive(Clone, Copy, Debug, PartialEq, Eq)]
pub enum FileFault {
    /// There is no such file, or it can't be read or opened. The count of faults rose.
    Failed,
    /// No memory was to be had. The count of faults stayed.
    NoMemory,
}

impl fmt::Display for FileFault {
    fn fmt<W: fmt::Write>(&self, f: &mut fmt::Formatter<W>) -> fmt::Result {
        f.write_str(match self {
            FileFault::Failed => "the file is not there, or failed",
            FileFault::NoMemory => "out of memory",
        })
    }
}

impl Error for FileFault {}

impl From<Failed> for FileFault {
    ghost use Rattle.boss_files.specs.declared.files.FileFault.TheVariants.{Failed};

    ghost from_gives = { λ _ fault. fault ≡ Failed };

    fn from(_failed: Failed) -> Self {
        FileFault::Failed
    }
}

impl From<NoMemory> for FileFault {
    ghost use Rattle.boss_files.specs.declared.files.FileFault.TheVariants.{NoMemory};

    ghost from_gives = { λ _ fault. fault ≡ NoMemory };

    fn from(_error: NoMemory) -> Self {
        FileFault::NoMemory
    }
}

impl From<AllocError> for FileFault {
    ghost use Rattle.boss_files.specs.declared.files.FileFault.TheVariants.{NoMemory};

    ghost from_gives = { λ _ fault. fault ≡ NoMemory };

    fn from(_error: AllocError) -> Self {
        FileFault::NoMemory
    }
}

/// The files that a program is given, each under its name.
pub trait Files {
    /// A file that is kept open, until it is given back.
    type Store: Disk;

    /// That the values of this type tell what the files hold. A form in memory does; a real one can't.
    ghost tells: { Type 0 };

    /// The bytes of the file under a name, where there is one.
    ghost holds: { Self → List ℕ → Option (List ℕ) };

    /// What a crash might have left of the file under a name, while stores of it were open that were given back: their windows,
    /// oldest first.
    ghost past: { Self → List ℕ → List Window };

    /// That no store is missing among them. A form in memory leaves out one that it has no memory to keep, and its record is never
    /// whole again.
    ghost whole: { Self → Type 0 };

    /// The names that were asked for so far, in order.
    ghost asked: { Self → List (List ℕ) };

    /// The number of calls that failed, with those of the stores that were given back, up to `2 ^ 64 - 1`, where it
    /// stands still. Calls of a store count once, however many of them failed.
    ghost faults: { Self → ℕ };

    /// Reads the file under this name where it has at most `limit` bytes, and else tells its length.
    fn read(&mut self, alloc: Global, name: &str, limit: u64) -> Result<FileBytes, FileFault>
        ensures within { IfOk result (KeepsLimit limit) }
        ensures bytes { tells → IfOk result (ReadsFile (holds self.old name.now)) }
        ensures stays { tells → (file : List ℕ) → holds self.new file ≡ holds self.old file }
        ensures past { tells → (file : List ℕ) → past self.new file ≡ past self.old file }
        ensures whole { tells → (whole self.old → whole self.new) × (whole self.new → whole self.old) }
        ensures asks { tells → Asks (asked self.old) (asked self.new) name.now result }
        ensures cause { FileCause (faults self.old) (faults self.new) result };

    /// Opens the file under this name. Where there is none, an empty one is opened. After it `close` of this name takes
    /// no memory.
    fn disk(&mut self, alloc: Global, name: &str) -> Result<Self::Store, FileFault>
        ensures told { tells → Self.Store.tells }
        ensures bytes { tells → IfOk result (λ store. Self.Store.reads store ≡ unwrap_or (holds self.old name.now) []) }
        // All of it outlasts a crash.
        ensures settled { tells → IfOk result (λ store. (Self.Store.story store).window ≡ settled (Self.Store.reads store)) }
        // No call of it went by yet.
        ensures begins { tells → IfOk result (λ store. (Self.Store.story store).past ≡ []) }
        ensures fresh { IfOk result (λ store. Self.Store.faults store ≡ 0) }
        ensures there { tells → holds self.new name.now ≡ opened (holds self.old name.now) result }
        ensures stays { tells → (file : List ℕ) → file ≢ name.now → holds self.new file ≡ holds self.old file }
        ensures past { tells → (file : List ℕ) → past self.new file ≡ past self.old file }
        ensures whole { tells → (whole self.old → whole self.new) × (whole self.new → whole self.old) }
        ensures asks { tells → Asks (asked self.old) (asked self.new) name.now result }
        ensures cause { FileCause (faults self.old) (faults self.new) result };

    /// Takes a store back as the file under this name, which holds from then on what the store reads, and tells what a crash might
    /// have left of it meanwhile.
    fn close(&mut self, name: &str, store: Self::Store)
        requires { tells → IsSome (holds self.old name.now) }
        ensures bytes { tells → holds self.new name.now ≡ Some (Self.Store.reads store) }
        ensures stays { tells → (file : List ℕ) → file ≢ name.now → holds self.new file ≡ holds self.old file }
        // As long as the record is whole it was so before, and it gained the windows of the store.
        ensures gains { tells → whole self.new → whole self.old × (past self.new name.now ≡ past self.old name.now ++ windows (Self.Store.story store)) }
        ensures past { tells → (file : List ℕ) → file ≢ name.now → past self.new file ≡ past self.old file }
        ensures asks { tells → asked self.new ≡ asked self.old }
        ensures cause { Joins (faults self.old) (Self.Store.faults store) (faults self.new) };
}
