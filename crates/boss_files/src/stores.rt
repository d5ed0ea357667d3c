ghost use Rattle.std.specs.Prelude.{◌≡◌, ◌≢◌, ◌+◌, ◌++◌, ℕ, List, [], IsSome, IfOk, OnOk, OnErr, unwrap_or};
ghost use Rattle.boss_disk.specs.Window.{settled};
ghost use Rattle.boss_files.specs.Files.{FileCause, windows};
ghost use Rattle.boss_outside.specs.Counts.{Joins};
ghost use Rattle.boss_files.specs.Stores.{AsksBoth, MayBeTried};

use crate::files::{FileFault, Files};
use boss_disk::Disk;
use std::alloc::Global;

/// Opens the files under these two names, the journal's first and its second. A file that is not there is opened as an empty one.
/// Where the second comes to nothing the first is given back.
pub fn open_stores<F: Files>(
    alloc: Global,
    files: &mut F,
    journal: &str,
    second: &str,
) -> Result<(F::Store, F::Store), FileFault>
    requires { journal.now ≢ second.now }
    ensures told { F.tells → F.Store.tells }
    ensures first_bytes { F.tells → IfOk result (λ stores. F.Store.reads stores.0 ≡ unwrap_or (F.holds files.old journal.now) []) }
    ensures second_bytes { F.tells → IfOk result (λ stores. F.Store.reads stores.1 ≡ unwrap_or (F.holds files.old second.now) []) }
    // All of both outlasts a crash.
    ensures settled { F.tells → IfOk result (λ stores. ((F.Store.story stores.0).window ≡ settled (F.Store.reads stores.0))
        × ((F.Store.story stores.1).window ≡ settled (F.Store.reads stores.1))) }
    // No call of either went by yet.
    ensures begin { F.tells → IfOk result (λ stores. ((F.Store.story stores.0).past ≡ []) × ((F.Store.story stores.1).past ≡ [])) }
    ensures fresh { IfOk result (λ stores. (F.Store.faults stores.0 ≡ 0) × (F.Store.faults stores.1 ≡ 0)) }
    // Both may be given back.
    ensures there { F.tells → OnOk result (IsSome (F.holds files.new journal.now) × IsSome (F.holds files.new second.now)) }
    // No file changes, but that an empty one may stand where there was none.
    ensures keeps { F.tells → (file : List ℕ) → unwrap_or (F.holds files.new file) [] ≡ unwrap_or (F.holds files.old file) [] }
    ensures stays { F.tells → (file : List ℕ) → file ≢ journal.now → file ≢ second.now → F.holds files.new file ≡ F.holds files.old file }
    // Where both are opened nothing more is told of any file. Where they are not, maybe that a store of the first was given back as it
    // was opened.
    ensures past { F.tells → OnOk result ((file : List ℕ) → F.past files.new file ≡ F.past files.old file) }
    ensures whole { F.tells → OnOk result ((F.whole files.old → F.whole files.new) × (F.whole files.new → F.whole files.old)) }
    ensures tried { F.tells → F.whole files.new → OnErr result (F.whole files.old
        × MayBeTried (unwrap_or (F.holds files.old journal.now) []) (F.past files.old journal.now) (F.past files.new journal.now)) }
    ensures others { F.tells → (file : List ℕ) → file ≢ journal.now → F.past files.new file ≡ F.past files.old file }
    ensures asks { F.tells → AsksBoth (F.asked files.old) (F.asked files.new) journal.now second.now result }
    ensures cause { FileCause (F.faults files.old) (F.faults files.new) result }
{
    let first = files.disk(alloc, journal)?;
    match files.disk(alloc, second) {
        Ok(other) => Ok((first, other)),
        Err(fault) => {
            files.close(journal, first);
            Err(fault)
        }
    }
}

/// Gives both back, each under its name. From then on the files hold what the stores read, and tell what a crash might have left of
/// them meanwhile.
pub fn close_stores<F: Files>(
    files: &mut F,
    journal: &str,
    second: &str,
    stores: (F::Store, F::Store),
)
    requires apart { journal.now ≢ second.now }
    requires there { F.tells → IsSome (F.holds files.old journal.now) × IsSome (F.holds files.old second.now) }
    ensures first_bytes { F.tells → F.holds files.new journal.now ≡ Some (F.Store.reads stores.0) }
    ensures second_bytes { F.tells → F.holds files.new second.now ≡ Some (F.Store.reads stores.1) }
    ensures stays { F.tells → (file : List ℕ) → file ≢ journal.now → file ≢ second.now → F.holds files.new file ≡ F.holds files.old file }
    ensures gains { F.tells → F.whole files.new → F.whole files.old
        × (F.past files.new journal.now ≡ F.past files.old journal.now ++ windows (F.Store.story stores.0))
        × (F.past files.new second.now ≡ F.past files.old second.now ++ windows (F.Store.story stores.1)) }
    ensures past { F.tells → (file : List ℕ) → file ≢ journal.now → file ≢ second.now → F.past files.new file ≡ F.past files.old file }
    ensures asks { F.tells → F.asked files.new ≡ F.asked files.old }
    // The count rises exactly where a call of one of the stores failed.
    ensures cause { Joins (F.faults files.old) (F.Store.faults stores.0 + F.Store.faults stores.1) (F.faults files.new) }
{
    let (first, other) = stores;
    files.close(journal, first);
    files.close(second, other);
}
