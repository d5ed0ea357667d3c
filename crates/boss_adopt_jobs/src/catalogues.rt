ghost use Rattle.std.specs.Prelude.{◌≡◌, ℕ, List};
ghost use Rattle.boss_adopt_jobs.specs.Loads.{AsksBoth, BothCause, LoadsBoth};

use boss_files::Files;
use boss_jobs::{Unusable, load};
use boss_points::Catalogue;
use std::alloc::Global;

/// A catalogue, and the one that is to take its place.
#[derive(Drop)]
pub struct Change {
    pub old: Catalogue,
    pub new: Catalogue,
}

/// The catalogues of two files, each of whose points is behind a driver that has one of so many devices. Where the old one can't be
/// used the new one is not asked for.
pub fn load_both<F: Files>(
    alloc: Global,
    files: &mut F,
    old_name: &str,
    new_name: &str,
    devices: usize,
) -> Result<Change, Unusable>
    ensures loads { LoadsBoth F.Files devices files.old old_name.now new_name.now result }
    ensures asks { F.tells → AsksBoth old_name.now new_name.now (F.asked files.old) (F.asked files.new) result }
    ensures stays { F.tells → (file : List ℕ) → F.holds files.new file ≡ F.holds files.old file }
    ensures past { F.tells → (file : List ℕ) → F.past files.new file ≡ F.past files.old file }
    ensures cause { BothCause (F.faults files.old) (F.faults files.new) result }
{
    match load(alloc, files, old_name, devices) {
        Ok(old) => match load(alloc, files, new_name, devices) {
            Ok(new) => Ok(Change { old, new }),
            Err(unusable) => Err(unusable),
        },
        Err(unusable) => Err(unusable),
    }
}
