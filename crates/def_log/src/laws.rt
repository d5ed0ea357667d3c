ghost use Rattle.std.specs.Prelude.{◌≡◌, ℕ, ◌+◌, ◌^◌, ◌<◌, ◌%◌, List};
ghost use Rattle.def_log.specs.declared.kind.DiskKind.TheVariants.{State};
ghost use Rattle.def_log.specs.InForce.{First, Second};
ghost use Rattle.def_log.specs.Kinds.{in_force};
ghost use Rattle.def_log.specs.Log.{IsDamaged, IsLog};
ghost use Rattle.def_log.specs.Versions.{newest_version};

use crate::NEWEST_VERSION;

/// The records of a log are determined by its bytes, and so is where they are damaged; and no log is damaged.
pub fn a_log_has_its_records_alone()
    ensures log { (front bytes : List ℕ) (records others : List (List ℕ)) → IsLog front records bytes → IsLog front others bytes →
        records ≡ others }
    ensures damaged { (front bytes : List ℕ) (records others : List (List ℕ)) → IsDamaged front records bytes →
        IsDamaged front others bytes → records ≡ others }
    ensures apart { (front bytes : List ℕ) (records others : List (List ℕ)) → IsLog front records bytes → IsDamaged front others bytes → ⊥ }
{}

/// Of two kept states the one that follows the other is in force, whichever disk it stands on; generations count modulo 2^64.
pub fn a_pair_has_one_disk_in_force()
    ensures second { (g : ℕ) → g < 2 ^ 64 → in_force (State g) (State ((g + 1) % 2 ^ 64)) ≡ Second }
    ensures first { (g : ℕ) → g < 2 ^ 64 → in_force (State ((g + 1) % 2 ^ 64)) (State g) ≡ First }
{}

/// The version that the code writes is the one of the definitions.
pub fn new_journals_are_of_the_newest_version()
    ensures { NEWEST_VERSION ≡ newest_version }
{}
