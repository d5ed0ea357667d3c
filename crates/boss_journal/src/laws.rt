ghost use Rattle.std.specs.Prelude.{◌≡◌, ◌≢◌, ℕ, ◌+◌, ◌≤◌, ◌<◌, ◌⊎◌, List, [], ◌∷◌, ◌++◌, length};
ghost use Rattle.boss_model.specs.Limits.{longest_record};
ghost use Rattle.def_log.specs.Log.{framed, AreRecords, IsLog, IsClean};
ghost use Rattle.boss_journal.specs.Appends.{BeforeOrAfter};
ghost use Rattle.boss_journal.specs.Clean.{IsCleanLog};
ghost use Rattle.boss_journal.specs.Fronts.{journal_front};
ghost use Rattle.boss_journal.specs.Opens.{IsBare};
ghost use Rattle.boss_journal.specs.Reads.{Repairs};
ghost use Rattle.boss_disk.specs.Window.{Window, overwritten};

/// Whatever a crash leaves of an append is a clean log, without the record or with it.
pub fn an_append_is_whole_or_nothing()
    ensures { (front : List ℕ) (records : List (List ℕ)) (added bytes : List ℕ) → AreRecords records
        → length added ≤ longest_record → BeforeOrAfter front records added bytes
        → IsCleanLog front records bytes ⊎ IsCleanLog front (records ++ added ∷ []) bytes }
{}

/// A record that is written whole leaves the bytes that its two writes leave.
pub fn both_ways_leave_the_same_bytes()
    ensures { (record_bytes held : List ℕ) (place : ℕ) → place < length held
        → overwritten place (1 ∷ (framed record_bytes ++ 0 ∷ [])) held
        ≡ overwritten place (1 ∷ []) (overwritten (place + 1) (framed record_bytes ++ 0 ∷ []) held) }
{}

/// Whatever a crash leaves while the last gate of a clean log is shut is a clean log of the same records; or, where this gate
/// was not 0, of these and the record that stands whole behind it.
pub fn a_repair_keeps_the_records()
    ensures { (front : List ℕ) (records : List (List ℕ)) (held : List ℕ) (clean : IsCleanLog front records held) (bytes : List ℕ)
        → Repairs front records clean.log.gate clean.log.tail bytes
        → IsCleanLog front records bytes
        ⊎ ((clean.log.gate ≢ 0) × ((added : List ℕ) × (more : List ℕ) × (clean.log.tail ≡ framed added ++ 0 ∷ more)
        × IsCleanLog front (records ++ added ∷ []) bytes)) }
{}

/// A journal that was made is a clean log without records.
pub fn a_bare_journal_is_clean()
    ensures { (version : ℕ) (digest bytes : List ℕ) (window : Window) → IsBare version digest bytes window
        → IsCleanLog (journal_front version digest) [] bytes }
{}
