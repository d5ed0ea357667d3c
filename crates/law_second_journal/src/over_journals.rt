ghost use Rattle.std.specs.Prelude.{◌≡◌, ℕ, false, List};
ghost use Rattle.def_history.specs.declared.entry.Entry.{Entry};
ghost use Rattle.def_history.specs.History.{IsLegal, is_broken, run};
ghost use Rattle.boss_model.specs.Catalogue.{Catalogue, actuators};
ghost use Rattle.boss_jobs.specs.Journals.{Beside, HoldSame, in_files, RanJournal};
ghost use Rattle.law_second_script.specs.Asking.{OnlyAsks, answered, asked};

use boss_files::Files;
use boss_outside::{Actuators, Sink, Source};

/// A script runs over the journal that an earlier one left, in which no disk failed, and only asks. Then it is answered what the
/// earlier one would have been answered, had it gone on with rows that ask the same: the same questions, the clock as far at each.
/// A reading's mark aside, the stop and the new start between the two can be told from no answer, though all devices were written
/// anew.
pub fn what_a_second_script_is_answered<F: Files, S: Source, K: Sink, A: Actuators>()
    ensures { F.tells → (catalogue : Catalogue) (journal : List ℕ) (before left found after : F) (first_old first_new old new : Beside S K A) (first_status status : ℕ)
        (earlier : RanJournal ⟦<S as Source>⟧ ⟦<K as Sink>⟧ ⟦<A as Actuators>⟧ catalogue (in_files ⟦<F as Files>⟧ journal before) (in_files ⟦<F as Files>⟧ journal left)
        first_old first_new first_status)
        (later : RanJournal ⟦<S as Source>⟧ ⟦<K as Sink>⟧ ⟦<A as Actuators>⟧ catalogue (in_files ⟦<F as Files>⟧ journal found) (in_files ⟦<F as Files>⟧ journal after)
        old new status)
        → HoldSame (in_files ⟦<F as Files>⟧ journal left) (in_files ⟦<F as Files>⟧ journal found) → is_broken earlier.made ≡ false
        → (on : List Entry) → IsLegal (actuators catalogue) on (run (actuators catalogue) earlier.made earlier.state)
        → OnlyAsks on → OnlyAsks later.made → asked 0 on ≡ asked 0 later.made → answered on ≡ answered later.made }
{}
