ghost use Rattle.std.specs.Prelude.{◌≡◌, ℕ, ◌+◌, ◌<◌, false, List, length};
ghost use Rattle.def_history.specs.History.{events, is_broken, run};
ghost use Rattle.boss_model.specs.Catalogue.{Catalogue, actuators};
ghost use Rattle.boss_model.specs.Limits.{last_number};
ghost use Rattle.boss_model.specs.Settle.{opened};
ghost use Rattle.boss_jobs.specs.Journals.{Beside, HoldSame, in_files, RanJournal};

use boss_files::Files;
use boss_outside::{Actuators, Sink, Source};

/// A script over a journal that an earlier one left, in which no disk failed, begins in the state that is opened at what lasted of the
/// earlier one, after as many events more as that one made.
pub fn a_second_script_goes_on<F: Files, S: Source, K: Sink, A: Actuators>()
    ensures state { F.tells → (catalogue : Catalogue) (journal : List ℕ) (before left found after : F) (first_old first_new old new : Beside S K A) (first_status status : ℕ)
        (earlier : RanJournal ⟦<S as Source>⟧ ⟦<K as Sink>⟧ ⟦<A as Actuators>⟧ catalogue (in_files ⟦<F as Files>⟧ journal before) (in_files ⟦<F as Files>⟧ journal left)
        first_old first_new first_status)
        (later : RanJournal ⟦<S as Source>⟧ ⟦<K as Sink>⟧ ⟦<A as Actuators>⟧ catalogue (in_files ⟦<F as Files>⟧ journal found) (in_files ⟦<F as Files>⟧ journal after)
        old new status)
        → HoldSame (in_files ⟦<F as Files>⟧ journal left) (in_files ⟦<F as Files>⟧ journal found) → is_broken earlier.made ≡ false
        → later.state ≡ opened (actuators catalogue) (run (actuators catalogue) earlier.made earlier.state).persistent }
    ensures number { F.tells → (catalogue : Catalogue) (journal : List ℕ) (before left found after : F) (first_old first_new old new : Beside S K A) (first_status status : ℕ)
        (earlier : RanJournal ⟦<S as Source>⟧ ⟦<K as Sink>⟧ ⟦<A as Actuators>⟧ catalogue (in_files ⟦<F as Files>⟧ journal before) (in_files ⟦<F as Files>⟧ journal left)
        first_old first_new first_status)
        (later : RanJournal ⟦<S as Source>⟧ ⟦<K as Sink>⟧ ⟦<A as Actuators>⟧ catalogue (in_files ⟦<F as Files>⟧ journal found) (in_files ⟦<F as Files>⟧ journal after)
        old new status)
        → HoldSame (in_files ⟦<F as Files>⟧ journal left) (in_files ⟦<F as Files>⟧ journal found) → is_broken earlier.made ≡ false
        → earlier.number + length (events (actuators catalogue) earlier.made earlier.state) < last_number
        → later.number ≡ earlier.number + length (events (actuators catalogue) earlier.made earlier.state) }
{}
