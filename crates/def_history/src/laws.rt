ghost use Rattle.std.specs.Prelude.{◌≡◌, List, ◌∷◌, ◌++◌, ◌||◌, false};
ghost use Rattle.boss_model.specs.declared.state.Actuator.{Actuator};
ghost use Rattle.boss_model.specs.Sound.{IsSound};
ghost use Rattle.boss_model.specs.State.{State};
ghost use Rattle.def_history.specs.declared.entry.Entry.{Entry};
ghost use Rattle.def_history.specs.History.{IsLegal, deeds, events, is_broken, run, run_tried};

/// A history goes on where it stopped: the machine after it, its events and its legality are those of its parts in turn. Each
/// front of a legal history is legal, and
/// nothing comes after a mark.
pub fn a_history_goes_on()
    ensures state { (plant : List Actuator) (first then : List Entry) (s : State) → run plant (first ++ then) s ≡ run plant then (run plant first s) }
    ensures events { (plant : List Actuator) (first then : List Entry) (s : State) →
        events plant (first ++ then) s ≡ events plant first s ++ events plant then (run plant first s) }
    ensures marked { (first then : List Entry) → is_broken (first ++ then) ≡ (is_broken first || is_broken then) }
    ensures tried { (plant : List Actuator) (first then : List Entry) (s : State) → is_broken first ≡ false →
        run_tried plant (first ++ then) s ≡ run_tried plant then (run plant first s) }
    ensures unmarked { (plant : List Actuator) (all : List Entry) (s : State) → is_broken all ≡ false → run_tried plant all s ≡ run plant all s }
    ensures legal { (plant : List Actuator) (first then : List Entry) (s : State) → is_broken first ≡ false → IsLegal plant first s →
        IsLegal plant then (run plant first s) → IsLegal plant (first ++ then) s }
    ensures last { (plant : List Actuator) (first then : List Entry) (next : Entry) (s : State) → IsLegal plant (first ++ next ∷ then) s →
        is_broken first ≡ false }
    ensures front { (plant : List Actuator) (first then : List Entry) (s : State) → IsLegal plant (first ++ then) s → IsLegal plant first s }
{}

/// A mark counts for nothing: the machine and the events are those of what was done.
pub fn a_history_is_its_deeds()
    ensures state { (plant : List Actuator) (all : List Entry) (s : State) → run plant (deeds all) s ≡ run plant all s }
    ensures events { (plant : List Actuator) (all : List Entry) (s : State) → events plant (deeds all) s ≡ events plant all s }
{}

/// After a legal history the machine is as sound as it was before.
pub fn a_legal_history_keeps_a_sound_state_sound()
    ensures { (plant : List Actuator) (all : List Entry) (s : State) → IsSound plant s → IsLegal plant all s → IsSound plant (run plant all s) }
{}
