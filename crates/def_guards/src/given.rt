ghost use Rattle.std.specs.Prelude.{◌≡◌, List, [], ◌∷◌, ◌++◌, None, ℕ};
ghost use Rattle.std.specs.List.{AllByRecursion};
ghost use Rattle.def_guards.specs.declared.guard.Due.{Due};
ghost use Rattle.def_guards.specs.Acts.{Watch, guard_at, want_of};
ghost use Rattle.def_guards.specs.Given.{WasGiven};
ghost use Rattle.def_guards.specs.Turns.{AreTurns, IsTurn, Turn, after_turns};

/// Each want that a turn tries, and each that it has left where it was cut, is one that this turn or one before it was given, with
/// its version and value, where nothing was held before the first of them.
pub fn a_want_is_given_before_it_is_tried()
    ensures { (watch : Watch) (before : List Turn) (turn : Turn) (left : List Due) → ((point : ℕ) → (guard_at watch.guards point).held ≡ None) →
        AreTurns watch before → IsTurn (after_turns before watch) turn left →
        AllByRecursion (λ act. WasGiven (before ++ turn ∷ []) (want_of act)) turn.acts × AllByRecursion (WasGiven (before ++ turn ∷ [])) left }
{}
