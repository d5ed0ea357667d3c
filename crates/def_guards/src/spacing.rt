ghost use Rattle.std.specs.Prelude.{◌≡◌, ℕ, ◌<◌, List, length, None, ◌++◌};
ghost use Rattle.def_guards.specs.Acts.{Watch, guard_at};
ghost use Rattle.def_guards.specs.Guards.{minimum};
ghost use Rattle.def_guards.specs.Spacing.{KeepsTimes, calls_cut, calls_in};
ghost use Rattle.def_guards.specs.Turns.{AreTurns, Cut, FitsCut, Turn, after_turns};

/// A guarded point keeps each value that it is written for its minimum time: a write of another value than that of the write
/// before it is decided that long after the first of the writes which it ends, or where a reading has just shown its value under
/// a lease of the levels 1 to 5. This holds of all writes to the point, from its first on, and of one that was cut by an end.
pub fn a_guarded_point_keeps_its_value()
    ensures { (point : ℕ) (watch : Watch) (turns : List Turn) (last : Cut) → point < length watch.guards →
        (guard_at watch.guards point).last ≡ None → AreTurns watch turns → FitsCut (after_turns turns watch) last →
        KeepsTimes (minimum (guard_at watch.guards point)) (calls_in point turns ++ calls_cut point last) }
{}
