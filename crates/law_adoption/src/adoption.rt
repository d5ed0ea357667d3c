ghost use Rattle.std.specs.Prelude.{◌≡◌, ℕ, ◌≤◌, Bool, true, false, List, ◌++◌, length, map, Some, None};
ghost use Rattle.std.specs.List.{list_all};
ghost use Rattle.boss_model.specs.declared.notice.Notice.{Notice};
ghost use Rattle.boss_model.specs.Catalogue.{Catalogue, actuators, default_of, place_of};
ghost use Rattle.boss_model.specs.Limits.{last_moment};
ghost use Rattle.boss_model.specs.Lists.{member};
ghost use Rattle.boss_model.specs.Queries.{status};
ghost use Rattle.boss_model.specs.Sound.{DistinctNames, IsSoundPersistent, is_kept};
ghost use Rattle.boss_model.specs.State.{Persistent};
ghost use Rattle.boss_model.specs.Target.{basis_at, target};
ghost use Rattle.boss_model.specs.Time.{tick};
ghost use Rattle.law_adoption.specs.Adopted.{adopted, last_passing};
ghost use Rattle.law_adoption.specs.Kept.{TargetKept};
ghost use Rattle.law_adoption.specs.MayMove.{in_use, unfit};
ghost use Rattle.law_adoption.specs.Renumber.{renumbered};

/// Where no removed point is in use and all values fit, a state that is sound under the old catalogue is adopted to one that is
/// sound under the new one.
pub fn an_adopted_state_is_sound()
    ensures { (old new : Catalogue) (d : Persistent) → DistinctNames (map (λ point. point.name) old.points) → IsSoundPersistent (actuators old) d →
        in_use (renumbered old new) d ≡ None → unfit (actuators new) (renumbered old new) d ≡ None →
        IsSoundPersistent (actuators new) (adopted (renumbered old new) d) }
{}

/// A point of both catalogues has after any time the target that it would have had, where that rests on a lease or a
/// reversion. Where it rests on nothing the target is the new catalogue's default.
pub fn an_adoption_keeps_targets()
    ensures { (old new : Catalogue) (d : Persistent) (name : List ℕ) (p q m : ℕ) → DistinctNames (map (λ point. point.name) old.points) →
        IsSoundPersistent (actuators old) d → in_use (renumbered old new) d ≡ None → unfit (actuators new) (renumbered old new) d ≡ None →
        place_of old name ≡ Some p → place_of new name ≡ Some q → m ≤ last_moment →
        TargetKept (default_of (actuators new) q) (basis_at (tick d m) p)
        (target (actuators old) (tick d m) p) (target (actuators new) (tick (adopted (renumbered old new) d) m) q) }
{}

/// A transaction that is not done keeps its record, and one whose record is kept has the status that it had.
pub fn an_adoption_keeps_the_status()
    ensures living { (old new : Catalogue) (d : Persistent) (txn : ℕ) → in_use (renumbered old new) d ≡ None → is_kept d.txns txn ≡ true →
        member txn d.done ≡ false → is_kept (adopted (renumbered old new) d).txns txn ≡ true }
    ensures status { (old new : Catalogue) (d : Persistent) (txn : ℕ) → IsSoundPersistent (actuators old) d →
        is_kept (adopted (renumbered old new) d).txns txn ≡ true → status txn (adopted (renumbered old new) d) ≡ status txn d }
{}

/// What is left of a process's notices is a suffix of them, each of it passes, and no longer suffix has only such ones.
pub fn what_is_left_is_the_longest_suffix()
    ensures suffix { (test : Notice → Bool) (notices : List Notice) → (front : List Notice) × (notices ≡ front ++ last_passing test notices) }
    ensures passing { (test : Notice → Bool) (notices : List Notice) → list_all test (last_passing test notices) ≡ true }
    ensures longest { (test : Notice → Bool) (notices front back : List Notice) → notices ≡ front ++ back → list_all test back ≡ true →
        length back ≤ length (last_passing test notices) }
{}
