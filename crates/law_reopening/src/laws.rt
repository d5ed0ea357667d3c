ghost use Rattle.std.specs.Prelude.{◌≡◌, ◌⊎◌, ℕ, List, Some, length, map};
ghost use Rattle.boss_pair_find.specs.Refusals.{IsOfBytes};
ghost use Rattle.boss_pair_find.specs.declared.refusal.DurableRefusal.{DurableRefusal};
ghost use Rattle.def_history.specs.History.{events, run};
ghost use Rattle.def_history.specs.Once.{AreLives};
ghost use Rattle.law_reopening.specs.Spans.{AreSpans, IsLeftBehind, IsSpan, Span, begins, done, life_of, tried};
ghost use Rattle.boss_model.specs.Run.{replay_all};
ghost use Rattle.boss_model.specs.Sound.{IsSoundPersistent};
ghost use Rattle.boss_model.specs.State.{Persistent, State};
ghost use Rattle.boss_model.specs.declared.state.Actuator.{Actuator};
ghost use Rattle.boss_opening.specs.Opens.{OpenedAt, OpenRefuses};
ghost use Rattle.def_disk_pair.specs.Pairs.{Opens};

/// What an opening finds. Over any list of openings, of what was done behind each, and of stops, each opening finds what the one before
/// it found with every change that was answered since, in order, and with no other but those of a call that was under way at
/// the stop, all of them or none.
pub fn what_is_opened_was_left()
    // What is found next is what was done, or that with what was under way.
    ensures found { (plant : List Actuator) (digest : List ℕ) (span : Span) (first second : List ℕ) (d : Persistent) → IsLeftBehind plant digest span first second
        → Opens plant digest d first second → (d ≡ done plant span) ⊎ (d ≡ tried plant span) }
    // And what was done is what the events of the answered commands make of what was found before.
    ensures acknowledged { (plant : List Actuator) (digest : List ℕ) (span : Span) → IsSoundPersistent plant span.opens → IsSpan plant digest span
        → replay_all plant span.opens (events plant span.history (begins plant span)) ≡ Some (done plant span) }
    // So openings in turn are lives of the machine.
    ensures lives { (plant : List Actuator) (digest : List ℕ) (spans : List Span) → AreSpans plant digest spans → AreLives plant (map life_of spans) }
{}

/// A pair from which an engine may be opened is refused for nothing that it holds, and gives one engine; and a pair is refused for one
/// reason at most. So each answer of an opening, but a fault of a disk and want of memory, comes exactly where the pair is of its kind.
/// A digest has 32 bytes.
pub fn a_pair_is_opened_or_refused()
    ensures apart { (plant : List Actuator) (digest first second : List ℕ) (s : State) (number : ℕ) (why : DurableRefusal) → length digest ≡ 32 →
        OpenedAt plant digest first second s number → IsOfBytes why → OpenRefuses plant digest first second why → ⊥ }
    ensures one_engine { (plant : List Actuator) (digest first second : List ℕ) (s other : State) (number many : ℕ) →
        OpenedAt plant digest first second s number → OpenedAt plant digest first second other many → (s ≡ other) × (number ≡ many) }
    ensures one_reason { (plant : List Actuator) (digest first second : List ℕ) (why other : DurableRefusal) → length digest ≡ 32 → IsOfBytes why → IsOfBytes other →
        OpenRefuses plant digest first second why → OpenRefuses plant digest first second other → why ≡ other }
{}
