ghost use Rattle.std.specs.Prelude.{◌≡◌, ℕ, true, List, ◌++◌};
ghost use Rattle.def_bytes.specs.Exact.{IsExact, IsShort};
ghost use Rattle.boss_model.specs.declared.event.Event.{Event};
ghost use Rattle.boss_model.specs.State.{Persistent};
ghost use Rattle.def_bytes.specs.Batches.{IsBatch, batch_text};
ghost use Rattle.def_bytes.specs.Events.{event};
ghost use Rattle.def_bytes.specs.States.{state};

/// An event has one spelling, of at most 3,669 bytes, and no spelling begins another: what was written is read again,
/// whatever follows it.
pub fn an_event_has_one_spelling()
    ensures exact { IsExact event }
    ensures short { IsShort event }
    ensures longest { event.most ≡ 3669 }
    ensures one { (x y : Event) (a b : List ℕ) → event.fits x ≡ true → event.fits y ≡ true →
        event.text x ++ a ≡ event.text y ++ b → (x ≡ y) × (a ≡ b) }
{}

/// In each version a state has one spelling, and no spelling begins another.
pub fn a_state_has_one_spelling()
    ensures exact { (version : ℕ) → IsExact (state version) }
    ensures short { (version : ℕ) → IsShort (state version) }
    ensures one { (version : ℕ) (x y : Persistent) (a b : List ℕ) → (state version).fits x ≡ true → (state version).fits y ≡ true →
        (state version).text x ++ a ≡ (state version).text y ++ b → (x ≡ y) × (a ≡ b) }
{}

/// The bytes of a record tell which events it has.
pub fn a_batch_has_its_events_alone()
    ensures { (events others : List Event) → IsBatch events → IsBatch others → batch_text events ≡ batch_text others → events ≡ others }
{}
