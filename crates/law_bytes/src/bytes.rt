ghost use Rattle.std.specs.Prelude.{◌≡◌, ℕ, true, List};
ghost use Rattle.boss_model.specs.declared.event.Event.{Event};
ghost use Rattle.boss_model.specs.State.{Persistent};
ghost use Rattle.def_bytes.specs.Batches.{IsBatch, batch_text};
ghost use Rattle.def_bytes.specs.Events.{event};
ghost use Rattle.def_bytes.specs.Exact.{IsBytes};
ghost use Rattle.def_bytes.specs.States.{state};

/// A spelling is bytes: each number of it is below 256. So it is for an event, for the events of one record, and for a state in
/// each version.
pub fn a_spelling_is_bytes()
    ensures event { (e : Event) → event.fits e ≡ true → IsBytes (event.text e) }
    ensures batch { (events : List Event) → IsBatch events → IsBytes (batch_text events) }
    ensures state { (version : ℕ) (d : Persistent) → (state version).fits d ≡ true → IsBytes ((state version).text d) }
{}
