ghost use Rattle.std.specs.Prelude.{◌≡◌, ℕ, ◌≤◌, List, Some};
ghost use Rattle.boss_model.specs.declared.command.Command.{Command};
ghost use Rattle.boss_model.specs.declared.event.Event.{Event};
ghost use Rattle.boss_model.specs.declared.state.Actuator.{Actuator};
ghost use Rattle.boss_model.specs.Effects.{event_of, step_effect};
ghost use Rattle.boss_model.specs.Limits.{last_moment};
ghost use Rattle.boss_model.specs.Sound.{IsAllowed, IsSound, IsSoundPersistent};
ghost use Rattle.boss_model.specs.State.{Persistent, State};
ghost use Rattle.boss_model.specs.Plants.{IsPlant};
ghost use Rattle.law_spelling.specs.Ranges.{IsSpelled, IsStorable};

/// The event of a step has numbers that are within its ranges, whatever an allowed command asks: what is refused has no event
/// but its tick.
pub fn an_event_of_a_step_is_in_range()
    ensures { (plant : List Actuator) (s : State) (session : ℕ) (c : Command) (m : ℕ) (event : Event) → IsPlant plant → IsSound plant s →
        IsAllowed plant c → m ≤ last_moment → event_of c (step_effect plant session c m s) ≡ Some event → IsSpelled event }
{}

/// What is sound has numbers that are within their ranges, and lists that are no longer than is said.
pub fn what_is_sound_is_in_range()
    ensures { (plant : List Actuator) (d : Persistent) → IsPlant plant → IsSoundPersistent plant d → IsStorable d }
{}
