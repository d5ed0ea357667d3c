ghost use Rattle.std.specs.Prelude.{◌≡◌, ℕ, ◌≤◌, true, List, Some, None};
ghost use Rattle.std.specs.List.{AllByRecursion};
ghost use Rattle.boss_model.specs.declared.command.Command.{Command};
ghost use Rattle.boss_model.specs.declared.event.Event.{Event};
ghost use Rattle.boss_model.specs.declared.state.Actuator.{Actuator};
ghost use Rattle.boss_model.specs.Effects.{event_of, step_effect};
ghost use Rattle.boss_model.specs.Limits.{last_moment};
ghost use Rattle.boss_model.specs.Plants.{IsPlant};
ghost use Rattle.boss_model.specs.Sound.{IsAllowed, IsSound, IsSoundPersistent};
ghost use Rattle.boss_model.specs.State.{Persistent, State};
ghost use Rattle.def_bytes.specs.Events.{event};
ghost use Rattle.def_bytes.specs.States.{state};

/// The event of a step has a spelling, whatever an allowed command asks: no change is made that could not be written down.
pub fn an_event_of_a_step_has_a_spelling()
    ensures { (plant : List Actuator) (s : State) (session : ℕ) (c : Command) (moment : ℕ) (e : Event) → IsPlant plant → IsSound plant s →
        IsAllowed plant c → moment ≤ last_moment → event_of c (step_effect plant session c moment s) ≡ Some e → event.fits e ≡ true }
{}

/// What is sound has a spelling in version 2, and in version 1 too where no process has a kept reply.
pub fn what_is_sound_has_a_spelling()
    ensures version_2 { (plant : List Actuator) (d : Persistent) → IsPlant plant → IsSoundPersistent plant d → (state 2).fits d ≡ true }
    ensures version_1 { (plant : List Actuator) (d : Persistent) → IsPlant plant → IsSoundPersistent plant d →
        AllByRecursion (λ process. process.reply ≡ None) d.processes → (state 1).fits d ≡ true }
{}
