ghost use Rattle.std.specs.Prelude.{◌≡◌, ℕ, ◌≤◌, List, Some};
ghost use Rattle.std.specs.List.{AllByRecursion};
ghost use Rattle.boss_model.specs.declared.command.Command.{Command};
ghost use Rattle.boss_model.specs.declared.event.Effect.TheVariants as effect;
ghost use Rattle.boss_model.specs.declared.event.Event.{Event};
ghost use Rattle.boss_model.specs.declared.state.Actuator.{Actuator};
ghost use Rattle.boss_model.specs.Acts.{replay};
ghost use Rattle.boss_model.specs.Effects.{event_of, step_effect};
ghost use Rattle.boss_model.specs.Limits.{last_moment};
ghost use Rattle.boss_model.specs.Machine.{step};
ghost use Rattle.boss_model.specs.Run.{Call, events, replay_all, run};
ghost use Rattle.boss_model.specs.Sound.{IsAllowed, IsSound};
ghost use Rattle.boss_model.specs.State.{State};

/// The effect of a step is `Unchanged` exactly where what outlasts a stop is as before. Else the step has an event, and
/// this event, done again, makes of it what the step made.
pub fn an_event_does_the_same_again()
    ensures unchanged { (plant : List Actuator) (s : State) (session : ℕ) (c : Command) (m : ℕ) →
        step_effect plant session c m s ≡ effect.Unchanged → (step plant session c m s).state.persistent ≡ s.persistent }
    ensures exactly { (plant : List Actuator) (s : State) (session : ℕ) (c : Command) (m : ℕ) →
        (step plant session c m s).state.persistent ≡ s.persistent → step_effect plant session c m s ≡ effect.Unchanged }
    ensures again { (plant : List Actuator) (s : State) (session : ℕ) (c : Command) (m : ℕ) (event : Event) → IsSound plant s →
        IsAllowed plant c → m ≤ last_moment → event_of c (step_effect plant session c m s) ≡ Some event →
        replay plant event s.persistent ≡ Some (step plant session c m s).state.persistent }
{}

/// The events of a run, one after another, lead from the persistent part before it to the one after it.
pub fn events_of_a_run_lead_to_its_end()
    ensures { (plant : List Actuator) (calls : List Call) (s : State) → IsSound plant s →
        AllByRecursion (λ call. IsAllowed plant call.command × (call.moment ≤ last_moment)) calls →
        replay_all plant s.persistent (events plant s calls) ≡ Some (run plant s calls).persistent }
{}
