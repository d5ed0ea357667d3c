ghost use Rattle.std.specs.Prelude.{◌≡◌, ℕ, ◌≤◌, List};
ghost use Rattle.boss_model.specs.declared.command.Command.{Command};
ghost use Rattle.boss_model.specs.declared.state.Actuator.{Actuator};
ghost use Rattle.boss_model.specs.Limits.{last_moment};
ghost use Rattle.boss_model.specs.Machine.{step};
ghost use Rattle.boss_model.specs.Settle.{opened};
ghost use Rattle.boss_model.specs.Sound.{IsAllowed, IsSound, IsSoundPersistent};
ghost use Rattle.boss_model.specs.State.{first_persistent, Persistent, State};

/// A step keeps a sound state sound, whoever sends the command and whatever it asks within its limits.
pub fn a_step_keeps_a_sound_state_sound()
    ensures { (plant : List Actuator) (session : ℕ) (c : Command) (m : ℕ) (s : State) → IsAllowed plant c → m ≤ last_moment → IsSound plant s →
        IsSound plant (step plant session c m s).state }
{}

/// What outlasts a stop is sound before anything is done, and the state that a sound one opens to is sound.
pub fn an_opened_state_is_sound()
    ensures first { (plant : List Actuator) → IsSoundPersistent plant first_persistent }
    ensures opened { (plant : List Actuator) (d : Persistent) → IsSoundPersistent plant d → IsSound plant (opened plant d) }
{}
