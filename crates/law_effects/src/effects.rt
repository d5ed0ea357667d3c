ghost use Rattle.std.specs.Prelude.{◌≡◌, ℕ, ◌≤◌, ◌==◌, not, if◌then◌else◌, List};
ghost use Rattle.boss_model.specs.declared.command.Command.{Command};
ghost use Rattle.boss_model.specs.declared.event.Effect.TheVariants as effect;
ghost use Rattle.boss_model.specs.declared.state.Actuator.{Actuator};
ghost use Rattle.boss_model.specs.Effects.{concerned, step_effect};
ghost use Rattle.boss_model.specs.Limits.{last_moment};
ghost use Rattle.boss_model.specs.Machine.{pass_time};
ghost use Rattle.boss_model.specs.Sound.{IsAllowed, IsSound};
ghost use Rattle.boss_model.specs.State.{State};
ghost use Rattle.boss_model.specs.Time.{moment_of, tick_to};
ghost use Rattle.law_effects.specs.Changes.{changes};

/// The effect of an allowed command in a sound state is told by two flags. If the command changes what outlasts a stop, once time
/// has passed, then the effect is whole: at the command's moment, by the process that it concerns. If it does not, and time moved
/// `now`, it is a tick up to there. Else it is nothing. No two states are compared.
pub fn an_effect_is_told_by_flags()
    ensures { (plant : List Actuator) (s : State) (session : ℕ) (c : Command) (m : ℕ) → IsSound plant s → IsAllowed plant c → m ≤ last_moment →
        let n = moment_of s.persistent m in
        let passed = pass_time plant n s in
        step_effect plant session c m s
        ≡ (if changes plant session n c passed then effect.Whole n (concerned c session (record s { persistent = tick_to n s.persistent })) else
        (if not (passed.persistent.now == s.persistent.now) then effect.Tick passed.persistent.now else effect.Unchanged)) }
{}
