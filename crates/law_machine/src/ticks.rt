ghost use Rattle.std.specs.Prelude.{◌≡◌, ℕ, ◌≤◌, max, List, true};
ghost use Rattle.boss_model.specs.declared.command.Command.{Command};
ghost use Rattle.boss_model.specs.declared.command.Command.TheVariants as command;
ghost use Rattle.boss_model.specs.declared.state.Actuator.{Actuator};
ghost use Rattle.boss_model.specs.Machine.{step};
ghost use Rattle.boss_model.specs.Sound.{IsSoundPersistent};
ghost use Rattle.boss_model.specs.State.{Persistent, State};
ghost use Rattle.boss_model.specs.Time.{tick};
ghost use Rattle.law_machine.specs.Commands.{is_apart_from_devices, unmarked};

/// A tick before a command of a later moment, whoever sends it, changes neither the answer nor what outlasts a stop nor
/// who is attached, for each command that looks at no device's mark and at no want.
pub fn tick_before_a_command()
    ensures answer { (plant : List Actuator) (s : State) (session other : ℕ) (c : Command) (a m : ℕ) → IsSoundPersistent plant s.persistent →
        is_apart_from_devices c ≡ true → a ≤ m →
        (step plant session c m (step plant other command.Tick a s).state).answer ≡ (step plant session c m s).answer }
    ensures persistent { (plant : List Actuator) (s : State) (session other : ℕ) (c : Command) (a m : ℕ) → IsSoundPersistent plant s.persistent →
        is_apart_from_devices c ≡ true → a ≤ m →
        (step plant session c m (step plant other command.Tick a s).state).state.persistent ≡ (step plant session c m s).state.persistent }
    ensures attached { (plant : List Actuator) (s : State) (session other : ℕ) (c : Command) (a m : ℕ) → IsSoundPersistent plant s.persistent →
        is_apart_from_devices c ≡ true → a ≤ m →
        (step plant session c m (step plant other command.Tick a s).state).state.attached ≡ (step plant session c m s).state.attached }
{}

/// A tick before a reading of a later moment changes at most the mark of the answer.
pub fn tick_before_a_reading()
    ensures answer { (plant : List Actuator) (s : State) (session other point a m : ℕ) → IsSoundPersistent plant s.persistent → a ≤ m →
        unmarked (step plant session (command.Read point) m (step plant other command.Tick a s).state).answer
        ≡ unmarked (step plant session (command.Read point) m s).answer }
    ensures persistent { (plant : List Actuator) (s : State) (session other point a m : ℕ) → IsSoundPersistent plant s.persistent → a ≤ m →
        (step plant session (command.Read point) m (step plant other command.Tick a s).state).state.persistent
        ≡ (step plant session (command.Read point) m s).state.persistent }
{}
