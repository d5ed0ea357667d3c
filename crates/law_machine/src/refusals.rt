ghost use Rattle.std.specs.Prelude.{◌≡◌, ℕ, ◌≤◌, List, Some, true};
ghost use Rattle.boss_model.specs.declared.answer.Answer.TheVariants as answer;
ghost use Rattle.boss_model.specs.declared.answer.Refusal.{Refusal};
ghost use Rattle.boss_model.specs.declared.answer.Refusal.TheVariants as refusal;
ghost use Rattle.boss_model.specs.declared.command.Command.{Command};
ghost use Rattle.boss_model.specs.declared.command.Command.TheVariants as command;
ghost use Rattle.boss_model.specs.declared.notice.Cause.{Cause};
ghost use Rattle.boss_model.specs.declared.state.Actuator.{Actuator};
ghost use Rattle.boss_model.specs.Limits.{last_moment};
ghost use Rattle.boss_model.specs.Machine.{step};
ghost use Rattle.boss_model.specs.Processes.{process_of};
ghost use Rattle.boss_model.specs.Replies.{is_repeat};
ghost use Rattle.boss_model.specs.Sound.{IsSoundPersistent};
ghost use Rattle.boss_model.specs.State.{State};
ghost use Rattle.boss_model.specs.Time.{moment_of};
ghost use Rattle.law_machine.specs.Ended.{IsKeptEnd};
ghost use Rattle.law_machine.specs.Once.{seq_of};

/// A refused command is its tick, its retries and its settling: the whole state after it is that after a tick at its moment.
/// So is one whose number was the last to be accepted of its process.
pub fn a_refused_command_is_its_tick()
    ensures refused { (plant : List Actuator) (s : State) (session other : ℕ) (c : Command) (m : ℕ) (why : Refusal) →
        (step plant session c m s).answer ≡ answer.Refused why →
        (step plant session c m s).state ≡ (step plant other command.Tick m s).state }
    ensures repeated { (plant : List Actuator) (s : State) (session other owner : ℕ) (c : Command) (m : ℕ) →
        process_of s.attached session ≡ Some owner → is_repeat owner (seq_of c) s.persistent ≡ true →
        (step plant session c m s).state ≡ (step plant other command.Tick m s).state }
{}

/// Every refusal that tells of an end is a renewal's, and tells the end that is kept of the first part it meant whose lease
/// has ended. That end is no later than the moment that the refusal shows, which is that of the step.
pub fn an_ended_refusal_tells_the_kept_end()
    ensures { (plant : List Actuator) (s : State) (session : ℕ) (c : Command) (m : ℕ) (cause : Cause) (at moment : ℕ) →
        IsSoundPersistent plant s.persistent → m ≤ last_moment →
        (step plant session c m s).answer ≡ answer.Refused (refusal.Ended cause at moment) →
        IsKeptEnd c (moment_of s.persistent m) (step plant session c m s).state.persistent cause at moment }
{}
