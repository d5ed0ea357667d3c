ghost use Rattle.std.specs.Prelude.{◌≡◌, ◌⊎◌, ℕ, ◌<◌, ◌≤◌, List, Some};
ghost use Rattle.boss_model.specs.declared.answer.Answer.TheVariants as answer;
ghost use Rattle.boss_model.specs.declared.answer.Refusal.TheVariants as refusal;
ghost use Rattle.boss_model.specs.declared.command.Command.{Command};
ghost use Rattle.boss_model.specs.declared.kept.Acceptance.{Acceptance};
ghost use Rattle.boss_model.specs.declared.kept.KeptReply.{KeptReply};
ghost use Rattle.boss_model.specs.declared.state.Actuator.{Actuator};
ghost use Rattle.boss_model.specs.Machine.{step};
ghost use Rattle.boss_model.specs.Replies.{answer_of, reply_of};
ghost use Rattle.boss_model.specs.Settle.{opened};
ghost use Rattle.boss_model.specs.Sound.{IsSound};
ghost use Rattle.boss_model.specs.State.{Persistent, State};
ghost use Rattle.law_machine.specs.Once.{IsUnder, kept_seq, seq_of};

/// What a process's numbered request was answered, where it was accepted, is kept until one of a greater number is accepted:
/// nothing else changes it, and it outlasts a stop. A request of the kept number is answered so again, and one of a lesser
/// number is refused, whatever they ask.
pub fn a_number_is_made_once()
    ensures kept { (plant : List Actuator) (s : State) (session owner seq : ℕ) (c : Command) (m : ℕ) (accepted : Acceptance) → IsSound plant s →
        IsUnder owner seq session c s → (step plant session c m s).answer ≡ answer_of accepted →
        reply_of (step plant session c m s).state.persistent.processes owner ≡ Some (record { seq = seq; acceptance = accepted }) }
    ensures changed { (plant : List Actuator) (s : State) (session owner : ℕ) (c : Command) (m : ℕ) →
        (reply_of (step plant session c m s).state.persistent.processes owner ≡ reply_of s.persistent.processes owner)
        ⊎ (IsUnder owner (seq_of c) session c s × (kept_seq s.persistent owner < seq_of c) × (kept_seq (step plant session c m s).state.persistent owner ≡ seq_of c)) }
    ensures never_falls { (plant : List Actuator) (s : State) (session owner : ℕ) (c : Command) (m : ℕ) →
        kept_seq s.persistent owner ≤ kept_seq (step plant session c m s).state.persistent owner }
    ensures reopened { (plant : List Actuator) (d : Persistent) (owner : ℕ) → reply_of (opened plant d).persistent.processes owner ≡ reply_of d.processes owner }
    ensures again { (plant : List Actuator) (s : State) (session owner : ℕ) (c : Command) (m : ℕ) (reply : KeptReply) →
        IsUnder owner reply.seq session c s → reply_of s.persistent.processes owner ≡ Some reply →
        (step plant session c m s).answer ≡ answer_of reply.acceptance }
    ensures lesser { (plant : List Actuator) (s : State) (session owner seq : ℕ) (c : Command) (m : ℕ) (reply : KeptReply) →
        IsUnder owner seq session c s → reply_of s.persistent.processes owner ≡ Some reply → seq < reply.seq →
        (step plant session c m s).answer ≡ answer.Refused (refusal.Stale reply.seq) }
{}
