ghost use Rattle.std.specs.Prelude.{◌≡◌, ℕ, List, [], ◌∷◌, ◌++◌};
ghost use Rattle.boss_model.specs.declared.answer.Answer.{Answer};
ghost use Rattle.boss_model.specs.declared.command.Command.{Command};
ghost use Rattle.boss_model.specs.declared.kept.Acceptance.{Acceptance};
ghost use Rattle.boss_model.specs.declared.state.Actuator.{Actuator};
ghost use Rattle.boss_model.specs.Machine.{step};
ghost use Rattle.boss_model.specs.Replies.{answer_of};
ghost use Rattle.boss_model.specs.Sound.{IsSound};
ghost use Rattle.boss_model.specs.State.{State};
ghost use Rattle.law_machine.specs.Once.{IsUnder};
ghost use Rattle.def_history.specs.declared.entry.Entry.{Entry};
ghost use Rattle.def_history.specs.declared.entry.Entry.TheVariants.{Did, Broke};
ghost use Rattle.def_history.specs.declared.entry.Tried.{Tried};
ghost use Rattle.def_history.specs.History.{IsLegal, all_stepped, run, stepped};
ghost use Rattle.def_history.specs.Once.{AreLives, AreOnce, IsSpentIn, Life, MakesNothing, OpensTried, StartsSound, begins, under_way};

/// A process's number is made once. In a legal history, after an entry that was accepted under a number of its process, every
/// entry of the process under this number does no more than time does, and is answered as that entry was, or refused; and so
/// in every life after it, where the machine is opened again and again, each time with what the life before it left. This holds
/// too of a request that was under way when the disk failed, of whichever caller, if the next life has it: sent again, it is
/// answered as it would have been.
pub fn each_number_is_made_once()
    ensures history { (plant : List Actuator) (first between then : List Entry) (s : State) (owner seq session other : ℕ) (c e : Command) (m n : ℕ)
        (accepted : Acceptance) (given : Answer) → IsSound plant s →
        IsLegal plant (first ++ Did session c m (answer_of accepted) ∷ between ++ Did other e n given ∷ then) s →
        IsUnder owner seq session c (run plant first s) →
        IsUnder owner seq other e (run plant (first ++ Did session c m (answer_of accepted) ∷ between) s) →
        MakesNothing plant other e n (answer_of accepted) given (run plant (first ++ Did session c m (answer_of accepted) ∷ between) s) }
    ensures lives { (plant : List Actuator) (lives : List Life) → StartsSound plant lives → AreLives plant lives → AreOnce plant lives }
    ensures cut_off { (plant : List Actuator) (life : Life) (lives : List Life) (first : List Entry) (told : ℕ) (commands : List (Command × ℕ))
        (others passed behind : List Tried) (before then : List (Command × ℕ)) (owner seq session : ℕ) (c : Command) (m : ℕ) (accepted : Acceptance) →
        StartsSound plant (life ∷ lives) → AreLives plant (life ∷ lives) → life.history ≡ first ++ Broke told commands others ∷ [] →
        under_way told commands others ≡ passed ++ record { session = session; commands = before ++ (c, m) ∷ then } ∷ behind →
        let s = stepped plant session before (all_stepped plant passed (run plant first (begins plant life))) in
        IsUnder owner seq session c s → (step plant session c m s).answer ≡ answer_of accepted → OpensTried plant life lives →
        IsSpentIn plant owner seq (answer_of accepted) lives }
{}
