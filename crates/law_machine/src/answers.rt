ghost use Rattle.std.specs.Prelude.{◌≡◌, ℕ, ◌≤◌, List, Option, true};
ghost use Rattle.boss_model.specs.declared.answer.Answer.{Answer};
ghost use Rattle.boss_model.specs.declared.answer.Mark.{Mark};
ghost use Rattle.boss_model.specs.declared.command.Command.{Command};
ghost use Rattle.boss_model.specs.declared.command.Command.TheVariants as command;
ghost use Rattle.boss_model.specs.declared.state.Actuator.{Actuator};
ghost use Rattle.boss_model.specs.Catalogue.{actuators, Catalogue};
ghost use Rattle.boss_model.specs.Limits.{last_moment};
ghost use Rattle.boss_model.specs.Machine.{step};
ghost use Rattle.boss_model.specs.Sound.{IsAllowed, IsSound};
ghost use Rattle.boss_model.specs.State.{State};
ghost use Rattle.boss_model.specs.declared.state.Took.{Took};
ghost use Rattle.boss_model.specs.Tellable.{IsTellable};
ghost use Rattle.law_machine.specs.Commands.{is_question, marked, unmarked};

/// What a question answers is a function of what outlasts a stop, of the question and of the moment: two states that agree
/// in the first answer it alike, whoever asks. Of a reading this holds but for what it tells of the device, its mark, how
/// often it differed and what it took, and for nothing else: with these an answer without them is the answer again.
pub fn questions_rest_on_what_lasts()
    ensures question { (plant : List Actuator) (s t : State) (session other : ℕ) (c : Command) (m : ℕ) → s.persistent ≡ t.persistent →
        is_question c ≡ true → (step plant session c m s).answer ≡ (step plant other c m t).answer }
    ensures reading { (plant : List Actuator) (s t : State) (session other point m : ℕ) → s.persistent ≡ t.persistent →
        unmarked (step plant session (command.Read point) m s).answer ≡ unmarked (step plant other (command.Read point) m t).answer }
    ensures mark_alone { (given : Answer) → (stands : Mark) × (differed : ℕ) × (took : Option Took) × (marked stands differed took (unmarked given) ≡ given) }
{}

/// Every answer to an allowed command in a sound state can be told: its points are the catalogue's, and of notices there
/// are at most as many as a text has room for.
pub fn an_answer_can_be_told()
    ensures { (catalogue : Catalogue) (s : State) (session : ℕ) (c : Command) (m : ℕ) → IsSound (actuators catalogue) s →
        IsAllowed (actuators catalogue) c → m ≤ last_moment → IsTellable catalogue (step (actuators catalogue) session c m s).answer }
{}
