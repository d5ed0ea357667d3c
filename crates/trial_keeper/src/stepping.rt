// Commands that are done with as much memory as they are told to find.
ghost use Rattle.std.specs.Prelude.{◌≡◌, ◌≤◌, true, false, [], length, None, IfOk, OnErr, vec_capacity};
ghost use Rattle.std.specs.List.{AllByRecursion};
ghost use Rattle.boss_model.specs.Limits.{last_moment};
ghost use Rattle.boss_model.specs.Machine.{step};
ghost use Rattle.boss_model.specs.Sound.{IsAllowed};
ghost use Rattle.def_history.specs.History.{is_broken, IsLegal, MayCall, run};
ghost use Rattle.def_history.specs.Made.{done_by, is_growing};
ghost use Rattle.boss_shared.specs.Calls.{has_failed_rest, RestFits};
ghost use Rattle.boss_shared.specs.Gates.{denial_of_rest};
ghost use Rattle.boss_shared.specs.Together.{made_together, AreReplied, AreSameAsked, IsReplied, IsSameAsked, MayAsk};

use boss_memory_keeper::Unkept;
use boss_model::{Answer, Command, NoMemory, SessionId};
use boss_shared::{Asked, Keeper};
use def_history::{Outcome, Outcomes};

/// Whether a command may want memory.
fn is_growing(command: &Command) -> bool
    ensures { result ≡ is_growing command.now }
{
    matches!(
        command,
        Command::Attach { .. } | Command::Submit { .. } | Command::Notices { .. }
    )
}

/// Whether the next command that may want memory finds it, where so many more do before one finds none.
fn feed(fed: &mut u64) -> bool {
    if *fed == 0 {
        *fed = u64::MAX;
        return false;
    }
    *fed -= 1;
    true
}

/// Does a command, where it finds the memory that it may want.
pub fn take_step(
    unkept: &mut Unkept,
    fed: &mut u64,
    session: SessionId,
    command: &Command,
    moment: u64,
) -> Result<Answer, NoMemory>
    requires moment { moment ≤ last_moment }
    requires allowed { IsAllowed unkept.old.engine.plant command.now }
    ensures answer { IfOk result (λ answer. answer ≡ (step unkept.old.engine.plant session command.now moment unkept.old.engine.state).answer) }
    ensures state { IfOk result (λ _. unkept.new.engine.state ≡ (step unkept.old.engine.plant session command.now moment unkept.old.engine.state).state) }
    ensures plant { unkept.new.engine.plant ≡ unkept.old.engine.plant }
    ensures err { OnErr result (unkept.new.engine.state ≡ unkept.old.engine.state) }
    ensures memory { OnErr result (is_growing command.now ≡ true) }
{
    if is_growing(command) && !feed(fed) {
        return Err(NoMemory);
    }
    match unkept.apply(session, command, moment) {
        Outcome::Done { answer } => Ok(answer),
        Outcome::NoMemory => Err(NoMemory),
        _ => unreachable!(),
    }
}

/// Does commands in order as far as they find memory, and puts their answers down.
pub fn step_all(
    unkept: &mut Unkept,
    fed: &mut u64,
    session: SessionId,
    commands: &[(Command, u64)],
    answers: &mut Vec<Answer>,
) -> Outcomes
    requires few { length commands.now ≤ 16 }
    requires may { AllByRecursion (MayCall unkept.old.engine.plant) commands.now }
    requires room { length commands.now ≤ vec_capacity answers.old }
    requires none { answers.old.items ≡ [] }
    ensures plant { unkept.new.engine.plant ≡ unkept.old.engine.plant }
    ensures legal { IsLegal unkept.old.engine.plant (done_by session commands.now answers.new.items) unkept.old.engine.state }
    ensures state { unkept.new.engine.state ≡ run unkept.old.engine.plant (done_by session commands.now answers.new.items) unkept.old.engine.state }
    ensures done { length answers.new.items ≡ result.done }
    ensures rest { RestFits commands.now result.done result.rest }
    ensures no_fault { has_failed_rest result.rest ≡ false }
    ensures undenied { denial_of_rest result.rest ≡ None }
    ensures room { vec_capacity answers.new ≡ vec_capacity answers.old }
{
    let mut done = 0;
    for call in commands {
        match take_step(unkept, fed, session, &call.0, call.1) {
            Ok(answer) => answers.push_reserved(answer),
            Err(NoMemory) => {
                return Outcomes {
                    done,
                    rest: Some(Outcome::NoMemory),
                };
            }
        }
        done += 1;
    }
    Outcomes { done, rest: None }
}

/// Does what a caller asks for, as far as it finds memory, and puts its answers down.
fn step_one(unkept: &mut Unkept, fed: &mut u64, asked: &mut Asked)
    requires { MayAsk unkept.old.engine.plant asked.old }
    ensures plant { unkept.new.engine.plant ≡ unkept.old.engine.plant }
    ensures legal { IsLegal unkept.old.engine.plant (done_by asked.new.session asked.new.commands asked.new.answers.items) unkept.old.engine.state }
    ensures state { unkept.new.engine.state
        ≡ run unkept.old.engine.plant (done_by asked.new.session asked.new.commands asked.new.answers.items) unkept.old.engine.state }
    ensures asked { IsSameAsked asked.old asked.new }
    ensures no_fault { has_failed_rest asked.new.outcomes.rest ≡ false }
    ensures told { IsReplied false asked.new }
{
    asked.answers.clear();
    asked.outcomes = step_all(
        unkept,
        fed,
        asked.session,
        asked.commands.slice(),
        &mut asked.answers,
    );
    asked.tried = asked.outcomes.done;
}

/// Does what several callers ask for, one caller's commands behind another's, as far as each finds memory.
pub fn step_together(unkept: &mut Unkept, fed: &mut u64, group: &mut [Asked])
    requires { AllByRecursion (MayAsk unkept.old.engine.plant) group.old }
    ensures plant { unkept.new.engine.plant ≡ unkept.old.engine.plant }
    ensures whole { is_broken (made_together group.new) ≡ false }
    ensures legal { IsLegal unkept.old.engine.plant (made_together group.new) unkept.old.engine.state }
    ensures state { unkept.new.engine.state ≡ run unkept.old.engine.plant (made_together group.new) unkept.old.engine.state }
    ensures asked { AreSameAsked group.old group.new }
    ensures told { AreReplied false group.new }
{
    for asked in group.iter_mut() {
        step_one(unkept, fed, asked);
    }
}
