ghost use Rattle.std.specs.Prelude.{◌≡◌, ◌+◌, ◌≤◌, false, true, [], length, min, vec_capacity, None, IfOk, OnErr};
ghost use Rattle.std.specs.List.{AllByRecursion};
ghost use Rattle.def_history.specs.History.{events, if_event, is_broken, IsLegal, MayCall, run};
ghost use Rattle.def_history.specs.Made.{done_by, is_growing};
ghost use Rattle.boss_model.specs.Effects.{event_of, step_effect};
ghost use Rattle.boss_model.specs.Limits.{last_number};
ghost use Rattle.boss_model.specs.Machine.{step};
ghost use Rattle.boss_model.specs.declared.command.Command.{Command};
ghost use Rattle.boss_shared.specs.Calls.{has_failed_rest, RestFits};
ghost use Rattle.boss_shared.specs.Gates.{denial_of_rest};
ghost use Rattle.boss_shared.specs.Together.{commands_in, made_together, AreReplied, AreSameAsked, IsReplied, IsSameAsked, MayAsk};

use boss_engine::Engine;
use boss_model::{Answer, Command, Effect, LAST_NUMBER, NoMemory, SessionId};
use boss_shared::Asked;
use def_history::{Outcome, Outcomes};

/// How many events there are behind a step that did this, where there were so many before it.
pub fn events_behind(events: u64, effect: &Effect) -> u64
    requires { events ≤ last_number }
    ensures count { (command : Command) → result ≡ min (events + length (if_event (event_of command effect.now) [])) last_number }
    ensures few { result ≤ last_number }
{
    match effect {
        Effect::Unchanged => events,
        Effect::Tick { .. } | Effect::Whole { .. } => (events + 1).min(LAST_NUMBER),
    }
}

/// Does a command, and counts its event.
fn step_counted(
    engine: &mut Engine,
    count: &mut u64,
    session: SessionId,
    command: &Command,
    moment: u64,
) -> Result<Answer, NoMemory>
    requires may { MayCall engine.old.plant (command.now, moment) }
    requires few { count.old ≤ last_number }
    ensures answer { IfOk result (λ answer. answer ≡ (step engine.old.plant session command.now moment engine.old.state).answer) }
    ensures state { IfOk result (λ _. engine.new.state ≡ (step engine.old.plant session command.now moment engine.old.state).state) }
    ensures count { IfOk result (λ _. count.new
        ≡ min (count.old + length (if_event (event_of command.now (step_effect engine.old.plant session command.now moment engine.old.state)) [])) last_number) }
    ensures plant { engine.new.plant ≡ engine.old.plant }
    ensures few { count.new ≤ last_number }
    ensures err { OnErr result (engine.new ≡ engine.old) }
    ensures none { OnErr result (count.new ≡ count.old) }
    ensures memory { OnErr result (is_growing command.now ≡ true) }
{
    match engine.step(session, command, moment) {
        Ok((answer, effect)) => {
            *count = events_behind(*count, &effect);
            Ok(answer)
        }
        Err(NoMemory) => Err(NoMemory),
    }
}

/// Does commands in order as far as there is memory, puts their answers down, and counts their events.
pub fn step_all(
    engine: &mut Engine,
    count: &mut u64,
    session: SessionId,
    commands: &[(Command, u64)],
    answers: &mut Vec<Answer>,
) -> Outcomes
    requires few { length commands.now ≤ 16 }
    requires may { AllByRecursion (MayCall engine.old.plant) commands.now }
    requires room { length commands.now ≤ vec_capacity answers.old }
    requires none { answers.old.items ≡ [] }
    requires counted { count.old ≤ last_number }
    ensures plant { engine.new.plant ≡ engine.old.plant }
    ensures legal { IsLegal engine.old.plant (done_by session commands.now answers.new.items) engine.old.state }
    ensures state { engine.new.state ≡ run engine.old.plant (done_by session commands.now answers.new.items) engine.old.state }
    ensures count { count.new ≡ min (count.old + length (events engine.old.plant (done_by session commands.now answers.new.items) engine.old.state)) last_number }
    ensures done { length answers.new.items ≡ result.done }
    ensures rest { RestFits commands.now result.done result.rest }
    ensures no_fault { has_failed_rest result.rest ≡ false }
    ensures undenied { denial_of_rest result.rest ≡ None }
    ensures room { vec_capacity answers.new ≡ vec_capacity answers.old }
{
    let mut done = 0;
    for call in commands {
        match step_counted(engine, count, session, &call.0, call.1) {
            Ok(answer) => answers.push_reserved(answer),
            Err(NoMemory) => {
                return Outcomes {
                    done,
                    rest: Some(Outcome::NoMemory),
                };
            }
        }
        done += 1;
    }
    Outcomes { done, rest: None }
}

/// Does what a caller asks for, as far as there is memory, puts its answers down, and counts their events.
fn step_one(engine: &mut Engine, count: &mut u64, asked: &mut Asked)
    requires may { MayAsk engine.old.plant asked.old }
    requires counted { count.old ≤ last_number }
    ensures plant { engine.new.plant ≡ engine.old.plant }
    ensures legal { IsLegal engine.old.plant (done_by asked.new.session asked.new.commands asked.new.answers.items) engine.old.state }
    ensures state { engine.new.state ≡ run engine.old.plant (done_by asked.new.session asked.new.commands asked.new.answers.items) engine.old.state }
    ensures count { count.new
        ≡ min (count.old + length (events engine.old.plant (done_by asked.new.session asked.new.commands asked.new.answers.items) engine.old.state)) last_number }
    ensures asked { IsSameAsked asked.old asked.new }
    ensures no_fault { has_failed_rest asked.new.outcomes.rest ≡ false }
    ensures told { IsReplied false asked.new }
{
    asked.answers.clear();
    asked.outcomes = step_all(
        engine,
        count,
        asked.session,
        asked.commands.slice(),
        &mut asked.answers,
    );
    asked.tried = asked.outcomes.done;
}

/// Does what several callers ask for, one caller's commands behind another's, as far as there is memory for each, puts their answers
/// down, and counts their events.
pub fn step_together(engine: &mut Engine, count: &mut u64, group: &mut [Asked])
    requires few { commands_in group.old ≤ 16 }
    requires may { AllByRecursion (MayAsk engine.old.plant) group.old }
    requires counted { count.old ≤ last_number }
    ensures plant { engine.new.plant ≡ engine.old.plant }
    ensures whole { is_broken (made_together group.new) ≡ false }
    ensures legal { IsLegal engine.old.plant (made_together group.new) engine.old.state }
    ensures state { engine.new.state ≡ run engine.old.plant (made_together group.new) engine.old.state }
    ensures count { count.new ≡ min (count.old + length (events engine.old.plant (made_together group.new) engine.old.state)) last_number }
    ensures asked { AreSameAsked group.old group.new }
    ensures told { AreReplied false group.new }
{
    for asked in group.iter_mut() {
        step_one(engine, count, asked);
    }
}
