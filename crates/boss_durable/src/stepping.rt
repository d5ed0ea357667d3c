ghost use Rattle.std.specs.Prelude.{◌≡◌, ℕ, ◌+◌, ◌≤◌, ◌<◌, true, List, [], ◌∷◌, ◌++◌, length, IfOk, OnErr, vec_capacity};
ghost use Rattle.boss_model.specs.Limits.{most_held, record_room};
ghost use Rattle.std.specs.List.{AllByRecursion};
ghost use Rattle.def_history.specs.declared.entry.Entry.{Entry};
ghost use Rattle.def_history.specs.declared.entry.Entry.TheVariants.{Did};
ghost use Rattle.def_history.specs.History.{MayCall};
ghost use Rattle.def_history.specs.Made.{done_by, is_growing};
ghost use Rattle.boss_model.specs.State.{State};
ghost use Rattle.boss_shared.specs.Calls.{is_growing_at};
ghost use Rattle.boss_durable.specs.Begun.{may_want};
ghost use Rattle.boss_durable.specs.Taken.{Taken};

use crate::batch::Batch;
use crate::sound_engine::SoundEngine;
use boss_model::{Answer, Command, NoMemory, SessionId};

/// Does a command and puts its event behind the others. No memory is to be had only for a submit, an attach of a new name or
/// notices, and then nothing has changed.
pub fn take_step(
    engine: &mut SoundEngine,
    batch: &mut Batch,
    session: SessionId,
    command: &Command,
    moment: u64,
) -> Result<Answer, NoMemory>
    requires may { MayCall engine.old.plant (command.now, moment) }
    requires room { length batch.old.bytes.bytes + 4096 ≤ batch.old.bytes.capacity }
    requires few { batch.old.events < most_held }
    ensures taken { (made : List Entry) (start : State) → Taken engine.old.plant made start engine.old.state batch.old →
        IfOk result (λ answer. Taken engine.old.plant (made ++ Did session command.now moment answer ∷ []) start engine.new.state batch.new) }
    ensures plant { engine.new.plant ≡ engine.old.plant }
    ensures capacity { batch.new.bytes.capacity ≡ batch.old.bytes.capacity }
    ensures err { OnErr result (engine.new ≡ engine.old) }
    ensures none { OnErr result (batch.new ≡ batch.old) }
    ensures memory { OnErr result (may_want engine.old.state command.now ≡ true) }
    ensures grows { OnErr result (is_growing command.now ≡ true) }
{
    match engine.step(session, command, moment) {
        Ok((answer, effect)) => {
            batch.put(command, &effect);
            Ok(answer)
        }
        Err(NoMemory) => Err(NoMemory),
    }
}

/// Does commands in order as far as there is memory, and puts down their answers and their events, of which there are none before.
pub fn take_steps(
    engine: &mut SoundEngine,
    batch: &mut Batch,
    session: SessionId,
    commands: &[(Command, u64)],
    answers: &mut Vec<Answer>,
)
    requires few { length commands.now ≤ most_held }
    requires may { AllByRecursion (MayCall engine.old.plant) commands.now }
    requires nothing { (batch.old.bytes.bytes ≡ []) }
    requires no_event { batch.old.events ≡ 0 }
    requires bytes { batch.old.bytes.capacity ≡ record_room }
    requires none { answers.old.items ≡ [] }
    requires room { length commands.now ≤ vec_capacity answers.old }
    ensures taken { Taken engine.old.plant (done_by session commands.now answers.new.items) engine.old.state engine.new.state batch.new }
    ensures many { length answers.new.items ≤ length commands.now }
    ensures rest { length answers.new.items < length commands.now → is_growing_at commands.now (length answers.new.items) ≡ true }
    ensures plant { engine.new.plant ≡ engine.old.plant }
    ensures capacity { batch.new.bytes.capacity ≡ batch.old.bytes.capacity }
    ensures room { vec_capacity answers.new ≡ vec_capacity answers.old }
{
    take_more(engine, batch, session, commands, answers);
}

/// The same behind the events of what was done before in the same call, where all are 16 commands at most.
pub fn take_more(
    engine: &mut SoundEngine,
    batch: &mut Batch,
    session: SessionId,
    commands: &[(Command, u64)],
    answers: &mut Vec<Answer>,
)
    requires few { (made : List Entry) × (start : State) × Taken engine.old.plant made start engine.old.state batch.old × (length made + length commands.now ≤ most_held) }
    requires may { AllByRecursion (MayCall engine.old.plant) commands.now }
    requires bytes { batch.old.bytes.capacity ≡ record_room }
    requires none { answers.old.items ≡ [] }
    requires room { length commands.now ≤ vec_capacity answers.old }
    ensures taken { (made : List Entry) (start : State) → Taken engine.old.plant made start engine.old.state batch.old →
        Taken engine.old.plant (made ++ done_by session commands.now answers.new.items) start engine.new.state batch.new }
    ensures many { length answers.new.items ≤ length commands.now }
    ensures rest { length answers.new.items < length commands.now → is_growing_at commands.now (length answers.new.items) ≡ true }
    ensures plant { engine.new.plant ≡ engine.old.plant }
    ensures capacity { batch.new.bytes.capacity ≡ batch.old.bytes.capacity }
    ensures room { vec_capacity answers.new ≡ vec_capacity answers.old }
{
    for call in commands {
        match take_step(engine, batch, session, &call.0, call.1) {
            Ok(answer) => answers.push_reserved(answer),
            Err(NoMemory) => return,
        }
    }
}
