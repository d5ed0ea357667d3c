ghost use Rattle.std.specs.Prelude.{◌≡◌, true, Some, IfErr, IfOk, OnErr, OnOk};
ghost use Rattle.def_bytes.specs.Events.{event as spelling};
ghost use Rattle.def_bytes.specs.States.{state};
ghost use Rattle.boss_durable.specs.Begun.{may_want};
ghost use Rattle.boss_durable.specs.Redone.{opened_at, Redoes};
ghost use Rattle.boss_durable.specs.Reached.{IsReached};
ghost use Rattle.def_history.specs.History.{MayCall};
ghost use Rattle.boss_engine.specs.declared.restoring.RestoreRefusal.TheVariants as refusal;
ghost use Rattle.boss_model.specs.Catalogue.{actuators};
ghost use Rattle.boss_model.specs.declared.event.Event.{Event};
ghost use Rattle.boss_model.specs.Effects.{event_of, step_effect};
ghost use Rattle.boss_model.specs.Machine.{step};
ghost use Rattle.boss_model.specs.Plants.{IsPlant};
ghost use Rattle.boss_model.specs.Seen.{seen};
ghost use Rattle.boss_model.specs.Sound.{IsSound, IsSoundPersistent};

use boss_bounds::is_modest;
use boss_engine::{Engine, RestoreRefusal};
use boss_model::{Answer, Command, Effect, Event, Kept, Name, NoMemory, SessionId};
use boss_points::Catalogue;
use std::alloc::Global;
use std::marker::Model;

/// An engine of a catalogue's points, in a state that can be reached.
///
/// A contract sees it as it sees the engine: as the plant and the state of the machine.
#[derive(Drop)]
pub struct SoundEngine {
    engine: Engine,
}

impl Model for SoundEngine {
    ghost use Rattle.boss_engine.specs.Running.{Running};

    ghost Value = { Running };

    ghost view = { λ sound. sound.engine };

    ghost use Rattle.boss_durable.specs.Reached.{IsReached};

    ghost invariant = { λ sound. IsReached sound.engine };
}

impl SoundEngine {
    pub fn new(engine: Engine) -> SoundEngine
        requires plant { IsPlant engine.plant }
        requires sound { IsSound engine.plant engine.state }
        ensures { result ≡ engine }
    {
        SoundEngine { engine }
    }

    /// The engine of a catalogue's points with what outlasted a stop: nobody is attached, and every point wants its target.
    pub fn restore(
        alloc: Global,
        catalogue: &Catalogue,
        kept: &Kept,
    ) -> Result<SoundEngine, RestoreRefusal>
        ensures engine { IfOk result (λ engine. engine ≡ opened_at (actuators catalogue.now) (seen kept.entry.now)) }
        ensures sound { OnOk result (IsSoundPersistent (actuators catalogue.now) (seen kept.entry.now)) }
        ensures fits { OnOk result ((state 2).fits (seen kept.entry.now) ≡ true) }
        ensures wrong { IfErr result (λ why. why ≡ refusal.NotSound → ¬ IsSoundPersistent (actuators catalogue.now) (seen kept.entry.now)) }
    {
        // Its points are a plant, so that what is sound has a spelling.
        catalogue.count();
        match Engine::restore(alloc, catalogue, kept) {
            Ok(engine) => Ok(SoundEngine::new(engine)),
            Err(refusal) => Err(refusal),
        }
    }

    /// The engine, to be asked.
    pub fn engine(&self) -> &Engine
        ensures is { result.now ≡ self.now }
        ensures reached { IsReached self.now }
    {
        &self.engine
    }

    /// The name of a process that was told something since it was given out so. None where there is none.
    pub fn next_noticed(&mut self) -> Option<Name>
        ensures { self.new ≡ self.old }
    {
        self.engine.next_noticed()
    }

    /// All that outlasts a stop, as plain lists. It is sound, and has a spelling.
    pub fn keep(&self, alloc: Global) -> Result<Kept, NoMemory>
        ensures kept { IfOk result (λ kept. seen kept ≡ self.now.state.persistent) }
        ensures fits { IfOk result (λ kept. (state 2).fits (seen kept) ≡ true) }
        ensures sound { IsSoundPersistent self.now.plant self.now.state.persistent }
    {
        self.engine.keep(alloc)
    }

    /// Carries a session's command out at a moment. Its event has a spelling. No memory is to be had only for a submit, an attach
    /// of a new name or notices, and then nothing has changed.
    pub fn step(
        &mut self,
        session: SessionId,
        command: &Command,
        moment: u64,
    ) -> Result<(Answer, Effect), NoMemory>
        requires { MayCall self.old.plant (command.now, moment) }
        ensures answer { IfOk result (λ told. told.0 ≡ (step self.old.plant session command.now moment self.old.state).answer) }
        ensures effect { IfOk result (λ told. told.1 ≡ step_effect self.old.plant session command.now moment self.old.state) }
        ensures state { IfOk result (λ _. self.new.state ≡ (step self.old.plant session command.now moment self.old.state).state) }
        ensures reached { IsReached self.old }
        ensures fits { (e : Event) → event_of command.now (step_effect self.old.plant session command.now moment self.old.state) ≡ Some e → spelling.fits e ≡ true }
        ensures plant { self.new.plant ≡ self.old.plant }
        ensures err { OnErr result (self.new ≡ self.old) }
        ensures wants { OnErr result (may_want self.old.state command.now ≡ true) }
    {
        self.engine.step(session, command, moment)
    }

    /// Does an event again, wherever it comes from. The answer is whether it is effective; if it is not, nothing has changed. If it
    /// is, all points are open after it. Where no memory is to be had nothing has changed either.
    pub fn replay(&mut self, event: &Event) -> Result<bool, NoMemory>
        requires { spelling.fits event.now ≡ true }
        ensures redoes { IfOk result (Redoes event.now self.old self.new) }
        ensures plant { self.new.plant ≡ self.old.plant }
        ensures err { OnErr result (self.new ≡ self.old) }
    {
        // The bytes of an event can ask for more than any that is effective does.
        if !is_modest(&event.act) {
            // What lasts is sound, and nothing sound does such an event.
            self.engine();
            return Ok(false);
        }
        self.engine.replay(event)
    }
}
