ghost use Rattle.std.specs.Prelude.{◌≡◌, ◌≤◌, false, length, min, IfOk};
ghost use Rattle.boss_model.specs.Catalogue.{actuators};
ghost use Rattle.boss_model.specs.Limits.{last_number};
ghost use Rattle.boss_model.specs.Settle.{first_state};
ghost use Rattle.boss_model.specs.Sound.{IsSound};

use crate::stepping::{events_behind, step_all, step_together};
use boss_engine::Engine;
use boss_model::{Answer, Command, DriverId, Effect, Items, Name, NoMemory, SessionId};
use boss_points::Catalogue;
use boss_shared::{Asked, Keeper};
use def_history::{Outcome, Outcomes};
use std::alloc::Global;

/// An engine that keeps nothing, and counts its events. It has no disk, so it never stops.
#[derive(Drop)]
pub struct Unkept {
    engine: Engine,
    /// How many events there were, up to `2 ^ 62`, where the number stands still.
    events: u64,
    ghost few: { events ≤ last_number },
}

impl Unkept {
    /// The engine of a catalogue before anything was done.
    pub fn new(alloc: Global, catalogue: &Catalogue) -> Result<Unkept, NoMemory>
        ensures new { IfOk result (λ keeper. keeper.engine
            ≡ record { plant = actuators catalogue.now; state = first_state (actuators catalogue.now) }) }
        ensures sound { IfOk result (λ keeper. IsSound keeper.engine.plant keeper.engine.state) }
        ensures events { IfOk result (λ keeper. keeper.events ≡ 0) }
    {
        Ok(Unkept {
            engine: Engine::new(alloc, catalogue)?,
            events: 0,
        })
    }

    /// How many events there were, up to `2 ^ 62`, where the number stands still.
    pub fn events(&self) -> u64
        ensures { result ≡ self.now.events }
    {
        self.events
    }

    /// The engine, with what was done so far.
    pub fn engine(&self) -> &Engine
        ensures { result.now ≡ self.now.engine }
    {
        &self.engine
    }
}

impl Keeper for Unkept {
    ghost plant = { λ keeper. keeper.engine.plant };

    ghost state = { λ keeper. keeper.engine.state };

    ghost stopped = { λ keeper. false };

    ghost faults = { λ keeper. 0 };

    ghost leaves = { λ keeper first second. Unit {0} };

    ghost passes = { λ old new first second. Unit {0} };

    ghost keeps = { λ keeper events. keeper.events ≡ min (length events) last_number };

    fn wanting(&self) -> Option<DriverId> {
        self.engine.wanting()
    }

    fn has_want(&self, driver: DriverId) -> bool {
        self.engine.has_want(driver)
    }

    fn first_due(&self) -> u64 {
        self.engine.first_due()
    }

    fn next_noticed(&mut self) -> Option<Name> {
        self.engine.next_noticed()
    }

    fn has_stopped(&self) -> bool {
        false
    }

    #[inline(always)]
    fn apply(&mut self, session: SessionId, command: &Command, moment: u64) -> Outcome {
        let mut effect = Effect::Unchanged;
        let outcome = self.engine.step_done(session, command, moment, &mut effect);
        self.events = events_behind(self.events, &effect);
        outcome
    }

    fn apply_all(
        &mut self,
        session: SessionId,
        commands: &Items<(Command, u64)>,
        answers: &mut Vec<Answer>,
    ) -> Outcomes {
        answers.clear();
        step_all(
            &mut self.engine,
            &mut self.events,
            session,
            commands.slice(),
            answers,
        )
    }

    fn apply_together(&mut self, group: &mut [Asked]) {
        step_together(&mut self.engine, &mut self.events, group);
    }
}
