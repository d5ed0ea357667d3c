// An engine that keeps what it does in memory, on a disk that fails and with memory that is wanting when it is told to.
ghost use Rattle.std.specs.Prelude.{◌≡◌, ◌⊎◌, Bool, true, false, not, if◌then◌else◌, IsTrue, [], IfOk};
ghost use Rattle.boss_model.specs.Catalogue.{actuators};
ghost use Rattle.boss_model.specs.Sound.{IsSound};

use crate::stepping::{step_all, step_together, take_step};
use boss_memory_keeper::Unkept;
use boss_model::{Answer, Command, DriverId, Items, Name, NoMemory, SessionId};
use boss_points::Catalogue;
use boss_shared::{Asked, Keeper, fail_all, stop_all};
use def_history::{Outcome, Outcomes};
use std::alloc::Global;
use std::hint::spin_loop;

/// A call of a keeper in which the disk did not fail.
#[derive(Clone, Copy, Debug, PartialEq, Eq)]
pub struct Taken {
    /// The session of its first command.
    pub session: SessionId,
    /// How many commands it had: at least 1.
    pub commands: usize,
    /// The moment of the first of them, in milliseconds.
    pub moment: u64,
    /// How many callers it was for: 1, or more where it kept together what they asked for.
    pub callers: usize,
    /// The machine's own moment after the call, in milliseconds, where it was one of a tick alone, which is told it.
    pub ticked: Option<u64>,
}

/// An engine whose disk fails in the call after so many good ones. It tells what a crash would leave, and no events.
#[derive(Drop)]
pub struct FailingKeeper {
    unkept: Unkept,
    good_calls: u64,
    stopped: bool,
    /// How many more of the commands that may want memory find it, before one finds none.
    fed: u64,
    /// How often a call looks about before it does anything, so that others come to wait for it.
    looks: u32,
    taken: Items<Taken>,
}

impl FailingKeeper {
    /// The engine of a catalogue before anything was done. Every command finds memory.
    pub fn new(
        alloc: Global,
        catalogue: &Catalogue,
        good_calls: u64,
    ) -> Result<FailingKeeper, NoMemory>
        ensures plant { IfOk result (λ keeper. keeper.unkept.engine.plant ≡ actuators catalogue.now) }
        ensures sound { IfOk result (λ keeper. IsSound keeper.unkept.engine.plant keeper.unkept.engine.state) }
        ensures running { IfOk result (λ keeper. keeper.stopped ≡ false) }
    {
        FailingKeeper::starving(alloc, catalogue, good_calls, u64::MAX)
    }

    /// The same, where so many of the commands that may want memory find it, the next one finds none, and all later ones do
    /// again.
    pub fn starving(
        alloc: Global,
        catalogue: &Catalogue,
        good_calls: u64,
        fed: u64,
    ) -> Result<FailingKeeper, NoMemory>
        ensures plant { IfOk result (λ keeper. keeper.unkept.engine.plant ≡ actuators catalogue.now) }
        ensures sound { IfOk result (λ keeper. IsSound keeper.unkept.engine.plant keeper.unkept.engine.state) }
        ensures running { IfOk result (λ keeper. keeper.stopped ≡ false) }
    {
        Ok(FailingKeeper {
            unkept: Unkept::new(alloc, catalogue)?,
            good_calls,
            stopped: false,
            fed,
            looks: 0,
            taken: Items::new(alloc),
        })
    }

    /// The same keeper, each of whose calls looks about so often before it does anything.
    pub fn slow(self, looks: u32) -> FailingKeeper
        ensures unkept { result.unkept ≡ self.unkept }
        ensures stopped { result.stopped ≡ self.stopped }
    {
        FailingKeeper { looks, ..self }
    }

    /// The calls in which the disk did not fail, in order, but for those that there was no memory to note.
    pub fn taken(&self) -> &[Taken] {
        self.taken.slice()
    }

    /// The same calls, once nothing more is to be done.
    pub fn into_taken(self) -> Items<Taken> {
        let FailingKeeper { taken, .. } = self;
        taken
    }

    /// Notes a call.
    fn note(&mut self, call: Taken)
        ensures unkept { self.new.unkept ≡ self.old.unkept }
        ensures stopped { self.new.stopped ≡ self.old.stopped }
    {
        let _ = self.taken.try_push(call);
    }

    /// Notes a call for several callers.
    fn note_together(&mut self, group: &[Asked])
        ensures unkept { self.new.unkept ≡ self.old.unkept }
        ensures stopped { self.new.stopped ≡ self.old.stopped }
    {
        let Some(first) = group.first() else {
            return;
        };
        let Some(call) = first.commands.slice().first() else {
            return;
        };
        self.note(Taken {
            session: first.session,
            commands: commands_in(group),
            moment: call.1,
            callers: group.len(),
            ticked: None,
        });
    }

    /// Whether the disk fails in this call, which it is not to be asked again.
    fn fails(&mut self) -> bool
        requires { self.old.stopped ≡ false }
        ensures stopped { self.new.stopped ≡ result }
        ensures unkept { self.new.unkept ≡ self.old.unkept }
    {
        for _ in 0..self.looks {
            spin_loop();
        }
        if self.good_calls == 0 {
            self.stopped = true;
            return true;
        }
        self.good_calls -= 1;
        false
    }
}

/// The machine's own moment, of an answer that tells it.
fn ticked(step: &Result<Answer, NoMemory>) -> Option<u64> {
    match step {
        Ok(Answer::Ticked { now }) => Some(*now),
        _ => None,
    }
}

/// How many commands several callers ask for, at most `usize::MAX`.
fn commands_in(group: &[Asked]) -> usize {
    let mut commands: usize = 0;
    for asked in group {
        commands = commands.saturating_add(asked.commands.slice().len());
    }
    commands
}

impl Keeper for FailingKeeper {
    ghost plant = { λ keeper. keeper.unkept.engine.plant };

    ghost state = { λ keeper. keeper.unkept.engine.state };

    ghost stopped = { λ keeper. keeper.stopped };

    ghost faults = { λ keeper. if keeper.stopped then 1 else 0 };

    ghost leaves = { λ keeper first second. (keeper.unkept.engine.state.persistent ≡ first) ⊎ (keeper.unkept.engine.state.persistent ≡ second) };

    ghost passes = { λ old new first second. (old.unkept.engine.state.persistent ≡ first)
        × ((new.unkept.engine.state.persistent ≡ first) ⊎ (new.unkept.engine.state.persistent ≡ second)) };

    ghost keeps = { λ keeper events. Unit {0} };

    fn wanting(&self) -> Option<DriverId> {
        self.unkept.wanting()
    }

    fn has_want(&self, driver: DriverId) -> bool {
        self.unkept.has_want(driver)
    }

    fn first_due(&self) -> u64 {
        self.unkept.first_due()
    }

    fn next_noticed(&mut self) -> Option<Name> {
        self.unkept.next_noticed()
    }

    fn has_stopped(&self) -> bool {
        self.stopped
    }

    fn apply(&mut self, session: SessionId, command: &Command, moment: u64) -> Outcome {
        if self.stopped {
            return Outcome::Stopped;
        }
        if self.fails() {
            return Outcome::DiskFault;
        }
        let step = take_step(&mut self.unkept, &mut self.fed, session, command, moment);
        self.note(Taken {
            session,
            commands: 1,
            moment,
            callers: 1,
            ticked: ticked(&step),
        });
        match step {
            Ok(answer) => Outcome::Done { answer },
            Err(NoMemory) => Outcome::NoMemory,
        }
    }

    fn apply_all(
        &mut self,
        session: SessionId,
        commands: &Items<(Command, u64)>,
        answers: &mut Vec<Answer>,
    ) -> Outcomes {
        answers.clear();
        if self.stopped {
            return Outcomes {
                done: 0,
                rest: Some(Outcome::Stopped),
            };
        }
        if self.fails() {
            return Outcomes {
                done: 0,
                rest: Some(Outcome::DiskFault),
            };
        }
        let calls = commands.slice();
        let outcomes = step_all(&mut self.unkept, &mut self.fed, session, calls, answers);
        self.note(Taken {
            session,
            commands: calls.len(),
            moment: calls[0].1,
            callers: 1,
            ticked: None,
        });
        outcomes
    }

    fn apply_together(&mut self, group: &mut [Asked]) {
        if self.stopped {
            stop_all(group);
            return;
        }
        if self.fails() {
            fail_all(group);
            return;
        }
        step_together(&mut self.unkept, &mut self.fed, group);
        self.note_together(group);
    }
}
