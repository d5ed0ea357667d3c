ghost use Rattle.std.specs.Prelude.{◌≡◌, ◌<◌, ◌≤◌, ◌+◌, ◌/◌, ℕ, Bool, false, List, [], length, None, IfOk, IfErr, vec_capacity};
ghost use Rattle.std.specs.List.{AllByRecursion};
ghost use Rattle.std.proofs.Props.{props};
ghost use Rattle.boss_model.specs.declared.event.Event.{Event};
ghost use Rattle.boss_model.specs.Catalogue.{actuators, Catalogue};
ghost use Rattle.boss_model.specs.Sound.{IsSound};
ghost use Rattle.boss_model.specs.Tellable.{IsTellable};
ghost use Rattle.boss_lock.specs.Places.{numbers_from};
ghost use Rattle.boss_lock.specs.Seats.{first_seat, IsSeatOf};
ghost use Rattle.def_history.specs.declared.entry.Tried.{Tried};
ghost use Rattle.def_history.specs.History.{MayCall};
ghost use Rattle.def_history.specs.Made.{made_by, made_by_all};
ghost use Rattle.boss_shared.specs.Calls.{has_failed_rest, is_stopped_rest, NoneDone, RestFits};
ghost use Rattle.boss_shared.specs.Gates.{denial_of_rest, AllowedAll, NextJudged};
ghost use Rattle.boss_shared.specs.Keeping.{IsHeld};
ghost use Rattle.boss_shared.specs.Passes.{Batch, IsPassOf, Turn};
ghost use Rattle.boss_shared.specs.Together.{IsPaired};

use crate::{Desk, Held, Keeper, Pass, Request};
use boss_counters::Counter;
use boss_lock::{Made, Ruled};
use boss_model::{Answer, Command, Items, MOST_COUNTERS, NoMemory, SessionId};
use def_history::{Entry, Outcome, Outcomes};
use std::alloc::{AllocFailed, Global};
use std::sync::Wait;

/// A keeper behind a lock, for many callers at once.
pub struct Manager<K: Keeper, R: Wait + Drop> {
    pub(crate) lock: Ruled<Held<K>>,
    // Where callers who wait leave what they ask for.
    pub(crate) counters: Vec<Counter<Request<K>>>,
    // For copies of what they ask for.
    pub(crate) alloc: Global,
    // By which a call may wait for its turn.
    pub(crate) rt: R,
    ghost keys: { AllByRecursion (λ counter. counter.key ≡ lock) counters.items } by { Prim.hlevel props },
}

// Counters at which requests for this lock may lie: as many as there are callers, or as there is memory for.
fn counters_of<K: Keeper>(
    alloc: Global,
    lock: &Ruled<Held<K>>,
    callers: u32,
) -> Vec<Counter<Request<K>>>
    ensures keys { AllByRecursion (λ counter. counter.key ≡ lock.now) result.items }
{
    let mut counters = Vec::new(alloc);
    for _ in 0..callers.min(MOST_COUNTERS) {
        let Ok(counter) = Counter::new(alloc, lock) else {
            return counters;
        };
        if counters.push(counter).is_err() {
            return counters;
        }
    }
    counters
}

// What one call made.
#[derive(Drop)]
struct MadeOne<'a> {
    session: SessionId,
    command: &'a Command,
    moment: u64,
    outcome: &'a Outcome,
}

impl<'a, K: Keeper> Made<Held<K>> for MadeOne<'a> {
    ghost entries = { λ made. made_by made.session made.command.now made.moment made.outcome.now };
}

// What a call of several commands made, which was kept alone.
#[derive(Drop)]
struct MadeAll<'a> {
    session: SessionId,
    commands: &'a Items<(Command, u64)>,
    answers: &'a Vec<Answer>,
    outcomes: &'a Outcomes,
}

impl<'a, K: Keeper> Made<Held<K>> for MadeAll<'a> {
    ghost entries = { λ made. made_by_all [] made.session made.commands.now made.answers.now.items made.outcomes.now.rest };
}

impl<K: Keeper, R: Wait + Drop> Manager<K, R> {
    /// A manager of a keeper whose disk never failed, with an empty history, and its only pass, which has all `seats` parts.
    /// Without memory the keeper comes back as it was. Each part of a pass has a pair of the lock's parts.
    pub fn new(
        rt: R,
        alloc: Global,
        keeper: K,
        seats: u32,
    ) -> Result<(Manager<K, R>, Pass<K>), (K, NoMemory)>
        requires seats { 0 < seats }
        requires running { K.stopped keeper ≡ false }
        requires sound { IsSound (K.plant keeper) (K.state keeper) }
        requires images { K.leaves keeper (K.state keeper).persistent (K.state keeper).persistent }
        requires events { (before : List Event) × K.keeps keeper before }
        ensures start { IfOk result (λ made. made.0.lock.start ≡ keeper) }
        ensures seats { IfOk result (λ made. made.0.lock.seats / 2 ≡ seats) }
        ensures pass { IfOk result (λ made. made.1 ≡ first_seat made.0.lock) }
        ensures own { IfOk result (λ made. ⟦<Manager<K, R> as Desk>⟧.owns made.0 made.1) }
        ensures err { IfErr result (λ refused. refused.0 ≡ keeper) }
    {
        let keeper = match Box::new(alloc, keeper) {
            Ok(keeper) => keeper,
            Err(AllocFailed { value }) => return Err((value, NoMemory)),
        };
        match Ruled::new_in_pairs(alloc, Held { keeper }, seats) {
            Ok((lock, pass)) => {
                let counters = counters_of(alloc, &lock, seats);
                Ok((
                    Manager {
                        lock,
                        counters,
                        alloc,
                        rt,
                    },
                    pass,
                ))
            }
            Err((held, _)) => {
                let Held { keeper } = held;
                Err((Box::into_inner(keeper), NoMemory))
            }
        }
    }

    /// Ends the manager, and gives its keeper. It stands for all that the pass has seen, every entry of which is the pass's own.
    /// The pass has to have all parts, so it is the only one left.
    pub fn close(self, pass: Pass<K>) -> K
        requires own { ⟦<Manager<K, R> as Desk>⟧.owns self pass }
        requires all_parts { pass.parts / 2 ≡ self.lock.seats / 2 }
        ensures held { IsHeld K.plant K.state K.stopped K.faults K.leaves K.passes K.keeps self.lock.start result pass.seen }
        ensures under { K.under result ≡ K.under self.lock.start }
        ensures places { pass.places ≡ numbers_from 0 (length pass.seen) }
    {
        let Manager {
            lock,
            counters,
            alloc: _,
            rt,
        } = self;
        let Held { keeper } = lock.close(pass);
        drop(counters);
        drop(rt);
        Box::into_inner(keeper)
    }

    /// Does several commands of a session in a turn of the pass's own, and keeps them alone.
    fn call_alone(
        &self,
        pass: &mut Pass<K>,
        session: SessionId,
        commands: &Items<(Command, u64)>,
        answers: &mut Vec<Answer>,
    ) -> Outcomes
        requires own { ⟦<Manager<K, R> as Desk>⟧.owns self.now pass.old }
        requires some { 1 ≤ length commands.now }
        requires few { length commands.now ≤ 16 }
        requires may { AllByRecursion (MayCall (K.plant self.now.lock.start)) commands.now }
        requires room { length commands.now ≤ vec_capacity answers.old }
        ensures own { ⟦<Manager<K, R> as Desk>⟧.owns self.now pass.new }
        ensures parts { pass.new.parts ≡ pass.old.parts }
        ensures done { length answers.new.items ≡ result.done }
        ensures rest { RestFits commands.now result.done result.rest }
        ensures told { (catalogue : Catalogue) → actuators catalogue ≡ K.plant self.now.lock.start →
            AllByRecursion (IsTellable catalogue) answers.new.items }
        ensures room { vec_capacity answers.new ≡ vec_capacity answers.old }
        ensures turn { Turn (K.plant self.now.lock.start) (K.state self.now.lock.start) pass.old.seen pass.old.places pass.new.seen pass.new.places
            (made_by_all [] session commands.now answers.new.items result.rest) (is_stopped_rest result.rest) }
        ensures together { NoneDone result.done result.rest }
        ensures undenied { denial_of_rest result.rest ≡ None }
    {
        let mut held = self.lock.enter(&self.rt, pass);
        let outcomes = held.keeper.apply_all(session, commands, answers);
        let made = MadeAll {
            session,
            commands,
            answers: &*answers,
            outcomes: &outcomes,
        };
        self.lock.leave(pass, held, &made);
        outcomes
    }
}

impl<K: Keeper, R: Wait + Drop> Desk for Manager<K, R> {
    type Pass = Pass<K>;

    ghost plant = { λ manager. K.plant manager.lock.start };

    ghost opening = { λ manager. K.state manager.lock.start };

    ghost owns = { λ manager pass. IsSeatOf manager.lock pass × (pass.turn ≡ None)
        × IsPassOf (K.plant manager.lock.start) (K.state manager.lock.start) pass.seen pass.places
        × IsPaired pass.parts × IsPaired manager.lock.seats };

    ghost seen = { λ pass. pass.seen };

    ghost mine = { λ pass. pass.places };

    ghost parts = { λ pass. pass.parts / 2 };

    ghost denies = { λ _. [] };

    ghost held = { λ _. [] };

    fn call(
        &self,
        pass: &mut Pass<K>,
        session: SessionId,
        command: &Command,
        moment: u64,
    ) -> Outcome {
        let mut held = self.lock.enter(&self.rt, pass);
        let outcome = held.keeper.apply(session, command, moment);
        let made = MadeOne {
            session,
            command,
            moment,
            outcome: &outcome,
        };
        self.lock.leave(pass, held, &made);
        outcome
    }

    fn call_all(
        &self,
        pass: &mut Pass<K>,
        session: SessionId,
        commands: &Items<(Command, u64)>,
        answers: &mut Vec<Answer>,
    ) -> Outcomes
        requires own { ⟦<Manager<K, R> as Desk>⟧.owns self.now pass.old }
        requires some { 1 ≤ length commands.now }
        requires few { length commands.now ≤ 16 }
        requires may { AllByRecursion (MayCall (K.plant self.now.lock.start)) commands.now }
        requires room { length commands.now ≤ vec_capacity answers.old }
        ensures own { ⟦<Manager<K, R> as Desk>⟧.owns self.now pass.new }
        ensures parts { pass.new.parts / 2 ≡ pass.old.parts / 2 }
        ensures batch { Batch (K.plant self.now.lock.start) (K.state self.now.lock.start) pass.old.seen pass.old.places pass.new.seen pass.new.places
            session commands.now answers.new.items result.rest }
        ensures allowed { AllowedAll [] session commands.now answers.new.items [] [] }
        ensures gate { NextJudged [] [] session commands.now result.done result.rest }
        ensures done { length answers.new.items ≡ result.done }
        ensures rest { RestFits commands.now result.done result.rest }
        ensures told { (catalogue : Catalogue) → actuators catalogue ≡ K.plant self.now.lock.start →
            AllByRecursion (IsTellable catalogue) answers.new.items }
        ensures room { vec_capacity answers.new ≡ vec_capacity answers.old }
        // Beyond what every desk does: the entries stand next to each other, none is done where the disk fails, and none is denied.
        // The mark may hold what others asked for in the same turn.
        ensures turn { (others : List Tried) × Turn (K.plant self.now.lock.start) (K.state self.now.lock.start) pass.old.seen pass.old.places pass.new.seen pass.new.places
            (made_by_all others session commands.now answers.new.items result.rest) (is_stopped_rest result.rest) }
        ensures together { NoneDone result.done result.rest }
        ensures undenied { denial_of_rest result.rest ≡ None }
    {
        match self.post(pass, session, commands, answers) {
            Some(posted) => self.collect(pass, answers, posted),
            None => self.call_alone(pass, session, commands, answers),
        }
    }

    fn split(&self, pass: &mut Pass<K>) -> Pass<K> {
        let mut other = self.lock.split(pass);
        let second = self.lock.split(pass);
        self.lock.fold(&mut other, second);
        other
    }

    fn join(&self, pass: &mut Pass<K>, other: Pass<K>) {
        self.lock.join(pass, other);
    }

    ghost owned = { λ manager pass own. own.2 };
}
