// The turns of a manager in which callers' requests are served together.
ghost use Rattle.std.specs.Prelude.{◌≡◌, ◌+◌, ◌++◌, ◌≤◌, [], length, IfSome, IfNone, IfOk, IfErr, vec_capacity};
ghost use Rattle.std.specs.List.{AllByRecursion};
ghost use Rattle.boss_counters.specs.Matters.{at_counter, IsAt};
ghost use Rattle.boss_lock.specs.Seats.{found, with_parts_of};
ghost use Rattle.boss_model.specs.Limits.{most_held};
ghost use Rattle.boss_model.specs.Sound.{IsSound};
ghost use Rattle.def_history.specs.History.{is_broken, IsLegal, MayCall};
ghost use Rattle.boss_shared.specs.Groups.{IsBare, IsCollected, IsEmpty, IsIdleOf, IsTaken, IsTurnOf};
ghost use Rattle.boss_shared.specs.Together.{commands_in, made_of, IsPaired, IsReplied, IsSameAsked, IsServed, MayAsk};

use crate::group::{Group, Owed};
use crate::{Asked, Held, Keeper, Manager, Pass, Request};
use boss_copies::copy_commands;
use boss_counters::{Counter, Slip};
use boss_lock::{Made, Stands};
use boss_model::{Answer, Command, Items, MOST_HELD, SessionId};
use def_history::Outcomes;
use std::mem;
use std::sync::Wait;

// What a turn makes in which nothing is done, or all is lent.
#[derive(Drop)]
struct MadeNothing;

impl<K: Keeper> Made<Held<K>> for MadeNothing {
    ghost entries = { λ made. [] };
}

// What one caller's request made, before those behind it.
#[derive(Drop)]
struct MadeBefore<'a> {
    asked: &'a Asked,
    behind: &'a [Asked],
}

impl<'a, K: Keeper> Made<Held<K>> for MadeBefore<'a> {
    ghost entries = { λ made. made_of made.asked.now made.behind.now };
}

/// A request that a caller has left, where its reply will be, and room for those that the caller may have to serve.
#[derive(Drop)]
pub struct Posted<'a, K: Keeper> {
    counter: &'a Counter<Request<K>>,
    slip: Slip<Request<K>>,
    group: Group<'a, K>,
    ghost own: { IsAt counter.now slip },
    ghost empty: { (group.asked.items ≡ []) × (group.owed.items ≡ []) },
    ghost room: { (most_held ≤ vec_capacity group.asked) × (most_held ≤ vec_capacity group.owed) },
}

impl<K: Keeper, R: Wait + Drop> Manager<K, R> {
    /// Leaves what a caller asks for at a free counter, with the caller's seat and its room for the answers; the pass is then a bare
    /// seat that takes the turns. None where nobody else has the turn or waits for it, where no counter is free, and where no memory
    /// was to be had for it; then the caller has all as before.
    pub(crate) fn post(
        &self,
        pass: &mut Pass<K>,
        session: SessionId,
        commands: &Items<(Command, u64)>,
        answers: &mut Vec<Answer>,
    ) -> Option<Posted<'_, K>>
        requires own { IsIdleOf self.now.lock pass.old }
        requires paired { IsPaired pass.old.parts }
        requires some { 1 ≤ length commands.now }
        requires few { length commands.now ≤ 16 }
        requires may { AllByRecursion (MayCall (K.plant self.now.lock.start)) commands.now }
        requires room { length commands.now ≤ vec_capacity answers.old }
        ensures own { IsIdleOf self.now.lock pass.new }
        ensures posted { IfSome result (λ posted. (with_parts_of posted.slip.request.seat pass.new ≡ pass.old)
            × IsIdleOf self.now.lock posted.slip.request.seat × IsBare pass.new) }
        ensures session { IfSome result (λ posted. posted.slip.request.asked.session ≡ session) }
        ensures commands { IfSome result (λ posted. posted.slip.request.asked.commands ≡ commands.now) }
        ensures room { IfSome result (λ posted. vec_capacity posted.slip.request.asked.answers ≡ vec_capacity answers.old) }
        ensures pass { IfNone result (pass.new ≡ pass.old) }
        ensures answers { IfNone result (answers.new ≡ answers.old) }
    {
        if self.lock.is_free() {
            return None;
        }
        let Ok(group) = Group::new(self.alloc) else {
            return None;
        };
        let Ok(commands) = copy_commands(self.alloc, commands) else {
            return None;
        };
        let runner = self.lock.split(pass);
        let request = Request {
            seat: mem::replace(pass, runner),
            asked: Asked {
                session,
                commands,
                answers: mem::replace(answers, Vec::new(self.alloc)),
                tried: 0,
                outcomes: Outcomes {
                    done: 0,
                    rest: None,
                },
            },
        };
        match self.lay(request) {
            Ok((counter, slip)) => Some(Posted {
                counter,
                slip,
                group,
            }),
            Err(request) => {
                self.take_back(pass, answers, request);
                None
            }
        }
    }

    /// Leaves a request at the first counter that is free. It comes back where none is.
    fn lay(
        &self,
        request: Request<K>,
    ) -> Result<(&Counter<Request<K>>, Slip<Request<K>>), Request<K>>
        requires may { IsIdleOf self.now.lock request.seat × MayAsk (K.plant self.now.lock.start) request.asked }
        ensures posted { IfOk result (λ posted. posted.1 ≡ at_counter posted.0.now request) }
        ensures key { IfOk result (λ posted. posted.0.now.key ≡ self.now.lock) }
        ensures refused { IfErr result (λ back. back ≡ request) }
    {
        let mut request = request;
        for counter in &self.counters {
            match counter.post(request) {
                Ok(slip) => return Ok((counter, slip)),
                Err(back) => request = back,
            }
        }
        Err(request)
    }

    /// Gives a caller its seat and its room for answers back, with what it was told. The seat that took the turns is folded into its
    /// own.
    fn take_back(
        &self,
        pass: &mut Pass<K>,
        answers: &mut Vec<Answer>,
        request: Request<K>,
    ) -> Outcomes
        requires own { IsIdleOf self.now.lock pass.old × IsIdleOf self.now.lock request.seat }
        requires bare { IsBare pass.old }
        ensures pass { pass.new ≡ with_parts_of request.seat pass.old }
        ensures answers { answers.new ≡ request.asked.answers }
        ensures told { result ≡ request.asked.outcomes }
    {
        let Request { seat, asked } = request;
        let runner = mem::replace(pass, seat);
        self.lock.fold(pass, runner);
        let Asked {
            answers: given,
            outcomes,
            ..
        } = asked;
        *answers = given;
        outcomes
    }

    /// Takes turns until the reply to a request is there, and gives the caller what it was told. The first turn is enough.
    pub(crate) fn collect<'a>(
        &'a self,
        pass: &mut Pass<K>,
        answers: &mut Vec<Answer>,
        posted: Posted<'a, K>,
    ) -> Outcomes
        requires own { IsIdleOf self.now.lock pass.old × IsIdleOf self.now.lock posted.slip.request.seat }
        requires bare { IsBare pass.old }
        ensures collected { IsCollected K.plant K.state posted.entry.slip.request.seat posted.entry.slip.request.asked pass.new answers.new.items (vec_capacity answers.new) result }
    {
        let Posted {
            counter,
            mut slip,
            mut group,
            ..
        } = posted;
        for _ in self.rt.forever() {
            match self.take_turn(pass, counter, slip, &mut group) {
                Ok(reply) => return self.take_back(pass, answers, reply),
                Err(kept) => slip = kept,
            }
        }
        unreachable!()
    }

    /// Takes a turn, in which all that lies at the counters is served, unless the reply is there by then. The group is empty, before and
    /// after.
    fn take_turn<'a>(
        &'a self,
        runner: &mut Pass<K>,
        counter: &Counter<Request<K>>,
        slip: Slip<Request<K>>,
        group: &mut Group<'a, K>,
    ) -> Result<Request<K>, Slip<Request<K>>>
        requires own { IsIdleOf self.now.lock runner.old }
        requires bare { IsBare runner.old }
        requires slip { IsAt counter.now slip }
        requires empty { IsEmpty group.old }
        ensures empty { IsEmpty group.new }
        ensures own { IsIdleOf self.now.lock runner.new }
        ensures bare { IsBare runner.new }
        ensures served { IfOk result (λ reply. IsServed K.plant K.state slip.request.seat reply.seat slip.request.asked reply.asked) }
        ensures kept { IfErr result (λ kept. kept ≡ slip) }
    {
        let mut held = self.lock.enter(&self.rt, runner);
        let found = match counter.collect(slip) {
            Ok(reply) => Ok(reply),
            Err(slip) => {
                self.serve_all(runner, &mut held, group);
                counter.collect(slip)
            }
        };
        self.lock.leave(runner, held, &MadeNothing);
        found
    }

    /// Serves all requests that lie at the counters, in groups of at most 16 commands.
    fn serve_all<'a>(&'a self, runner: &mut Pass<K>, held: &mut Held<K>, group: &mut Group<'a, K>)
        requires empty { IsEmpty group.old }
        requires turn { IsTurnOf self.now.lock runner.old }
        requires bare { IsBare runner.old }
        requires held { ⟦<Held<K> as Stands>⟧.stands held.old self.now.lock.start (found runner.old) }
        ensures empty { IsEmpty group.new }
        ensures turn { IsTurnOf self.now.lock runner.new }
        ensures bare { IsBare runner.new }
        ensures held { ⟦<Held<K> as Stands>⟧.stands held.new self.now.lock.start (found runner.new) }
    {
        let mut commands = 0;
        for counter in &self.counters {
            commands = self.take_from(counter, runner, held, group, commands);
        }
        self.serve(runner, held, group);
    }

    /// Takes a request that lies at a counter into the group, which has so many commands. Where it would have more than 16 it is
    /// served before. Returns how many commands it has then.
    fn take_from<'a>(
        &'a self,
        counter: &'a Counter<Request<K>>,
        runner: &mut Pass<K>,
        held: &mut Held<K>,
        group: &mut Group<'a, K>,
        commands: usize,
    ) -> usize
        requires key { counter.now.key ≡ self.now.lock }
        requires turn { IsTurnOf self.now.lock runner.old }
        requires bare { IsBare runner.old }
        requires held { ⟦<Held<K> as Stands>⟧.stands held.old self.now.lock.start (found runner.old) }
        requires taken { IsTaken (K.plant self.now.lock.start) self.now.lock group.old.owed.items group.old.asked.items }
        requires many { commands ≡ commands_in group.old.asked.items }
        requires room { (most_held ≤ vec_capacity group.old.asked) × (most_held ≤ vec_capacity group.old.owed) }
        ensures turn { IsTurnOf self.now.lock runner.new }
        ensures bare { IsBare runner.new }
        ensures held { ⟦<Held<K> as Stands>⟧.stands held.new self.now.lock.start (found runner.new) }
        ensures taken { IsTaken (K.plant self.now.lock.start) self.now.lock group.new.owed.items group.new.asked.items }
        ensures many { result ≡ commands_in group.new.asked.items }
        ensures room { (most_held ≤ vec_capacity group.new.asked) × (most_held ≤ vec_capacity group.new.owed) }
    {
        let Some((request, duty)) = counter.serve() else {
            return commands;
        };
        let more = request.asked.commands.slice().len();
        let before = self.make_room(runner, held, group, commands, more);
        group.put(counter, request, duty);
        before + more
    }

    /// Makes room in a group for so many more commands: where it would have more than 16 it is served. Returns how many commands it
    /// has then.
    fn make_room(
        &self,
        runner: &mut Pass<K>,
        held: &mut Held<K>,
        group: &mut Group<'_, K>,
        commands: usize,
        more: usize,
    ) -> usize
        requires turn { IsTurnOf self.now.lock runner.old }
        requires bare { IsBare runner.old }
        requires held { ⟦<Held<K> as Stands>⟧.stands held.old self.now.lock.start (found runner.old) }
        requires taken { IsTaken (K.plant self.now.lock.start) self.now.lock group.old.owed.items group.old.asked.items }
        requires many { commands ≡ commands_in group.old.asked.items }
        requires room { (most_held ≤ vec_capacity group.old.asked) × (most_held ≤ vec_capacity group.old.owed) }
        requires few { more ≤ most_held }
        ensures turn { IsTurnOf self.now.lock runner.new }
        ensures bare { IsBare runner.new }
        ensures held { ⟦<Held<K> as Stands>⟧.stands held.new self.now.lock.start (found runner.new) }
        ensures taken { IsTaken (K.plant self.now.lock.start) self.now.lock group.new.owed.items group.new.asked.items }
        ensures many { result ≡ commands_in group.new.asked.items }
        ensures few { result + more ≤ most_held }
        ensures room { (most_held ≤ vec_capacity group.new.asked) × (most_held ≤ vec_capacity group.new.owed) }
    {
        if commands + more <= MOST_HELD {
            return commands;
        }
        self.serve(runner, held, group);
        0
    }

    /// Has what a group asks for done and kept together, and then lends each caller the turn in which its entries are made, and tells
    /// it what came of it. Nothing is told before all is kept.
    fn serve(&self, runner: &mut Pass<K>, held: &mut Held<K>, group: &mut Group<'_, K>)
        requires turn { IsTurnOf self.now.lock runner.old }
        requires bare { IsBare runner.old }
        requires held { ⟦<Held<K> as Stands>⟧.stands held.old self.now.lock.start (found runner.old) }
        requires taken { IsTaken (K.plant self.now.lock.start) self.now.lock group.old.owed.items group.old.asked.items }
        requires room { (most_held ≤ vec_capacity group.old.asked) × (most_held ≤ vec_capacity group.old.owed) }
        ensures empty { IsEmpty group.new }
        ensures turn { IsTurnOf self.now.lock runner.new }
        ensures bare { IsBare runner.new }
        ensures held { ⟦<Held<K> as Stands>⟧.stands held.new self.now.lock.start (found runner.new) }
    {
        if group.asked.is_empty() {
            return;
        }
        held.keeper.apply_together(group.asked.as_mut_slice());
        while let Some((first, place)) = group.take_first() {
            self.reply(runner, place, first, group.asked.as_slice());
        }
    }

    /// Lends a caller the turn in which it made its entries, before those behind it, and tells it what came of what it asked for.
    fn reply(&self, runner: &mut Pass<K>, owed: Owed<'_, K>, asked: Asked, behind: &[Asked])
        requires turn { IsTurnOf self.now.lock runner.old }
        requires bare { IsBare runner.old }
        requires seat { IsIdleOf self.now.lock owed.seat }
        requires duty { IsAt owed.counter.now owed.duty × (owed.duty.request.seat ≡ owed.seat) }
        requires same { IsSameAsked owed.duty.request.asked asked }
        requires says { IsReplied (is_broken (found runner.old)) asked }
        requires sound { IsSound (K.plant self.now.lock.start) (K.state self.now.lock.start) }
        requires legal { IsLegal (K.plant self.now.lock.start) (found runner.old ++ made_of asked behind.now) (K.state self.now.lock.start) }
        ensures turn { IsTurnOf self.now.lock runner.new }
        ensures bare { IsBare runner.new }
        ensures made { found runner.new ≡ found runner.old ++ made_of asked behind.now }
    {
        let Owed {
            counter,
            duty,
            seat,
        } = owed;
        let made = MadeBefore {
            asked: &asked,
            behind,
        };
        let seat = self.lock.lend(runner, seat, &made);
        counter.tell(duty, Request { seat, asked });
    }
}
