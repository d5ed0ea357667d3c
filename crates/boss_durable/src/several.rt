ghost use Rattle.std.specs.Prelude.{◌≡◌, ◌⊎◌, ◌+◌, ◌≤◌, ◌<◌, true, false, [], List, length, take, Some, None, IfOk, OnErr, OnOk, vec_capacity};
ghost use Rattle.boss_model.specs.Limits.{most_held, record_room};
ghost use Rattle.std.specs.List.{AllByRecursion};
ghost use Rattle.boss_durable.specs.Begun.{WantNone};
ghost use Rattle.boss_durable.specs.Confirmed.{IsConfirmed, latest};
ghost use Rattle.boss_durable.specs.Words.{Does, RunsThrough, keeps, lasting, leaves, log, passes};
ghost use Rattle.def_history.specs.declared.outcome.Outcome.TheVariants.{NoMemory};
ghost use Rattle.def_history.specs.History.{MayCall};
ghost use Rattle.def_history.specs.Made.{made_by_all};
ghost use Rattle.boss_model.specs.declared.event.Event.{Event};
ghost use Rattle.boss_shared.specs.Calls.{has_failed_rest, is_growing_at, is_stopped_rest, NoneDone, RestFits};
ghost use Rattle.boss_shared.specs.Gates.{denial_of_rest};
ghost use Rattle.boss_disk_pair.specs.Causes.{CallCause, counts_of};

use crate::Durable;
use crate::beginning::Begun;
use crate::confirming::latest;
use crate::stepping::take_steps;
use crate::wanting::before_want;
use boss_disk::Disk;
use boss_model::{Answer, Command, Items, SessionId};
use boss_outside::Failed;
use def_history::{Outcome, Outcomes};

impl<D: Disk> Durable<D> {
    /// Does 1 to 16 commands of a session in order, each at its moment in milliseconds. What they changed stands in the log, as
    /// one record, before they are told as done. `answers` is emptied, and then has an answer for each command that was done.
    ///
    /// Stopped comes exactly where a disk failed in an earlier call, and then nothing else changes; DiskFault where one fails in
    /// this call. Then none is done, and a crash leaves what those that were tried changed, all of it or nothing: all commands were
    /// tried, or those before one that may want memory, for which there was none. Where no memory is to be had for a submit, an
    /// attach or notices, that command and those behind it are not done. Where one that may want memory was done the log is within
    /// its limit.
    pub fn apply_all(
        &mut self,
        session: SessionId,
        commands: &Items<(Command, u64)>,
        answers: &mut Vec<Answer>,
    ) -> Outcomes
        requires some { 1 ≤ length commands.now }
        requires few { length commands.now ≤ most_held }
        requires may { AllByRecursion (MayCall self.old.engine.plant) commands.now }
        requires room { length commands.now ≤ vec_capacity answers.old }
        ensures kept { Does self.old self.new (made_by_all [] session commands.now answers.new.items result.rest) }
        ensures images { RunsThrough self.old self.new (made_by_all [] session commands.now answers.new.items result.rest) }
        ensures stops { is_stopped_rest result.rest ≡ self.old.disks.stopped }
        ensures still { self.old.disks.stopped ≡ true → self.new ≡ self.old }
        ensures done { length answers.new.items ≡ result.done }
        ensures rest { RestFits commands.now result.done result.rest }
        ensures together { NoneDone result.done result.rest }
        ensures undenied { denial_of_rest result.rest ≡ None }
        ensures log { (log self.new ≤ self.new.log_limit) ⊎ WantNone self.old.engine.state (take result.done commands.now) }
        ensures room { vec_capacity answers.new ≡ vec_capacity answers.old }
        ensures limit { self.new.log_limit ≡ self.old.log_limit }
        ensures digest { self.new.disks.digest ≡ self.old.disks.digest }
        ensures confirmed { self.new.disks.stopped ≡ false → IsConfirmed self.new.confirmed (latest commands.now) }
    {
        answers.clear();
        if self.disks.stopped() {
            return Outcomes {
                done: 0,
                rest: Some(Outcome::Stopped),
            };
        }
        let calls = commands.slice();
        match self.begin_all(calls) {
            Ok(many) => self.take_all(session, calls, many, answers),
            Err(Failed) => Outcomes {
                done: 0,
                rest: Some(Outcome::DiskFault),
            },
        }
    }

    /// Sees to room in the log for the events of commands, and tells how many may go on, from the first on. Where there is no room
    /// and no memory for a kept state, those before the first that may want memory go on in the old log.
    fn begin_all(&mut self, commands: &[(Command, u64)]) -> Result<usize, Failed>
        requires { self.old.disks.stopped ≡ false }
        ensures within { IfOk result (λ many. many ≤ length commands.now) }
        ensures wants { IfOk result (λ many. many < length commands.now → is_growing_at commands.now many ≡ true) }
        ensures room { IfOk result (λ many. (log self.new + record_room ≤ self.new.log_limit) ⊎ WantNone self.old.engine.state (take many commands.now)) }
        ensures keeps { (before : List Event) → keeps self.old before → OnOk result (keeps self.new before) }
        ensures leaves { (before : List Event) → keeps self.old before → leaves self.new (lasting self.old) (lasting self.old) }
        ensures passes { (before : List Event) → keeps self.old before → passes self.old self.new (lasting self.old) (lasting self.old) }
        ensures engine { self.new.engine ≡ self.old.engine }
        ensures limit { self.new.log_limit ≡ self.old.log_limit }
        ensures digest { self.new.disks.digest ≡ self.old.disks.digest }
        ensures confirmed { OnOk result (IsConfirmed self.new.confirmed (latest commands.now)) }
        ensures cause { CallCause false (counts_of self.old.disks) (counts_of self.new.disks) result }
        ensures fine { OnOk result (self.new.disks.stopped ≡ false) }
        ensures stops { OnErr result (self.new.disks.stopped ≡ true) }
    {
        match self.begin_at(latest(commands)) {
            Begun::Ready => Ok(commands.len()),
            Begun::NoMemory => Ok(before_want(self.engine.engine(), commands)),
            Begun::DiskFault => Err(Failed),
        }
    }

    /// Does so many of the commands, in the log as it is.
    fn take_all(
        &mut self,
        session: SessionId,
        commands: &[(Command, u64)],
        many: usize,
        answers: &mut Vec<Answer>,
    ) -> Outcomes
        requires going { self.old.disks.stopped ≡ false }
        requires some { 1 ≤ length commands.now }
        requires few { length commands.now ≤ most_held }
        requires may { AllByRecursion (MayCall self.old.engine.plant) commands.now }
        requires within { many ≤ length commands.now }
        requires wants { many < length commands.now → is_growing_at commands.now many ≡ true }
        requires none { answers.old.items ≡ [] }
        requires room { length commands.now ≤ vec_capacity answers.old }
        ensures kept { Does self.old self.new (made_by_all [] session commands.now answers.new.items result.rest) }
        ensures images { RunsThrough self.old self.new (made_by_all [] session commands.now answers.new.items result.rest) }
        ensures going { is_stopped_rest result.rest ≡ false }
        ensures done { length answers.new.items ≡ result.done }
        ensures rest { RestFits commands.now result.done result.rest }
        ensures together { NoneDone result.done result.rest }
        ensures undenied { denial_of_rest result.rest ≡ None }
        ensures many { result.done ≤ many }
        ensures log { has_failed_rest result.rest ≡ false → log self.new ≤ log self.old + record_room }
        ensures room { vec_capacity answers.new ≡ vec_capacity answers.old }
        ensures limit { self.new.log_limit ≡ self.old.log_limit }
        ensures digest { self.new.disks.digest ≡ self.old.disks.digest }
        ensures confirmed { self.new.confirmed ≡ self.old.confirmed }
    {
        self.batch.clear();
        take_steps(
            &mut self.engine,
            &mut self.batch,
            session,
            &commands[..many],
            answers,
        );
        match self.batch.append_to(&mut self.disks) {
            Ok(()) => outcomes(answers.len(), commands.len()),
            Err(Failed) => {
                answers.clear();
                Outcomes {
                    done: 0,
                    rest: Some(Outcome::DiskFault),
                }
            }
        }
    }
}

/// What became of commands of which so many were done: no memory was to be had for the next, where there is one.
pub(crate) fn outcomes(done: usize, asked: usize) -> Outcomes
    requires few { asked ≤ most_held }
    requires within { done ≤ asked }
    ensures done { result.done ≡ done }
    ensures all { done ≡ asked → result.rest ≡ None }
    ensures rest { done < asked → result.rest ≡ Some NoMemory }
    ensures fine { has_failed_rest result.rest ≡ false }
    ensures undenied { denial_of_rest result.rest ≡ None }
{
    let rest = if done < asked {
        Some(Outcome::NoMemory)
    } else {
        None
    };
    Outcomes {
        done: done as u32,
        rest,
    }
}
