ghost use Rattle.std.specs.Prelude.{◌≡◌, ◌≢◌, ◌+◌, ◌≤◌, true, false, List, None};
ghost use Rattle.boss_model.specs.Limits.{record_room};
ghost use Rattle.boss_durable.specs.Begun.{BegunCause, is_fault, may_want};
ghost use Rattle.boss_durable.specs.Confirmed.{IsConfirmed};
ghost use Rattle.boss_durable.specs.Words.{Does, RunsThrough, keeps, lasting, leaves, log, passes};
ghost use Rattle.def_history.specs.History.{MayCall};
ghost use Rattle.def_history.specs.Made.{is_growing, made_by};
ghost use Rattle.boss_model.specs.declared.answer.Answer.{Answer};
ghost use Rattle.boss_model.specs.declared.event.Event.{Event};
ghost use Rattle.boss_shared.specs.Calls.{is_stopped, MayWant};
ghost use Rattle.boss_shared.specs.Gates.{denial_of};
ghost use Rattle.boss_disk_pair.specs.Causes.{counts_of};

use crate::Durable;
use crate::beginning::Begun;
use crate::wanting::may_want;
use boss_disk::Disk;
use boss_model::{Command, NoMemory, SessionId};
use boss_outside::Failed;
use def_history::Outcome;

impl<D: Disk> Durable<D> {
    /// Does a command of a session at a moment, in milliseconds. Where it changed something that outlasts a stop, its event stands
    /// in the log before it is told as done.
    ///
    /// Where the disk in force was not asked within the last second before the moment it is asked first, whatever the command is.
    ///
    /// Stopped comes exactly where a disk failed in an earlier call, and then nothing changes; DiskFault where one fails in this
    /// call. No memory is to be had only for a submit, an attach of a new name or notices. After one that was done the log is
    /// within its limit.
    pub fn apply(&mut self, session: SessionId, command: &Command, moment: u64) -> Outcome
        requires may { MayCall self.old.engine.plant (command.now, moment) }
        ensures kept { Does self.old self.new (made_by session command.now moment result) }
        ensures images { RunsThrough self.old self.new (made_by session command.now moment result) }
        ensures stops { is_stopped result ≡ self.old.disks.stopped }
        ensures still { result ≡ Outcome.Stopped → self.new ≡ self.old }
        ensures memory { MayWant command.now result }
        ensures undenied { denial_of result ≡ None }
        ensures wants { result ≡ Outcome.NoMemory → may_want self.old.engine.state command.now ≡ true }
        ensures log { (answer : Answer) → result ≡ Outcome.Done answer → may_want self.old.engine.state command.now ≡ true → log self.new ≤ self.new.log_limit }
        ensures limit { self.new.log_limit ≡ self.old.log_limit }
        ensures digest { self.new.disks.digest ≡ self.old.disks.digest }
        ensures confirmed { self.new.disks.stopped ≡ false → IsConfirmed self.new.confirmed moment }
    {
        if self.disks.stopped() {
            return Outcome::Stopped;
        }
        match self.begin_for(command, moment) {
            Begun::Ready => self.take(session, command, moment),
            Begun::NoMemory => Outcome::NoMemory,
            Begun::DiskFault => Outcome::DiskFault,
        }
    }

    /// Sees that the disk in force was asked, and to room in the log for the event of a command. Where there is none and no memory for a kept state, a command that
    /// wants none goes on in the old log.
    fn begin_for(&mut self, command: &Command, moment: u64) -> Begun
        requires { self.old.disks.stopped ≡ false }
        ensures keeps { (before : List Event) → keeps self.old before → result ≢ Begun.DiskFault → keeps self.new before }
        ensures leaves { (before : List Event) → keeps self.old before → leaves self.new (lasting self.old) (lasting self.old) }
        ensures passes { (before : List Event) → keeps self.old before → passes self.old self.new (lasting self.old) (lasting self.old) }
        ensures engine { self.new.engine ≡ self.old.engine }
        ensures limit { self.new.log_limit ≡ self.old.log_limit }
        ensures digest { self.new.disks.digest ≡ self.old.disks.digest }
        ensures confirmed { self.new.disks.stopped ≡ false → IsConfirmed self.new.confirmed moment }
        ensures cause { BegunCause (counts_of self.old.disks) (counts_of self.new.disks) result }
        ensures stops { self.new.disks.stopped ≡ is_fault result }
        ensures memory { result ≡ Begun.NoMemory → is_growing command.now ≡ true }
        ensures wants { result ≡ Begun.NoMemory → may_want self.old.engine.state command.now ≡ true }
        ensures room { result ≡ Begun.Ready → may_want self.old.engine.state command.now ≡ true → log self.new + record_room ≤ self.new.log_limit }
    {
        match self.begin_at(moment) {
            Begun::Ready => Begun::Ready,
            Begun::NoMemory => {
                if may_want(self.engine.engine(), command) {
                    Begun::NoMemory
                } else {
                    Begun::Ready
                }
            }
            Begun::DiskFault => Begun::DiskFault,
        }
    }

    /// Does a command in the log as it is.
    fn take(&mut self, session: SessionId, command: &Command, moment: u64) -> Outcome
        requires going { self.old.disks.stopped ≡ false }
        requires may { MayCall self.old.engine.plant (command.now, moment) }
        ensures kept { Does self.old self.new (made_by session command.now moment result) }
        ensures images { RunsThrough self.old self.new (made_by session command.now moment result) }
        ensures going { is_stopped result ≡ false }
        ensures memory { MayWant command.now result }
        ensures undenied { denial_of result ≡ None }
        ensures wants { result ≡ Outcome.NoMemory → may_want self.old.engine.state command.now ≡ true }
        ensures log { (answer : Answer) → result ≡ Outcome.Done answer → log self.new ≤ log self.old + record_room }
        ensures limit { self.new.log_limit ≡ self.old.log_limit }
        ensures digest { self.new.disks.digest ≡ self.old.disks.digest }
        ensures confirmed { self.new.confirmed ≡ self.old.confirmed }
    {
        self.batch.clear();
        match self.engine.step(session, command, moment) {
            Ok((answer, effect)) => {
                self.batch.put(command, &effect);
                match self.batch.append_to(&mut self.disks) {
                    Ok(()) => Outcome::Done { answer },
                    Err(Failed) => Outcome::DiskFault,
                }
            }
            Err(NoMemory) => Outcome::NoMemory,
        }
    }
}
