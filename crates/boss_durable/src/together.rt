ghost use Rattle.std.specs.Prelude.{◌≡◌, ◌+◌, ◌≤◌, ◌<◌, true, false, List, ◌++◌, length};
ghost use Rattle.std.specs.List.{AllByRecursion};
ghost use Rattle.boss_durable.specs.Taken.{Taken};
ghost use Rattle.boss_durable.specs.Confirmed.{IsConfirmed, latest_of};
ghost use Rattle.boss_durable.specs.Words.{Does, RunsThrough};
ghost use Rattle.boss_model.specs.Limits.{most_held};
ghost use Rattle.boss_model.specs.State.{State};
ghost use Rattle.boss_shared.specs.Calls.{has_failed_rest, is_growing_at};
ghost use Rattle.boss_shared.specs.Together.{commands_in, made_together, AreReplied, AreSameAsked, IsReplied, IsSameAsked, MayAsk};
ghost use Rattle.def_history.specs.declared.entry.Entry.{Entry};
ghost use Rattle.def_history.specs.Made.{done_by};

use crate::Durable;
use crate::beginning::Begun;
use crate::confirming::latest_of;
use crate::several::outcomes;
use crate::stepping::take_more;
use crate::wanting::before_want;
use boss_disk::Disk;
use boss_model::Command;
use boss_outside::Failed;
use boss_shared::{Asked, fail_all, stop_all};

impl<D: Disk> Durable<D> {
    /// Does what several callers ask for, one caller's commands behind another's: 1 to 16 commands in all. What they changed stands in
    /// the log, as one record, before any of them is told as done.
    ///
    /// All are told Stopped exactly where a disk failed in an earlier call, and then nothing else changes. Where one fails in this
    /// call the first is told DiskFault and the others Stopped; none is done, and a crash leaves what those that were tried changed,
    /// all of it or nothing. Where no memory is to be had for a submit, an attach or notices, that command and those behind it of the
    /// same caller are not done.
    pub fn apply_together(&mut self, group: &mut [Asked])
        requires some { 1 ≤ length group.old }
        requires few { commands_in group.old ≤ most_held }
        requires may { AllByRecursion (MayAsk self.old.engine.plant) group.old }
        ensures kept { Does self.old self.new (made_together group.new) }
        ensures images { RunsThrough self.old self.new (made_together group.new) }
        ensures asked { AreSameAsked group.old group.new }
        ensures told { AreReplied self.old.disks.stopped group.new }
        ensures still { self.old.disks.stopped ≡ true → self.new ≡ self.old }
        ensures limit { self.new.log_limit ≡ self.old.log_limit }
        ensures digest { self.new.disks.digest ≡ self.old.disks.digest }
        ensures confirmed { self.new.disks.stopped ≡ false → IsConfirmed self.new.confirmed (latest_of group.old) }
    {
        if self.disks.stopped() {
            stop_all(group);
            return;
        }
        match self.begin_at(latest_of(group)) {
            Begun::Ready => self.take_together(group, true),
            Begun::NoMemory => self.take_together(group, false),
            Begun::DiskFault => fail_all(group),
        }
    }

    /// Does what callers ask for in the log as it is. Where it is full, of each those before the first command that may want memory.
    fn take_together(&mut self, group: &mut [Asked], ready: bool)
        requires going { self.old.disks.stopped ≡ false }
        requires some { 1 ≤ length group.old }
        requires few { commands_in group.old ≤ most_held }
        requires may { AllByRecursion (MayAsk self.old.engine.plant) group.old }
        ensures kept { Does self.old self.new (made_together group.new) }
        ensures images { RunsThrough self.old self.new (made_together group.new) }
        ensures asked { AreSameAsked group.old group.new }
        ensures told { AreReplied false group.new }
        ensures limit { self.new.log_limit ≡ self.old.log_limit }
        ensures digest { self.new.disks.digest ≡ self.old.disks.digest }
        ensures confirmed { self.new.confirmed ≡ self.old.confirmed }
    {
        self.batch.clear();
        for asked in group.iter_mut() {
            self.try_one(asked, ready);
        }
        match self.batch.append_to(&mut self.disks) {
            Ok(()) => {}
            Err(Failed) => fail_all(group),
        }
    }

    /// Tries a caller's commands behind what was tried before in the same call. Nothing of it is kept yet.
    fn try_one(&mut self, asked: &mut Asked, ready: bool)
        requires few { (made : List Entry) × (start : State) × Taken self.old.engine.plant made start self.old.engine.state self.old.batch
            × (length made + length asked.old.commands ≤ most_held) }
        requires may { MayAsk self.old.engine.plant asked.old }
        ensures taken { (made : List Entry) (start : State) → Taken self.old.engine.plant made start self.old.engine.state self.old.batch →
            Taken self.old.engine.plant (made ++ done_by asked.new.session asked.new.commands asked.new.answers.items) start self.new.engine.state self.new.batch }
        ensures asked { IsSameAsked asked.old asked.new }
        ensures told { IsReplied false asked.new }
        ensures fine { has_failed_rest asked.new.outcomes.rest ≡ false }
        ensures tried { asked.new.tried ≡ asked.new.outcomes.done }
        ensures plant { self.new.engine.plant ≡ self.old.engine.plant }
        ensures disks { self.new.disks ≡ self.old.disks }
        ensures limit { self.new.log_limit ≡ self.old.log_limit }
        ensures confirmed { self.new.confirmed ≡ self.old.confirmed }
    {
        let calls = asked.commands.slice();
        let many = self.going_on(calls, ready);
        asked.answers.clear();
        take_more(
            &mut self.engine,
            &mut self.batch,
            asked.session,
            &calls[..many],
            &mut asked.answers,
        );
        asked.outcomes = outcomes(asked.answers.len(), calls.len());
        asked.tried = asked.outcomes.done;
    }

    /// How many of a caller's commands may go on, from the first on: all, or where the log is full those before the first that may
    /// want memory.
    fn going_on(&self, commands: &[(Command, u64)], ready: bool) -> usize
        ensures within { result ≤ length commands.now }
        ensures wants { result < length commands.now → is_growing_at commands.now result ≡ true }
    {
        if ready {
            commands.len()
        } else {
            before_want(self.engine.engine(), commands)
        }
    }
}
