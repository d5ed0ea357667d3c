ghost use Rattle.std.specs.Prelude.{◌≡◌, ◌<◌, ◌≤◌, ◌==◌, ℕ, Bool, true, List, [], length, find, is_some, None, vec_capacity};
ghost use Rattle.std.specs.List.{AllByRecursion};
ghost use Rattle.boss_model.specs.declared.event.Event.{Event};
ghost use Rattle.boss_model.specs.declared.state.Actuator.{Actuator};
ghost use Rattle.boss_model.specs.Catalogue.{driver_of};
ghost use Rattle.boss_model.specs.Devices.{wanting};
ghost use Rattle.boss_model.specs.Settle.{is_failed};
ghost use Rattle.boss_model.specs.State.{Persistent, State};
ghost use Rattle.boss_model.specs.Time.{due};
ghost use Rattle.def_history.specs.History.{MayCall};
ghost use Rattle.def_history.specs.Made.{made_by, made_by_all};
ghost use Rattle.boss_shared.specs.Calls.{is_stopped, is_stopped_rest, MayWant, NoneDone, RestFits};
ghost use Rattle.boss_shared.specs.Gates.{denial_of, denial_of_rest};
ghost use Rattle.boss_shared.specs.Keeping.{Keeps};
ghost use Rattle.boss_shared.specs.Together.{commands_in, made_together, AreSameAsked, AreReplied, MayAsk};

use crate::Asked;
use boss_model::{Answer, Command, DriverId, Items, Name, SessionId};
use def_history::{Outcome, Outcomes};

/// A machine that keeps what it does, as on a disk. Once its disk has failed it does no more.
pub trait Keeper {
    /// The points of the plant.
    ghost plant: { Self → List Actuator };

    /// The state of the machine.
    ghost state: { Self → State };

    /// Whether the disk has failed in an earlier call.
    ghost stopped: { Self → Bool };

    /// How many calls of the disk have failed, up to `2 ^ 64 - 1`, where it stands still.
    ghost faults: { Self → ℕ };

    /// Each image that a crash may leave of the disk opens to one of these two. Where the disk doesn't tell its images, this says
    /// nothing.
    ghost leaves: { Self → Persistent → Persistent → Type 0 };

    /// From the one moment to the other each image that a crash may leave of the disk opens to one of these two. Where the disk
    /// doesn't tell its images, this says nothing.
    ghost passes: { Self → Self → Persistent → Persistent → Type 0 };

    /// The disk has as many events as there are in this list. Where the disk doesn't tell, this says nothing.
    ghost keeps: { Self → List Event → Type 0 };

    /// The digest of the catalogue that the disk's journal is kept under, which no call changes. Where there is no journal it is
    /// empty.
    ghost under: { Self → List ℕ } = { λ _. [] };

    /// The least driver that has a want.
    fn wanting(&self) -> Option<DriverId>
        ensures { result ≡ wanting (plant self.now) (state self.now) };

    /// Whether the driver has a want.
    fn has_want(&self, driver: DriverId) -> bool
        ensures { result ≡ is_some (find (λ point. driver_of (plant self.now) point == driver) (state self.now).wants) };

    /// A moment before which nothing changes by time alone, in milliseconds: nothing is due, and no failed write is tried again.
    fn first_due(&self) -> u64
        ensures due { (n : ℕ) → n < result → due n (state self.now).persistent ≡ [] }
        ensures retries { AllByRecursion (λ proxy. is_failed proxy.mark ≡ true → result ≤ proxy.retry_at) (state self.now).proxies };

    /// The name of a process that was told something since it was given out so. Each is given out once, until it is told more. None
    /// where there is none. It is no part of what is seen of the keeper.
    fn next_noticed(&mut self) -> Option<Name>
        ensures { self.new ≡ self.old };

    /// Whether the disk has failed in an earlier call.
    fn has_stopped(&self) -> bool
        ensures { result ≡ stopped self.now };

    /// Does a command of a session at a moment, in milliseconds. Stopped exactly where the disk failed in an earlier call;
    /// memory is wanted for a submit, an attach and notices alone. It has no rules, so it denies nothing.
    fn apply(&mut self, session: SessionId, command: &Command, moment: u64) -> Outcome
        requires may { MayCall (plant self.old) (command.now, moment) }
        ensures kept { Keeps plant state stopped faults leaves passes keeps self.old self.new (made_by session command.now moment result) }
        ensures under { under self.new ≡ under self.old }
        ensures stops { is_stopped result ≡ stopped self.old }
        ensures memory { MayWant command.now result }
        ensures undenied { denial_of result ≡ None };

    /// Does 1 to 16 commands of a session in order, each at its moment in milliseconds, and keeps them together. `answers` is
    /// emptied, and then has an answer for each command that was done. Stopped exactly where the disk failed in an earlier call,
    /// and where it fails in this one none is done. Where memory is wanted for a submit, an attach or notices, that command
    /// and those behind it are not done. It denies nothing.
    fn apply_all(
        &mut self,
        session: SessionId,
        commands: &Items<(Command, u64)>,
        answers: &mut Vec<Answer>,
    ) -> Outcomes
        requires some { 1 ≤ length commands.now }
        requires few { length commands.now ≤ 16 }
        requires may { AllByRecursion (MayCall (plant self.old)) commands.now }
        requires room { length commands.now ≤ vec_capacity answers.old }
        ensures kept { Keeps plant state stopped faults leaves passes keeps self.old self.new
            (made_by_all [] session commands.now answers.new.items result.rest) }
        ensures under { under self.new ≡ under self.old }
        ensures stops { is_stopped_rest result.rest ≡ stopped self.old }
        ensures done { length answers.new.items ≡ result.done }
        ensures rest { RestFits commands.now result.done result.rest }
        ensures together { NoneDone result.done result.rest }
        ensures undenied { denial_of_rest result.rest ≡ None }
        ensures room { vec_capacity answers.new ≡ vec_capacity answers.old };

    /// Does what several callers ask for, one caller's commands behind another's, and keeps all of it together: 1 to 16 commands in
    /// all. Each caller's answers are emptied, and then has an answer for each of its commands that was done.
    ///
    /// All are told Stopped exactly where the disk failed in an earlier call. Where it fails in this one none is done: the first
    /// caller is told DiskFault, and the others Stopped. The mark is the first one's, and holds what was tried of the others. Where
    /// memory is wanted for a submit, an attach or notices, that command and those behind it of the same caller are not done,
    /// and the next caller's are. It denies nothing.
    fn apply_together(&mut self, group: &mut [Asked])
        requires some { 1 ≤ length group.old }
        requires few { commands_in group.old ≤ 16 }
        requires may { AllByRecursion (MayAsk (plant self.old)) group.old }
        ensures kept { Keeps plant state stopped faults leaves passes keeps self.old self.new (made_together group.new) }
        ensures under { under self.new ≡ under self.old }
        ensures asked { AreSameAsked group.old group.new }
        ensures told { AreReplied (stopped self.old) group.new };
}
