ghost use Rattle.std.specs.Prelude.{◌≡◌, ◌≤◌, ◌<◌, ◌++◌, nat_lt, min, ℕ, true, false, [], List, None, length, slice_index_or, vec_capacity};
ghost use Rattle.std.specs.List.{AllByRecursion};
ghost use Rattle.boss_model.specs.Limits.{most_drivers};
ghost use Rattle.def_history.specs.History.{MayCall};
ghost use Rattle.def_history.specs.Made.{made_by, made_by_all};
ghost use Rattle.boss_shared.specs.Calls.{is_stopped, is_stopped_rest, MayWant, NoneDone, RestFits};
ghost use Rattle.boss_shared.specs.Gates.{denial_of, denial_of_rest};
ghost use Rattle.boss_shared.specs.Keeping.{Keeps};
ghost use Rattle.boss_shared.specs.Together.{commands_in, made_together, AreSameAsked, AreReplied, MayAsk};
ghost use Rattle.boss_ringing.specs.Rising.{bell_if, has_want, is_any_done, is_done, rises, risen, IsAlarm, Rang, RangNames, Rings};

use crate::done::{is_any_done, is_done};
use boss_model::{Answer, Command, DriverId, Items, MOST_DRIVERS, MOST_PROCESSES, Name, SessionId};
use boss_outside::{Ringer, driver_bell, name_bell};
use boss_shared::{Asked, Keeper};
use def_history::{Outcome, Outcomes};

/// A keeper that rings. Behind each call, and behind what the call keeps, it rings the bells of the drivers that have a want by it
/// and had none before; where something was done also the bells of those who wait for notices of a process that was told something,
/// and it sets the alarm to a moment before which nothing changes by time alone.
#[derive(Drop)]
pub struct Ringing<K, B> {
    /// What keeps.
    pub keeper: K,
    /// What rings.
    pub ringer: B,
    /// How many drivers are rung, from the first on; more than 256 are no more than 256.
    pub drivers: u16,
}

impl<K: Keeper, B: Ringer> Ringing<K, B> {
    /// A keeper that rings for so many drivers. The alarm is set.
    pub fn new(keeper: K, ringer: B, drivers: u16) -> Ringing<K, B>
        ensures keeper { result.keeper ≡ keeper }
        ensures drivers { result.drivers ≡ drivers }
        ensures rung { B.tells → (B.whole result.ringer → B.whole ringer) × (B.rung result.ringer ≡ B.rung ringer) }
        ensures alarm { B.tells → IsAlarm (K.state keeper) (B.alarm result.ringer) }
    {
        let mut ringer = ringer;
        ringer.set_alarm(keeper.first_due());
        Ringing {
            keeper,
            ringer,
            drivers,
        }
    }

    /// How many drivers are rung.
    fn served(&self) -> u16
        ensures { result ≡ min self.now.drivers most_drivers }
    {
        self.drivers.min(MOST_DRIVERS as u16)
    }

    /// Which drivers have a want.
    fn wants(&self) -> [bool; MOST_DRIVERS]
        ensures { (driver : ℕ) → driver < min self.now.drivers most_drivers → slice_index_or result driver false
            ≡ has_want (K.plant self.now.keeper) (K.state self.now.keeper) driver }
    {
        let mut wants = [false; MOST_DRIVERS];
        for driver in 0..self.served() {
            wants[usize::from(driver)] = self.keeper.has_want(DriverId(driver));
        }
        wants
    }

    /// Rings the bells of the drivers that have a want, and had none before.
    fn ring_risen(&mut self, before: &[bool; MOST_DRIVERS])
        ensures same { self.new.keeper ≡ self.old.keeper }
        ensures drivers { self.new.drivers ≡ self.old.drivers }
        ensures rang { (plant : _) (s : _) → plant ≡ K.plant self.old.keeper →
            ((driver : ℕ) → driver < min self.old.drivers most_drivers → slice_index_or before.now driver false ≡ has_want plant s driver) →
            Rang B.tells B.whole B.rung (risen plant s (K.state self.old.keeper) (min self.old.drivers most_drivers)) self.old.ringer self.new.ringer }
    {
        for driver in 0..self.served() {
            self.ring_if_risen(before[usize::from(driver)], driver);
        }
    }

    /// Rings the bell of a driver if it has a want, and had none before.
    fn ring_if_risen(&mut self, before: bool, driver: u16)
        ensures same { self.new.keeper ≡ self.old.keeper }
        ensures drivers { self.new.drivers ≡ self.old.drivers }
        ensures rang { (plant : _) (s : _) → plant ≡ K.plant self.old.keeper → before ≡ has_want plant s driver →
            Rang B.tells B.whole B.rung (bell_if (rises plant s (K.state self.old.keeper) driver) driver) self.old.ringer self.new.ringer }
    {
        if before {
            return;
        }
        let driver = DriverId(driver);
        if self.keeper.has_want(driver) {
            self.ringer.ring(driver_bell(driver));
        }
    }

    /// Where something was done, rings the bells of those who wait for notices of a process that was told something, and sets the
    /// alarm.
    fn ring_others(&mut self, done: bool)
        ensures same { self.new.keeper ≡ self.old.keeper }
        ensures drivers { self.new.drivers ≡ self.old.drivers }
        ensures still { done ≡ false → self.new.ringer ≡ self.old.ringer }
        ensures rang { RangNames B.tells B.whole B.rung self.old.ringer self.new.ringer }
        ensures alarm { B.tells → done ≡ true → IsAlarm (K.state self.old.keeper) (B.alarm self.new.ringer) }
    {
        if done {
            self.ring_noticed();
            self.ringer.set_alarm(self.keeper.first_due());
        }
    }

    /// Rings the bells of those who wait for notices of a process that was told something.
    fn ring_noticed(&mut self)
        ensures same { self.new.keeper ≡ self.old.keeper }
        ensures drivers { self.new.drivers ≡ self.old.drivers }
        ensures rang { RangNames B.tells B.whole B.rung self.old.ringer self.new.ringer }
    {
        for _ in 0..MOST_PROCESSES {
            let Some(name) = self.keeper.next_noticed() else {
                return;
            };
            self.ringer.ring(name_bell(&name));
        }
    }
}

impl<K: Keeper, B: Ringer> Keeper for Ringing<K, B> {
    ghost plant = { λ r. K.plant r.keeper };

    ghost state = { λ r. K.state r.keeper };

    ghost stopped = { λ r. K.stopped r.keeper };

    ghost faults = { λ r. K.faults r.keeper };

    ghost leaves = { λ r. K.leaves r.keeper };

    ghost passes = { λ r t. K.passes r.keeper t.keeper };

    ghost keeps = { λ r. K.keeps r.keeper };

    ghost under = { λ r. K.under r.keeper };

    fn wanting(&self) -> Option<DriverId> {
        self.keeper.wanting()
    }

    fn has_want(&self, driver: DriverId) -> bool {
        self.keeper.has_want(driver)
    }

    fn first_due(&self) -> u64 {
        self.keeper.first_due()
    }

    fn next_noticed(&mut self) -> Option<Name> {
        self.keeper.next_noticed()
    }

    fn has_stopped(&self) -> bool {
        self.keeper.has_stopped()
    }

    fn apply(&mut self, session: SessionId, command: &Command, moment: u64) -> Outcome
        requires may { MayCall (K.plant self.old.keeper) (command.now, moment) }
        ensures kept { Keeps (λ (r : Ringing K B). K.plant r.keeper) (λ r. K.state r.keeper) (λ r. K.stopped r.keeper) (λ r. K.faults r.keeper)
            (λ r. K.leaves r.keeper) (λ r t. K.passes r.keeper t.keeper) (λ r. K.keeps r.keeper) self.old self.new
            (made_by session command.now moment result) }
        ensures under { K.under self.new.keeper ≡ K.under self.old.keeper }
        ensures stops { is_stopped result ≡ K.stopped self.old.keeper }
        ensures memory { MayWant command.now result }
        ensures undenied { denial_of result ≡ None }
        ensures rang { Rings B.tells B.whole B.rung B.alarm
            (risen (K.plant self.old.keeper) (K.state self.old.keeper) (K.state self.new.keeper) (min self.old.drivers most_drivers))
            (is_done result) (K.state self.new.keeper) self.old.ringer self.new.ringer }
    {
        let before = self.wants();
        let outcome = self.keeper.apply(session, command, moment);
        self.ring_risen(&before);
        self.ring_others(is_done(&outcome));
        outcome
    }

    fn apply_all(
        &mut self,
        session: SessionId,
        commands: &Items<(Command, u64)>,
        answers: &mut Vec<Answer>,
    ) -> Outcomes
        requires some { 1 ≤ length commands.now }
        requires few { length commands.now ≤ 16 }
        requires may { AllByRecursion (MayCall (K.plant self.old.keeper)) commands.now }
        requires room { length commands.now ≤ vec_capacity answers.old }
        ensures kept { Keeps (λ (r : Ringing K B). K.plant r.keeper) (λ r. K.state r.keeper) (λ r. K.stopped r.keeper) (λ r. K.faults r.keeper)
            (λ r. K.leaves r.keeper) (λ r t. K.passes r.keeper t.keeper) (λ r. K.keeps r.keeper) self.old self.new
            (made_by_all [] session commands.now answers.new.items result.rest) }
        ensures under { K.under self.new.keeper ≡ K.under self.old.keeper }
        ensures stops { is_stopped_rest result.rest ≡ K.stopped self.old.keeper }
        ensures done { length answers.new.items ≡ result.done }
        ensures rest { RestFits commands.now result.done result.rest }
        ensures together { NoneDone result.done result.rest }
        ensures undenied { denial_of_rest result.rest ≡ None }
        ensures room { vec_capacity answers.new ≡ vec_capacity answers.old }
        ensures rang { Rings B.tells B.whole B.rung B.alarm
            (risen (K.plant self.old.keeper) (K.state self.old.keeper) (K.state self.new.keeper) (min self.old.drivers most_drivers))
            (nat_lt 0 result.done) (K.state self.new.keeper) self.old.ringer self.new.ringer }
    {
        let before = self.wants();
        let outcomes = self.keeper.apply_all(session, commands, answers);
        self.ring_risen(&before);
        self.ring_others(0 < outcomes.done);
        outcomes
    }

    fn apply_together(&mut self, group: &mut [Asked])
        requires some { 1 ≤ length group.old }
        requires few { commands_in group.old ≤ 16 }
        requires may { AllByRecursion (MayAsk (K.plant self.old.keeper)) group.old }
        ensures kept { Keeps (λ (r : Ringing K B). K.plant r.keeper) (λ r. K.state r.keeper) (λ r. K.stopped r.keeper) (λ r. K.faults r.keeper)
            (λ r. K.leaves r.keeper) (λ r t. K.passes r.keeper t.keeper) (λ r. K.keeps r.keeper) self.old self.new (made_together group.new) }
        ensures under { K.under self.new.keeper ≡ K.under self.old.keeper }
        ensures asked { AreSameAsked group.old group.new }
        ensures told { AreReplied (K.stopped self.old.keeper) group.new }
        ensures rang { Rings B.tells B.whole B.rung B.alarm
            (risen (K.plant self.old.keeper) (K.state self.old.keeper) (K.state self.new.keeper) (min self.old.drivers most_drivers))
            (is_any_done group.new) (K.state self.new.keeper) self.old.ringer self.new.ringer }
    {
        let before = self.wants();
        self.keeper.apply_together(group);
        self.ring_risen(&before);
        self.ring_others(is_any_done(group));
    }
}
