//! Events that are done again.

ghost use Rattle.std.specs.Prelude.{◌≡◌, ℕ, ◌≤◌, true, List, length, is_some, unwrap_or, Some, None, IfOk, OnOk, OnErr};
ghost use Rattle.boss_model.specs.declared.command.Policy.{Policy};
ghost use Rattle.boss_model.specs.declared.command.Setting.{Setting};
ghost use Rattle.boss_model.specs.declared.state.Actuator.{Actuator};
ghost use Rattle.boss_model.specs.Acts.{act_on, replay};
ghost use Rattle.boss_model.specs.Limits.{last_moment};
ghost use Rattle.boss_model.specs.Submit.{submit_refused};
ghost use Rattle.boss_model.specs.Time.{tick_to};
ghost use Rattle.boss_booking.specs.Passed.{IsPassed};
ghost use Rattle.law_effects.specs.Changes.{makes};
ghost use Rattle.law_effects.specs.Early.{early};
ghost use Rattle.law_spelling.specs.Ranges.{IsAct, IsSpelled};
ghost use Rattle.boss_engine.specs.Again.{IsReadyAgain, IsReadyToBegin, TakesOn, begun_with};
ghost use Rattle.boss_engine.specs.Inside.{CanAct, HasPlaces};
ghost use Rattle.boss_persistent.specs.Lasting.{persistent_of};
ghost use Rattle.boss_engine.specs.Ready.{HasRoomFor};

use crate::machine::Machine;
use crate::ready::Ready;
use boss_model::{Act, Actuator, Event, NoMemory};
use boss_persistent::is_allowed;

impl Machine {
    /// Does an event again, if it is effective, which is the answer: its act is not refused, and it or time changes something.
    /// That is asked first, then memory is taken, and then time passes. Points do not settle, and nobody is attached.
    pub fn replay(&mut self, plant: &[Actuator], event: &Event) -> Result<bool, NoMemory>
        requires spelled { IsSpelled event.now }
        requires can_act { CanAct plant.now self.old }
        ensures effective { IfOk result (λ done. done ≡ is_some (replay plant.now event.now (persistent_of self.old.lasting))) }
        ensures after { OnOk result (persistent_of self.new.lasting ≡ unwrap_or (replay plant.now event.now (persistent_of self.old.lasting)) (persistent_of self.old.lasting)) }
        ensures others { (self.new.marks ≡ self.old.marks) × (self.new.attached ≡ self.old.attached) }
        ensures can_act { CanAct plant.now self.new }
        ensures err { OnErr result (persistent_of self.new.lasting ≡ persistent_of self.old.lasting) }
        ensures memory { OnErr result (TakesOn event.now.act) }
    {
        let before = self.lasting.holdings.now();
        let n = before.max(event.moment);
        if !is_allowed(plant, &self.lasting, &event.act, n) {
            return Ok(false);
        }
        let ready = self.ready_again(plant, &event.act, n)?;
        self.tick(n);
        let passed = self.lasting.holdings.now();
        let changed = self.act_again(&event.act, n, ready);
        Ok(changed || passed != before)
    }

    /// Takes the memory that an act will need which is allowed. It changes nothing else.
    fn ready_again(&mut self, plant: &[Actuator], act: &Act, n: u64) -> Result<Ready, NoMemory>
        requires act { IsAct act.now }
        requires allowed { early plant.now n act.now (persistent_of self.old.lasting) ≡ true }
        requires can_act { CanAct plant.now self.old }
        requires moment { n ≤ last_moment }
        ensures same { persistent_of self.new.lasting ≡ persistent_of self.old.lasting }
        ensures others { (self.new.marks ≡ self.old.marks) × (self.new.attached ≡ self.old.attached) }
        ensures can_act { CanAct plant.now self.new }
        ensures ready { IfOk result (λ ready. IsReadyAgain n act.now ready (persistent_of self.old.lasting)) }
        ensures room { IfOk result (λ ready. HasRoomFor ready self.new) }
        ensures memory { OnErr result (TakesOn act.now) }
    {
        match act {
            Act::Enrol { name } => self.ready_entrant(name),
            Act::Submit {
                owner,
                policy,
                writes,
                ..
            } => self.ready_transaction(*owner, *policy, writes.slice(), n),
            Act::Renew { .. }
            | Act::Cancel { .. }
            | Act::Gone { .. }
            | Act::Tick
            | Act::Fault { .. } => Ok(Ready::Nothing),
        }
    }

    /// Lets time pass up to `n`, and no point settle.
    fn tick(&mut self, n: u64)
        requires moment { (self.old.lasting.holdings.now ≤ n) × (n ≤ last_moment) }
        requires can_act { (plant : List Actuator) × CanAct plant self.old }
        ensures after { persistent_of self.new.lasting ≡ tick_to n (persistent_of self.old.lasting) }
        ensures others { (self.new.marks ≡ self.old.marks) × (self.new.attached ≡ self.old.attached) }
        ensures places { (plant : List Actuator) → HasPlaces plant self.old → HasPlaces plant self.new }
        ensures room { (ready : Ready) → HasRoomFor ready self.old → HasRoomFor ready self.new }
    {
        self.lasting.tick(n, &mut self.told);
    }

    /// Does an act that is not refused again, at a moment `n` up to which time has passed. The answer is whether it changed
    /// something.
    fn act_again(&mut self, act: &Act, n: u64, ready: Ready) -> bool
        requires act { IsAct act.now }
        requires passed { IsPassed n (persistent_of self.old.lasting) }
        requires moment { ((persistent_of self.old.lasting).now ≤ n) × (n ≤ last_moment) }
        requires allowed { (plant : List Actuator) × CanAct plant self.old × (is_some (act_on plant n act.now (persistent_of self.old.lasting)) ≡ true) }
        requires ready { IsReadyAgain n act.now ready (persistent_of self.old.lasting) }
        requires room { HasRoomFor ready self.old }
        ensures changed { result ≡ makes n act.now (persistent_of self.old.lasting) }
        ensures after { (plant : List Actuator) → CanAct plant self.old → is_some (act_on plant n act.now (persistent_of self.old.lasting)) ≡ true →
            act_on plant n act.now (persistent_of self.old.lasting) ≡ Some (persistent_of self.new.lasting) }
        ensures others { (self.new.marks ≡ self.old.marks) × (self.new.attached ≡ self.old.attached) }
        ensures places { (plant : List Actuator) → HasPlaces plant self.old → HasPlaces plant self.new }
    {
        match act {
            Act::Enrol { name } => self.process_for(name, n, ready).is_new,
            Act::Submit { seq, .. } => {
                self.begin_ready(ready, *seq, n);
                true
            }
            Act::Renew {
                owner,
                txn,
                length,
                points,
                seq,
            } => {
                self.renew_for(*owner, *txn, *length, points.slice(), *seq, n)
                    .concerned
                    .is_some()
            }
            Act::Cancel { owner, txn, seq } => {
                self.cancel_for(*owner, *txn, *seq, n);
                true
            }
            Act::Gone { owner } => 0 < self.lose(*owner, n),
            Act::Tick => false,
            Act::Fault { point } => self.follow_up(*point, true, n).is_some(),
        }
    }
    /// The leases of a new transaction take their slots. `seq` is the number of the request, 0 for none.
    fn begin_ready(&mut self, ready: Ready, seq: u64, n: u64)
        requires moment { ((persistent_of self.old.lasting).now ≤ n) × (n ≤ last_moment) }
        requires begun { (plant : List Actuator) × (owner : ℕ) × (policy : Policy) × (writes : List Setting) × CanAct plant self.old × (1 ≤ length writes)
            × (submit_refused plant writes (persistent_of self.old.lasting) ≡ None) × IsReadyToBegin owner policy writes n ready (persistent_of self.old.lasting) }
        requires room { HasRoomFor ready self.old }
        ensures after { (owner : ℕ) (policy : Policy) (writes : List Setting) → 1 ≤ length writes →
            IsReadyToBegin owner policy writes n ready (persistent_of self.old.lasting) →
            persistent_of self.new.lasting ≡ begun_with owner policy writes seq n (persistent_of self.old.lasting) }
        ensures others { (self.new.marks ≡ self.old.marks) × (self.new.attached ≡ self.old.attached) }
        ensures places { (plant : List Actuator) → HasPlaces plant self.old → HasPlaces plant self.new }
    {
        match ready {
            Ready::Submit {
                transaction,
                leases,
            } => {
                self.begin(transaction, leases, seq, n);
            }
            _ => unreachable!(),
        }
    }
}
