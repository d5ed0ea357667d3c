ghost use Rattle.std.specs.Prelude.{◌≡◌, ℕ, true, false, ◌≤◌, ◌<◌, ◌+◌, ◌==◌, not, ◌&&◌, ◌||◌, if◌then◌else◌, List, [], ◌∷◌, length, filter, Some, None, is_none, is_some, vec_len, IfSome};
ghost use Rattle.std.specs.List.{AllByRecursion};
ghost use Rattle.std.specs.Option.{option_map_or};
ghost use Rattle.boss_model.specs.declared.state.Actuator.{Actuator};
ghost use Rattle.boss_model.specs.declared.answer.Answer.TheVariants as answer;
ghost use Rattle.boss_model.specs.declared.command.Command.TheVariants as command;
ghost use Rattle.boss_model.specs.declared.command.Policy.{Policy};
ghost use Rattle.boss_model.specs.declared.command.Setting.{Setting};
ghost use Rattle.boss_model.specs.declared.kept.Acceptance.TheVariants as acceptance;
ghost use Rattle.boss_model.specs.declared.notice.Cause.TheVariants as cause;
ghost use Rattle.boss_model.specs.declared.state.Lease.{Lease};
ghost use Rattle.boss_model.specs.Effects.{concerned};
ghost use Rattle.boss_model.specs.Ends.{cancel_refused, end_leases, fault, faulted, is_of, is_owned_by, lost};
ghost use Rattle.boss_model.specs.Happenings.{tell};
ghost use Rattle.boss_model.specs.Limits.{last_moment, last_number, most_processes, most_writes};
ghost use Rattle.boss_model.specs.Machine.{act};
ghost use Rattle.boss_model.specs.Processes.{enrol, number_of, process_named, process_of};
ghost use Rattle.boss_model.specs.Renew.{renew_refused, renewed};
ghost use Rattle.boss_model.specs.Submit.{first_until, submitted};
ghost use Rattle.boss_model.specs.Target.{in_force};
ghost use Rattle.boss_holdings.specs.Held.{AreApart};
ghost use Rattle.boss_engine.specs.Inside.{CanAct, CanRun, HasPlaces, state_of};
ghost use Rattle.boss_persistent.specs.Lasting.{IsSomeSubmit, IsSubmit, persistent_of};
ghost use Rattle.law_effects.specs.Changes.{changes, failure_changes, may_be_told, renewal_changes};
ghost use Rattle.boss_booking.specs.Passed.{IsPassed};
ghost use Rattle.law_due.specs.Playing.{IsPlayable};
ghost use Rattle.boss_engine.specs.Replies.{IsTellable, is_told_apart, told};
ghost use Rattle.boss_engine.specs.Ready.{CanTakeOn, HasRoomFor, IsReadyToAttach, IsReadyToList, IsReadyToSubmit};
ghost use Rattle.boss_persistent.specs.Replying.{renewed_until, with_reply};
ghost use Rattle.boss_persistent.specs.Showing.{ShowsAsBefore};

use crate::done::Done;
use crate::machine::Machine;
use crate::ready::Ready;
use crate::reply::{Reading, Reply};
use boss_booking::{Happening, Telling};
use boss_marks::Reported;
use boss_model::{
    Acceptance, Actuator, Cause, DriverId, Lease, Name, PointId, ProcId, Refusal, SessionId, Txn,
    What,
};
use boss_persistent::{
    Decision, Which, attach, basis_of, cancel_refused, detach, first_until, process_of,
    renew_refused, target_of,
};
use boss_policy::{Decision as Policing, on_fault};
use boss_stages::Transaction;

/// A process that has this name, and whether it was taken on with it.
#[derive(Clone, Copy)]
pub struct Entrant {
    pub process: ProcId,
    pub is_new: bool,
}

/// The commands, at a moment n up to which time has passed.
impl Machine {
    /// The session becomes the process of this name.
    pub fn attach(&mut self, session: SessionId, name: &Name, n: u64, ready: Ready) -> Done
        requires can_run { (plant : List Actuator) × CanRun plant self.old }
        requires moment { self.old.lasting.holdings.now ≤ n }
        requires ready { IsReadyToAttach session name.now ready (state_of self.old) }
        ensures tellable { (plant : List Actuator) → IsTellable plant (persistent_of self.new.lasting) result.reply }
        ensures apart { is_told_apart result.reply ≡ false }
        ensures answer { (plant : List Actuator) → told (persistent_of self.new.lasting) result.reply ≡ (act plant session n (command.Attach name.now) (state_of self.old)).answer }
        ensures state { (plant : List Actuator) → state_of self.new ≡ (act plant session n (command.Attach name.now) (state_of self.old)).state }
        ensures changed { (plant : List Actuator) → is_some result.concerned ≡ changes plant session n (command.Attach name.now) (state_of self.old) }
        ensures owner { IfSome result.concerned (λ owner. owner ≡ concerned (command.Attach name.now) session (state_of self.old)) }
        ensures places { (plant : List Actuator) → HasPlaces plant self.old → HasPlaces plant self.new }
        ensures untouched { ShowsAsBefore self.old.lasting.holdings self.new.lasting.holdings }
    {
        if let Ready::Refused(why) = ready {
            return Done::refused(why);
        }
        let entrant = self.process_for(name, n, ready);
        attach(&mut self.attached, session, entrant.process);
        Done {
            reply: Reply::Attached {
                name: name.copied(),
                next: self.lasting.processes.next_notice(entrant.process),
            },
            concerned: entrant.is_new.then_some(entrant.process),
        }
    }

    /// The process of this name, which is taken on if it is new.
    pub fn process_for(&mut self, name: &Name, n: u64, ready: Ready) -> Entrant
        requires few { process_named self.old.lasting.processes name.now ≡ None → length self.old.lasting.processes < most_processes }
        requires moment { self.old.lasting.holdings.now ≤ n }
        requires ready { CanTakeOn name.now ready (persistent_of self.old.lasting) }
        ensures process { result.process ≡ number_of self.old.lasting.processes (process_named self.old.lasting.processes name.now) }
        ensures known { result.process < length self.new.lasting.processes }
        ensures is_new { result.is_new ≡ is_none (process_named self.old.lasting.processes name.now) }
        ensures after { persistent_of self.new.lasting ≡ enrol name.now n (persistent_of self.old.lasting) }
        ensures others { self.new ≡ record self.old { lasting = record self.old.lasting { holdings = record self.old.lasting.holdings { now = self.new.lasting.holdings.now }; processes = self.new.lasting.processes } } }
    {
        if let Some(process) = self.lasting.processes.named(name) {
            return Entrant {
                process,
                is_new: false,
            };
        }
        let process = ProcId(self.lasting.processes.count() as u16);
        if let Ready::Process(ring) = ready {
            self.lasting.processes.enrol(name.copied(), ring);
            self.lasting.holdings.reach(n);
        }
        Entrant {
            process,
            is_new: true,
        }
    }

    /// The leases of a new transaction take their slots. `seq` is the number of the request, 0 for none.
    #[inline(always)]
    pub fn submit(&mut self, seq: u64, n: u64, ready: Ready) -> Done
        requires moment { (self.old.lasting.holdings.now ≤ n) × (n ≤ last_moment) }
        requires ready { (plant : List Actuator) × CanAct plant self.old × (session : ℕ) × (writes : List Setting) × (policy : Policy) × (1 ≤ length writes) × IsReadyToSubmit plant (process_of self.old.attached.items session) writes policy seq n ready (state_of self.old) }
        requires room { HasRoomFor ready self.old }
        ensures tellable { (plant : List Actuator) → IsTellable plant (persistent_of self.new.lasting) result.reply }
        ensures apart { is_told_apart result.reply ≡ false }
        ensures answer { (plant : List Actuator) (session : ℕ) (writes : List Setting) (policy : Policy) → 1 ≤ length writes →
            IsReadyToSubmit plant (process_of self.old.attached.items session) writes policy seq n ready (state_of self.old) →
            told (persistent_of self.new.lasting) result.reply ≡ (act plant session n (command.Submit writes policy seq) (state_of self.old)).answer }
        ensures state { (plant : List Actuator) (session : ℕ) (writes : List Setting) (policy : Policy) → 1 ≤ length writes →
            IsReadyToSubmit plant (process_of self.old.attached.items session) writes policy seq n ready (state_of self.old) →
            state_of self.new ≡ (act plant session n (command.Submit writes policy seq) (state_of self.old)).state }
        ensures changed { (plant : List Actuator) (session : ℕ) (writes : List Setting) (policy : Policy) → 1 ≤ length writes →
            IsReadyToSubmit plant (process_of self.old.attached.items session) writes policy seq n ready (state_of self.old) →
            is_some result.concerned ≡ changes plant session n (command.Submit writes policy seq) (state_of self.old) }
        ensures owner { (plant : List Actuator) (session : ℕ) (writes : List Setting) (policy : Policy) → 1 ≤ length writes →
            IsReadyToSubmit plant (process_of self.old.attached.items session) writes policy seq n ready (state_of self.old) →
            IfSome result.concerned (λ owner. owner ≡ concerned (command.Submit writes policy seq) session (state_of self.old)) }
        ensures places { (plant : List Actuator) → HasPlaces plant self.old → HasPlaces plant self.new }
        ensures untouched { ShowsAsBefore self.old.lasting.holdings self.new.lasting.holdings }
    {
        match ready {
            Ready::Submit {
                transaction,
                leases,
            } => {
                let owner = transaction.owner();
                let txn = Txn(self.lasting.next_txn);
                let until = self.begin(transaction, leases, seq, n);
                let accepted = Acceptance::Accepted { txn, until };
                Done {
                    reply: Reply::Decided(Decision::Again(accepted)),
                    concerned: Some(owner),
                }
            }
            Ready::Decided(decision) => Done::unchanged(Reply::Decided(decision)),
            Ready::Refused(why) => Done::refused(why),
            _ => unreachable!(),
        }
    }

    /// The same of a transaction that is not refused. Gives the first moment at which one of the leases ends.
    pub fn begin(&mut self, transaction: Transaction, leases: Vec<Lease>, seq: u64, n: u64) -> u64
        requires can_act { (plant : List Actuator) × CanAct plant self.old }
        requires moment { self.old.lasting.holdings.now ≤ n }
        requires begun { IsSomeSubmit n transaction leases.items (persistent_of self.old.lasting) }
        requires slots { AllByRecursion (λ lease. (lease.point < self.old.lasting.holdings.points) × (1 ≤ lease.priority) × (lease.priority ≤ 16)) leases.items }
        requires apart { AreApart leases.items }
        requires next { self.old.lasting.next_txn < last_number }
        requires room { length self.old.lasting.stages.kept < self.old.lasting.stages.room }
        ensures until { result ≡ first_until leases.items }
        ensures after { (owner : ℕ) (policy : Policy) (writes : List Setting) →
            IsSubmit n transaction leases.items (persistent_of self.old.lasting) owner policy writes →
            persistent_of self.new.lasting ≡ with_reply owner seq (acceptance.Accepted self.old.lasting.next_txn (first_until leases.items)) (submitted owner policy writes n (persistent_of self.old.lasting)) }
        ensures others { (self.new.marks ≡ self.old.marks) × (self.new.attached ≡ self.old.attached) }
        ensures places { (plant : List Actuator) → HasPlaces plant self.old → HasPlaces plant self.new }
        ensures untouched { ShowsAsBefore self.old.lasting.holdings self.new.lasting.holdings }
    {
        let owner = transaction.owner();
        let until = first_until(&leases);
        let accepted = Acceptance::Accepted {
            txn: Txn(self.lasting.next_txn),
            until,
        };
        self.lasting.submit(transaction, leases, n, &mut self.told);
        self.lasting.processes.accept(owner, seq, accepted);
        until
    }

    /// Leases of a transaction last longer. `seq` is the number of the request, 0 for none.
    pub fn renew(
        &mut self,
        session: SessionId,
        txn: Txn,
        duration: i64,
        points: &[PointId],
        seq: u64,
        n: u64,
    ) -> Done
        requires can_act { (plant : List Actuator) × CanAct plant self.old }
        requires moment { (self.old.lasting.holdings.now ≤ n) × (n ≤ last_moment) }
        requires points { length points.now ≤ most_writes }
        ensures tellable { (plant : List Actuator) → IsTellable plant (persistent_of self.new.lasting) result.reply }
        ensures apart { is_told_apart result.reply ≡ false }
        ensures answer { (plant : List Actuator) → told (persistent_of self.new.lasting) result.reply ≡ (act plant session n (command.Renew txn duration points.now seq) (state_of self.old)).answer }
        ensures state { (plant : List Actuator) → state_of self.new ≡ (act plant session n (command.Renew txn duration points.now seq) (state_of self.old)).state }
        ensures changed { (plant : List Actuator) → is_some result.concerned ≡ changes plant session n (command.Renew txn duration points.now seq) (state_of self.old) }
        ensures owner { IfSome result.concerned (λ owner. owner ≡ concerned (command.Renew txn duration points.now seq) session (state_of self.old)) }
        ensures places { (plant : List Actuator) → HasPlaces plant self.old → HasPlaces plant self.new }
        ensures untouched { ShowsAsBefore self.old.lasting.holdings self.new.lasting.holdings }
    {
        let Some(owner) = process_of(&self.attached, session) else {
            return Done::refused(Refusal::NotAttached);
        };
        if let Some(decision) = self.lasting.processes.decision(owner, seq) {
            return Done::unchanged(Reply::Decided(decision));
        }
        if let Some(why) = renew_refused(&self.lasting, owner, txn, duration, points, n) {
            return Done::refused(why);
        }
        self.renew_for(owner, txn, duration, points, seq, n)
    }

    /// The same for a process, of a renewal that is not refused.
    pub fn renew_for(
        &mut self,
        owner: ProcId,
        txn: Txn,
        duration: i64,
        points: &[PointId],
        seq: u64,
        n: u64,
    ) -> Done
        requires can_act { (plant : List Actuator) × CanAct plant self.old }
        requires moment { (self.old.lasting.holdings.now ≤ n) × (n ≤ last_moment) }
        requires points { length points.now ≤ most_writes }
        requires passed { renew_refused owner txn duration points.now n (persistent_of self.old.lasting) ≡ None }
        ensures tellable { (plant : List Actuator) → IsTellable plant (persistent_of self.new.lasting) result.reply }
        ensures apart { is_told_apart result.reply ≡ false }
        ensures answer { told (persistent_of self.new.lasting) result.reply ≡ answer.Renewed txn (renewed_until txn duration points.now n (persistent_of self.old.lasting)) }
        ensures changed { is_some result.concerned ≡ renewal_changes n txn duration points.now seq (persistent_of self.old.lasting) }
        ensures owner { IfSome result.concerned (λ process. process ≡ owner) }
        ensures after { persistent_of self.new.lasting ≡ with_reply owner seq
            (acceptance.Renewed txn (renewed_until txn duration points.now n (persistent_of self.old.lasting)))
            (renewed txn duration points.now n (persistent_of self.old.lasting)) }
        ensures others { (self.new.marks ≡ self.old.marks) × (self.new.attached ≡ self.old.attached) }
        ensures places { (plant : List Actuator) → HasPlaces plant self.old → HasPlaces plant self.new }
        ensures untouched { ShowsAsBefore self.old.lasting.holdings self.new.lasting.holdings }
    {
        let until = n + duration.unsigned_abs();
        let later = self.lasting.holdings.now() != n;
        let extended = self.lasting.extend(txn, points, until);
        self.lasting.holdings.reach(n);
        let renewed = Acceptance::Renewed {
            txn,
            until: extended.first_until,
        };
        self.lasting.processes.accept(owner, seq, renewed);
        Done {
            reply: Reply::Decided(Decision::Again(renewed)),
            concerned: (0 < seq || later || extended.longer).then_some(owner),
        }
    }

    /// The live leases of a transaction end. `seq` is the number of the request, 0 for none.
    pub fn cancel(&mut self, session: SessionId, txn: Txn, seq: u64, n: u64) -> Done
        requires can_act { (plant : List Actuator) × CanAct plant self.old }
        requires passed { IsPassed n (persistent_of self.old.lasting) }
        requires moment { (self.old.lasting.holdings.now ≤ n) × (n ≤ last_moment) }
        ensures tellable { (plant : List Actuator) → IsTellable plant (persistent_of self.new.lasting) result.reply }
        ensures apart { is_told_apart result.reply ≡ false }
        ensures answer { (plant : List Actuator) → told (persistent_of self.new.lasting) result.reply ≡ (act plant session n (command.Cancel txn seq) (state_of self.old)).answer }
        ensures state { (plant : List Actuator) → state_of self.new ≡ (act plant session n (command.Cancel txn seq) (state_of self.old)).state }
        ensures changed { (plant : List Actuator) → is_some result.concerned ≡ changes plant session n (command.Cancel txn seq) (state_of self.old) }
        ensures owner { IfSome result.concerned (λ owner. owner ≡ concerned (command.Cancel txn seq) session (state_of self.old)) }
        ensures places { (plant : List Actuator) → HasPlaces plant self.old → HasPlaces plant self.new }
        ensures untouched { ShowsAsBefore self.old.lasting.holdings self.new.lasting.holdings }
    {
        let Some(owner) = process_of(&self.attached, session) else {
            return Done::refused(Refusal::NotAttached);
        };
        if let Some(decision) = self.lasting.processes.decision(owner, seq) {
            return Done::unchanged(Reply::Decided(decision));
        }
        if let Some(why) = cancel_refused(&self.lasting, owner, txn) {
            return Done::refused(why);
        }
        self.cancel_for(owner, txn, seq, n);
        let cancelled = Acceptance::Cancelled { txn, at: n };
        Done {
            reply: Reply::Decided(Decision::Again(cancelled)),
            concerned: Some(owner),
        }
    }

    /// The same for a process, of a cancel that is not refused.
    pub fn cancel_for(&mut self, owner: ProcId, txn: Txn, seq: u64, n: u64)
        requires can_act { (plant : List Actuator) × CanAct plant self.old }
        requires passed { IsPassed n (persistent_of self.old.lasting) }
        requires moment { (self.old.lasting.holdings.now ≤ n) × (n ≤ last_moment) }
        requires allowed { cancel_refused owner txn (persistent_of self.old.lasting) ≡ None }
        ensures after { persistent_of self.new.lasting ≡ with_reply owner seq (acceptance.Cancelled txn n)
            (end_leases (is_of txn) cause.Cancelled n [] (persistent_of self.old.lasting)) }
        ensures others { (self.new.marks ≡ self.old.marks) × (self.new.attached ≡ self.old.attached) }
        ensures places { (plant : List Actuator) → HasPlaces plant self.old → HasPlaces plant self.new }
        ensures untouched { ShowsAsBefore self.old.lasting.holdings self.new.lasting.holdings }
    {
        self.told.clear();
        self.lasting.end_leases(
            &Which::OfTransaction(txn),
            &Cause::Cancelled,
            n,
            &mut self.told,
        );
        let cancelled = Acceptance::Cancelled { txn, at: n };
        self.lasting.processes.accept(owner, seq, cancelled);
    }

    /// The session's process is lost: its live leases end, and the session no longer holds it.
    pub fn gone(&mut self, session: SessionId, n: u64) -> Done
        requires can_act { (plant : List Actuator) × CanAct plant self.old }
        requires passed { IsPassed n (persistent_of self.old.lasting) }
        requires moment { (self.old.lasting.holdings.now ≤ n) × (n ≤ last_moment) }
        ensures tellable { (plant : List Actuator) → IsTellable plant (persistent_of self.new.lasting) result.reply }
        ensures apart { is_told_apart result.reply ≡ false }
        ensures answer { (plant : List Actuator) → told (persistent_of self.new.lasting) result.reply ≡ (act plant session n (command.Gone) (state_of self.old)).answer }
        ensures state { (plant : List Actuator) → state_of self.new ≡ (act plant session n (command.Gone) (state_of self.old)).state }
        ensures changed { (plant : List Actuator) → is_some result.concerned ≡ changes plant session n (command.Gone) (state_of self.old) }
        ensures owner { IfSome result.concerned (λ owner. owner ≡ concerned (command.Gone) session (state_of self.old)) }
        ensures places { (plant : List Actuator) → HasPlaces plant self.old → HasPlaces plant self.new }
        ensures untouched { ShowsAsBefore self.old.lasting.holdings self.new.lasting.holdings }
    {
        let Some(owner) = process_of(&self.attached, session) else {
            return Done::refused(Refusal::NotAttached);
        };
        let ended = self.lose(owner, n);
        detach(&mut self.attached, session);
        Done {
            reply: Reply::Gone { ended },
            concerned: (0 < ended).then_some(owner),
        }
    }

    /// The live leases of a process end, if it has any. The answer is how many it had.
    pub fn lose(&mut self, owner: ProcId, n: u64) -> u64
        requires can_act { (plant : List Actuator) × CanAct plant self.old }
        requires passed { IsPassed n (persistent_of self.old.lasting) }
        requires moment { (self.old.lasting.holdings.now ≤ n) × (n ≤ last_moment) }
        ensures ended { result ≡ length (filter (is_owned_by owner) self.old.lasting.holdings.leases) }
        ensures after { persistent_of self.new.lasting ≡ lost owner n (persistent_of self.old.lasting) }
        ensures others { (self.new.marks ≡ self.old.marks) × (self.new.attached ≡ self.old.attached) }
        ensures places { (plant : List Actuator) → HasPlaces plant self.old → HasPlaces plant self.new }
        ensures untouched { ShowsAsBefore self.old.lasting.holdings self.new.lasting.holdings }
    {
        let ended = self.lasting.holdings.owned(owner) as u64;
        if ended == 0 {
            return 0;
        }
        self.told.clear();
        self.lasting
            .end_leases(&Which::OfProcess(owner), &Cause::Died, n, &mut self.told);
        ended
    }

    /// Hands a driver's first want out.
    #[inline(always)]
    pub fn next(&mut self, driver: DriverId) -> Reply
        ensures tellable { (plant : List Actuator) → IsTellable plant (persistent_of self.new.lasting) result }
        ensures answer { (plant : List Actuator) (session n : ℕ) → HasPlaces plant self.old → told (persistent_of self.new.lasting) result ≡ (act plant session n (command.Next driver) (state_of self.old)).answer }
        ensures state { (plant : List Actuator) (session n : ℕ) → HasPlaces plant self.old → state_of self.new ≡ (act plant session n (command.Next driver) (state_of self.old)).state }
        ensures places { (plant : List Actuator) → HasPlaces plant self.old → HasPlaces plant self.new }
        ensures untouched { ShowsAsBefore self.old.lasting.holdings self.new.lasting.holdings }
    {
        match self.marks.next(driver) {
            Some(want) => Reply::Want(want),
            None => Reply::Nothing,
        }
    }

    /// Takes a device's answer to a write down.
    pub fn report(&mut self, point: PointId, version: u64, ok: bool, n: u64) -> Done
        requires can_act { (plant : List Actuator) × CanAct plant self.old × (point < length plant) }
        requires passed { IsPassed n (persistent_of self.old.lasting) }
        requires moment { (self.old.lasting.holdings.now ≤ n) × (n ≤ last_moment) }
        ensures tellable { (plant : List Actuator) → IsTellable plant (persistent_of self.new.lasting) result.reply }
        ensures answer { (plant : List Actuator) (session : ℕ) → HasPlaces plant self.old → told (persistent_of self.new.lasting) result.reply ≡ (act plant session n (command.Report point version ok) (state_of self.old)).answer }
        ensures state { (plant : List Actuator) (session : ℕ) → HasPlaces plant self.old → state_of self.new ≡ (act plant session n (command.Report point version ok) (state_of self.old)).state }
        ensures changed { (plant : List Actuator) (session : ℕ) → HasPlaces plant self.old → is_some result.concerned ≡ changes plant session n (command.Report point version ok) (state_of self.old) }
        ensures owner { (session : ℕ) → IfSome result.concerned (λ owner. owner ≡ concerned (command.Report point version ok) session (state_of self.old)) }
        ensures places { (plant : List Actuator) → HasPlaces plant self.old → HasPlaces plant self.new }
        ensures untouched { ShowsAsBefore self.old.lasting.holdings self.new.lasting.holdings }
    {
        let reported = self.marks.report(point, version, ok, n);
        if reported == Reported::Old {
            return Done::unchanged(Reply::Noted { current: false });
        }
        let failed = reported == Reported::FirstFailure;
        Done {
            reply: Reply::Noted { current: true },
            concerned: self.follow_up(point, failed, n),
        }
    }

    /// Has a settled device written again.
    pub fn doubt(&mut self, point: PointId, differs: bool) -> Reply
        requires { (plant : List Actuator) × HasPlaces plant self.old × (point < length plant) }
        ensures tellable { (plant : List Actuator) → IsTellable plant (persistent_of self.new.lasting) result }
        ensures answer { (plant : List Actuator) (session n : ℕ) → told (persistent_of self.new.lasting) result ≡ (act plant session n (command.Doubt point differs) (state_of self.old)).answer }
        ensures state { (plant : List Actuator) (session n : ℕ) → state_of self.new ≡ (act plant session n (command.Doubt point differs) (state_of self.old)).state }
        ensures places { (plant : List Actuator) → HasPlaces plant self.old → HasPlaces plant self.new }
        ensures untouched { ShowsAsBefore self.old.lasting.holdings self.new.lasting.holdings }
    {
        let current = self.marks.doubt(point, differs);
        Reply::Noted { current }
    }

    /// What follows for the lease in force on a point, whose device has failed to take its value, for the first time or again.
    /// The answer is the lease's owner, where that changed something.
    #[inline(always)]
    pub fn follow_up(&mut self, point: PointId, first: bool, n: u64) -> Option<ProcId>
        requires can_act { (plant : List Actuator) × CanAct plant self.old }
        requires point { point < self.old.lasting.holdings.points }
        requires passed { IsPassed n (persistent_of self.old.lasting) }
        requires moment { (self.old.lasting.holdings.now ≤ n) × (n ≤ last_moment) }
        ensures changed { is_some result ≡ (first && failure_changes n (in_force (persistent_of self.old.lasting).leases point) (persistent_of self.old.lasting)) }
        ensures owner { IfSome result (λ owner. owner ≡ option_map_or (λ lease. lease.owner) (in_force (persistent_of self.old.lasting).leases point) 0) }
        ensures after { persistent_of self.new.lasting ≡ (if first then faulted (in_force (persistent_of self.old.lasting).leases point) n (persistent_of self.old.lasting) else persistent_of self.old.lasting) }
        ensures others { (self.new.marks ≡ self.old.marks) × (self.new.attached ≡ self.old.attached) }
        ensures places { (plant : List Actuator) → HasPlaces plant self.old → HasPlaces plant self.new }
        ensures untouched { ShowsAsBefore self.old.lasting.holdings self.new.lasting.holdings }
    {
        if !first {
            return None;
        }
        let Some(lease) = self.lasting.in_force(point) else {
            return None;
        };
        let owner = lease.owner;
        let happened = fault_of(lease, n);
        match on_fault(Some(lease.policy), first) {
            Policing::EndAll => {
                self.abort(happened, n);
                Some(owner)
            }
            Policing::Tell => self.tell(happened, n).then_some(owner),
            Policing::Mark => None,
        }
    }

    /// The owner is told of a fault, and all live leases of the transaction end.
    fn abort(&mut self, happened: Happening, n: u64)
        requires can_act { (plant : List Actuator) × CanAct plant self.old }
        requires passed { IsPassed n (persistent_of self.old.lasting) }
        requires moment { (self.old.lasting.holdings.now ≤ n) × (n ≤ last_moment) }
        requires fault { (point : ℕ) × (lease : Lease) × (in_force (persistent_of self.old.lasting).leases point ≡ Some lease) × (happened ≡ fault n lease) }
        ensures after { persistent_of self.new.lasting ≡ end_leases (is_of happened.txn) cause.Fault n (happened ∷ []) (persistent_of self.old.lasting) }
        ensures others { (self.new.marks ≡ self.old.marks) × (self.new.attached ≡ self.old.attached) }
        ensures places { (plant : List Actuator) → HasPlaces plant self.old → HasPlaces plant self.new }
        ensures untouched { ShowsAsBefore self.old.lasting.holdings self.new.lasting.holdings }
    {
        self.told.clear();
        self.told.push_reserved(Telling {
            happening: happened,
            reverts: false,
        });
        self.lasting.end_leases(
            &Which::OfTransaction(happened.txn),
            &Cause::Fault,
            n,
            &mut self.told,
        );
    }

    /// The owner is told of a fault. The answer is whether that changed something: its notices may have come to their last number.
    fn tell(&mut self, happened: Happening, n: u64) -> bool
        requires owner { happened.owner < length self.old.lasting.processes }
        requires moment { self.old.lasting.holdings.now ≤ n }
        ensures changed { result ≡ (not (self.old.lasting.holdings.now == n) || may_be_told self.old.lasting.processes happened.owner) }
        ensures after { persistent_of self.new.lasting ≡ record (persistent_of self.old.lasting) { now = n; processes = tell self.old.lasting.processes happened } }
        ensures others { (self.new.marks ≡ self.old.marks) × (self.new.attached ≡ self.old.attached) }
        ensures places { (plant : List Actuator) → HasPlaces plant self.old → HasPlaces plant self.new }
        ensures untouched { ShowsAsBefore self.old.lasting.holdings self.new.lasting.holdings }
    {
        let changed = self.lasting.holdings.now() != n
            || self.lasting.processes.may_be_told(happened.owner);
        self.lasting.processes.tell(&happened);
        self.lasting.holdings.reach(n);
        changed
    }

    /// Tells the value that a point is to have.
    #[inline(always)]
    pub fn read(&self, plant: &[Actuator], point: PointId) -> Reply
        requires can_run { CanRun plant.now self.now }
        requires point { point < length plant.now }
        ensures tellable { (plant : List Actuator) → IsTellable plant (persistent_of self.now.lasting) result }
        ensures apart { is_told_apart result ≡ false }
        ensures answer { (session n : ℕ) → told (persistent_of self.now.lasting) result ≡ (act plant.now session n (command.Read point) (state_of self.now)).answer }
    {
        let holdings = &self.lasting.holdings;
        Reply::Read(Reading {
            point,
            value: target_of(plant, holdings, point),
            basis: basis_of(holdings, point),
            mark: self.marks.mark(point),
            differed: self.marks.differed(point),
            took: self.marks.took(point),
        })
    }

    /// Tells notices of the process of this name, or of the session's own.
    pub fn notices(
        &self,
        session: SessionId,
        name: &Option<Name>,
        from: u64,
        max: u64,
        ready: Ready,
    ) -> Reply
        requires attached { AllByRecursion (λ attachment. attachment.process < length self.now.lasting.processes) self.now.attached.items }
        requires ready { IsReadyToList name.now (process_of self.now.attached.items session) max ready }
        ensures tellable { (plant : List Actuator) → IsTellable plant (persistent_of self.now.lasting) result }
        ensures answer { (plant : List Actuator) (n : ℕ) → told (persistent_of self.now.lasting) result ≡ (act plant session n (command.Notices name.now from max) (state_of self.now)).answer }
    {
        let process = match name {
            Some(name) => self.lasting.processes.named(name),
            None => process_of(&self.attached, session),
        };
        match ready {
            Ready::List(list) => Reply::Notices {
                process,
                from,
                max,
                list,
            },
            Ready::Refused(why) => Reply::Refused(why),
            _ => unreachable!(),
        }
    }
}

/// A device did not take the lease's value.
fn fault_of(lease: &Lease, n: u64) -> Happening
    ensures { result ≡ fault n lease.now }
{
    Happening {
        at: n,
        txn: lease.txn,
        owner: lease.owner,
        what: What::Fault { point: lease.point },
    }
}
