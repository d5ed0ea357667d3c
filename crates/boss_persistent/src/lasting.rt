ghost use Rattle.std.specs.Prelude.{◌≡◌, ℕ, ℤ, ◌++◌, ◌==◌, ◌&&◌, false, [], List, ◌≤◌, ◌<◌, ◌+◌, ◌*◌, find, fold, length, map, filter, flat_map, not, vec_capacity, IfOk};
ghost use Rattle.std.specs.Option.{option_copied};
ghost use Rattle.std.specs.List.{AllByRecursion};
ghost use Rattle.std.specs.List.Sorted.{IsPermutation};
ghost use Rattle.boss_model.specs.declared.command.Policy.{Policy};
ghost use Rattle.boss_model.specs.declared.command.Setting.{Setting};
ghost use Rattle.boss_model.specs.Ends.{end_leases, shortened_if};
ghost use Rattle.boss_model.specs.Happenings.{Happening};
ghost use Rattle.boss_model.specs.Limits.{last_moment, last_number, most_points};
ghost use Rattle.boss_model.specs.Reversions.{courses};
ghost use Rattle.boss_model.specs.Sound.{is_superseded};
ghost use Rattle.boss_model.specs.State.{first_persistent};
ghost use Rattle.boss_model.specs.Submit.{submitted};
ghost use Rattle.boss_model.specs.Target.{in_force, playing};
ghost use Rattle.boss_model.specs.Time.{due, live, tick_to, under_way};
ghost use Rattle.boss_booking.specs.Gathered.{end_tellings, plain};
ghost use Rattle.boss_booking.specs.Passed.{IsFirstTold, IsPassed};
ghost use Rattle.law_effects.specs.Early.{slot_lease};
ghost use Rattle.boss_holdings.specs.Held.{AreApart, is_touched, shown};
ghost use Rattle.boss_persistent.specs.Lasting.{IsKept, IsSomeSubmit, IsSoundOfSome, IsSubmit, persistent_of};
ghost use Rattle.boss_persistent.specs.Meant.{is_meant};
ghost use Rattle.boss_persistent.specs.Showing.{ShowsAsBefore};

use crate::booking::book_all;
use crate::processes::Processes;
use boss_booking::Telling;
use boss_holdings::Holdings;
use boss_model::{Cause, Lease, MOST_WRITES, NoMemory, Pending, PointId, Priority, ProcId, Txn};
use boss_slots::Place;
use boss_stages::{Stages, Transaction};
use std::alloc::Global;

/// What outlasts a stop: leases and reversions, the records of transactions, and the processes.
#[derive(Drop)]
pub struct Lasting {
    /// The number of the next transaction.
    pub next_txn: u64,
    /// Leases and reversions, and the moment of the last change.
    pub holdings: Holdings,
    pub stages: Stages,
    pub processes: Processes,
    /// Room for the slots of one transaction, which are filled in where a command is about them.
    pub slots: Vec<Place>,
}

/// Which leases are to end before their time.
#[derive(Clone, Copy)]
pub enum Which {
    /// All those of a transaction.
    OfTransaction(Txn),
    /// All those of the transactions that a process submitted.
    OfProcess(ProcId),
}

impl Lasting {
    /// What outlasts a stop before anything was done, with room for the sixteen slots of each of so many points.
    pub fn first(alloc: Global, points: u32) -> Result<Lasting, NoMemory>
        requires { points ≤ most_points }
        ensures first { IfOk result (λ lasting. persistent_of lasting ≡ first_persistent) }
        ensures kept { IfOk result IsKept }
        ensures points { IfOk result (λ lasting. lasting.holdings.points ≡ points) }
    {
        Ok(Lasting {
            next_txn: 1,
            holdings: Holdings::first(alloc, points)?,
            stages: Stages::new(alloc, points)?,
            processes: Processes::new(alloc)?,
            slots: Vec::with_capacity(alloc, MOST_WRITES)?,
        })
    }

    /// The lease in force on a point, if there is one.
    pub fn in_force(&self, point: PointId) -> Option<&Lease>
        requires { point < self.now.holdings.points }
        ensures { option_copied result ≡ in_force (persistent_of self.now).leases point }
    {
        self.holdings.in_force(point)
    }

    /// The reversion that counts on a point that has no lease, if there is one.
    pub fn playing(&self, point: PointId) -> Option<&Pending>
        requires { point < self.now.holdings.points }
        ensures { option_copied result ≡ playing (persistent_of self.now).pending point }
    {
        self.holdings.playing(point)
    }

    /// The lease in a slot, if there is one.
    pub fn lease_at(&self, point: PointId, priority: Priority) -> Option<&Lease>
        requires point { point < self.now.holdings.points }
        requires level { (1 ≤ priority) × (priority ≤ 16) }
        ensures { option_copied result ≡ slot_lease (persistent_of self.now).leases point priority }
    {
        self.holdings.lease_at(point, priority)
    }

    /// The reversion in a slot, if there is one.
    pub fn pending_at(&self, point: PointId, priority: Priority) -> Option<&Pending>
        requires point { point < self.now.holdings.points }
        requires level { (1 ≤ priority) × (priority ≤ 16) }
        ensures { option_copied result ≡ find (λ reversion. (reversion.point == point) && (reversion.priority == priority)) (persistent_of self.now).pending }
    {
        self.holdings.pending_at(point, priority)
    }

    /// Lets time pass up to `n`: leases and reversions end at their moments, and their owners are told. What is told is
    /// gathered in `told`. It takes no memory.
    pub fn tick(&mut self, n: u64, told: &mut Vec<Telling>)
        requires sound { IsSoundOfSome self.old }
        requires moment { ((persistent_of self.old).now ≤ n) × (n ≤ last_moment) }
        requires kept { IsKept self.old }
        requires told { 32 * self.old.holdings.points < vec_capacity told.old }
        ensures after { persistent_of self.new ≡ tick_to n (persistent_of self.old) }
        ensures kept { IsKept self.new }
        ensures points { self.new.holdings.points ≡ self.old.holdings.points }
        ensures stages { self.new.stages.room ≡ self.old.stages.room }
        ensures told { vec_capacity told.new ≡ vec_capacity told.old }
        ensures untouched { (default : ℤ) (point moment : ℕ) → is_touched self.new.holdings point ≡ false → self.old.holdings.now ≤ moment → moment ≤ n →
            shown default moment self.new.holdings point ≡ shown default self.old.holdings.now self.old.holdings point }
    {
        let most = 2 * self.holdings.leases() as usize + self.holdings.pending() as usize;
        prove!(most <= told.capacity());
        self.holdings.tick(n, told);
        book_all(&mut self.stages, &mut self.processes, told);
    }

    /// A moment before which nothing is due, in milliseconds.
    pub fn first_due(&self) -> u64
        requires { IsSoundOfSome self.now }
        ensures { (n : ℕ) → n < result → due n (persistent_of self.now) ≡ [] }
    {
        self.holdings.first_due()
    }

    /// The leases concerned end at moment `n`, and start their reversions. `told` has what is told beside that. It takes no
    /// memory.
    pub fn end_leases(&mut self, which: &Which, cause: &Cause, n: u64, told: &mut Vec<Telling>)
        requires sound { IsSoundOfSome self.old }
        requires passed { IsPassed n (persistent_of self.old) }
        requires moment { n ≤ last_moment }
        requires cause { is_superseded cause.now ≡ false }
        requires kept { IsKept self.old }
        requires first { (first : List Happening) × (told.old.items ≡ map plain first) × IsFirstTold cause.now n (persistent_of self.old) first }
        requires told { 32 * self.old.holdings.points < vec_capacity told.old }
        ensures after { (first : List Happening) → told.old.items ≡ map plain first →
            persistent_of self.new ≡ end_leases (is_meant which.now) cause.now n first (persistent_of self.old) }
        ensures kept { IsKept self.new }
        ensures points { self.new.holdings.points ≡ self.old.holdings.points }
        ensures told { vec_capacity told.new ≡ vec_capacity told.old }
        ensures untouched { ShowsAsBefore self.old.holdings self.new.holdings }
    {
        let live = self.holdings.leases() as usize;
        prove!(told.len() + live <= told.capacity());
        self.end_held(which, cause, n, told);
        book_all(&mut self.stages, &mut self.processes, told);
    }

    /// The same of the leases alone: what is told of it comes to `told`, in no order, and nothing of it is noted yet.
    fn end_held(&mut self, which: &Which, cause: &Cause, n: u64, told: &mut Vec<Telling>)
        requires sound { IsSoundOfSome self.old }
        requires passed { IsPassed n (persistent_of self.old) }
        requires moment { n ≤ last_moment }
        requires kept { IsKept self.old }
        requires told { length told.old.items + length self.old.holdings.leases ≤ vec_capacity told.old }
        ensures leases { self.new.holdings.leases ≡ live n (map (shortened_if (is_meant which.now) n) self.old.holdings.leases) }
        ensures pending { self.new.holdings.pending ≡ under_way n (courses self.old.holdings.pending (map (shortened_if (is_meant which.now) n) self.old.holdings.leases)) }
        ensures now { self.new.holdings.now ≡ n }
        ensures points { self.new.holdings.points ≡ self.old.holdings.points }
        ensures told { IsPermutation (told.old.items ++ end_tellings (is_meant which.now) cause.now n self.old.holdings.leases) told.new.items }
        ensures next { self.new.next_txn ≡ self.old.next_txn }
        ensures stages { self.new.stages ≡ self.old.stages }
        ensures processes { self.new.processes ≡ self.old.processes }
        ensures slots { vec_capacity self.new.slots ≡ vec_capacity self.old.slots }
        ensures capacity { vec_capacity told.new ≡ vec_capacity told.old }
        ensures untouched { ShowsAsBefore self.old.holdings self.new.holdings }
    {
        match *which {
            Which::OfTransaction(txn) => {
                self.fill_slots(txn, &[]);
                self.holdings.end_at(&self.slots, cause, n, told);
            }
            Which::OfProcess(owner) => self.holdings.end_owned(owner, cause, n, told),
        }
    }

    /// The leases of a new transaction take their slots at moment `n`. It takes no memory.
    pub fn submit(
        &mut self,
        transaction: Transaction,
        new: Vec<Lease>,
        n: u64,
        told: &mut Vec<Telling>,
    )
        requires sound { IsSoundOfSome self.old }
        requires moment { (persistent_of self.old).now ≤ n }
        requires submit { IsSomeSubmit n transaction new.items (persistent_of self.old) }
        requires slots { AllByRecursion (λ lease. (lease.point < self.old.holdings.points) × (1 ≤ lease.priority) × (lease.priority ≤ 16)) new.items }
        requires apart { AreApart new.items }
        requires next { self.old.next_txn < last_number }
        requires kept { IsKept self.old }
        requires stages { length self.old.stages.kept < self.old.stages.room }
        requires told { 32 * self.old.holdings.points < vec_capacity told.old }
        ensures after { (owner : ℕ) (policy : Policy) (writes : List Setting) →
            IsSubmit n transaction new.items (persistent_of self.old) owner policy writes →
            persistent_of self.new ≡ submitted owner policy writes n (persistent_of self.old) }
        ensures kept { IsKept self.new }
        ensures points { self.new.holdings.points ≡ self.old.holdings.points }
        ensures told { vec_capacity told.new ≡ vec_capacity told.old }
        ensures untouched { ShowsAsBefore self.old.holdings self.new.holdings }
    {
        let most = self.holdings.leases() as usize + self.holdings.pending() as usize;
        prove!(most <= told.capacity());
        let by = Txn(self.next_txn);
        self.stages.add(transaction);
        self.holdings.take(new, by, n, told);
        book_all(&mut self.stages, &mut self.processes, told);
        self.next_txn += 1;
    }
}
