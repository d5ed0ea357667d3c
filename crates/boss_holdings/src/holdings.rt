ghost use Rattle.std.specs.Prelude.{◌≡◌, ℕ, ◌≤◌, ◌<◌, ◌+◌, ◌*◌, ◌^◌, ◌++◌, ◌∷◌, ℤ, true, false, nat_lt, List, [], IfNone, IfOk, IfSome, not, filter, find, ◌==◌, ◌&&◌, length, flat_map, fold, map, replicate, slice_set, vec_capacity};
ghost use Rattle.std.specs.Option.{option_copied, option_map_or};
ghost use Rattle.std.specs.List.{AllByRecursion};
ghost use Rattle.std.specs.List.Sorted.{IsPermutation};
ghost use Rattle.boss_model.specs.Ends.{is_owned_by, shortened_if};
ghost use Rattle.boss_model.specs.Limits.{last_moment, most_points};
ghost use Rattle.boss_model.specs.Order.{in_order};
ghost use Rattle.boss_model.specs.Renew.{extended_if};
ghost use Rattle.boss_model.specs.Reversions.{courses, end_of};
ghost use Rattle.boss_model.specs.Sound.{Rising};
ghost use Rattle.boss_model.specs.State.{lease_slot, pending_slot};
ghost use Rattle.boss_model.specs.Submit.{cut, is_taken, superseded};
ghost use Rattle.boss_model.specs.Target.{in_force, playing};
ghost use Rattle.boss_model.specs.Time.{live, under_way};
ghost use Rattle.law_due.specs.Due.{last_of_lease, last_of_pending};
ghost use Rattle.boss_booking.specs.Gathered.{end_tellings, lease_tellings, pending_tellings, plain};
ghost use Rattle.law_due.specs.Playing.{IsEndable, IsPlayable};
ghost use Rattle.boss_slots.specs.Flags.{IsFirst};
ghost use Rattle.boss_holdings.specs.Held.{AreApart, in_slots, is_touched, shown};
ghost use Rattle.boss_holdings.specs.Putting.{IsUnderWay};

use crate::counting::count_owned;
use crate::ending::{end_owned, end_slots};
use crate::listing::{all_leases, all_pending};
use crate::passing::{first_moment, pass_to};
use crate::putting::put_reversions;
use crate::taking::{clear_slots, put_leases};
use boss_booking::Telling;
use boss_model::{Cause, Lease, NoMemory, Pending, PointId, Priority, ProcId, Txn};
use boss_slots::{
    Flags, Place, Tables, empty_tables, extend_slot, force_on, lease_in, pending_in, playing_on,
};
use std::alloc::Global;
use std::marker::Model;
use std::mem;

/// How many leases, reversions and timers there is room for.
#[derive(Clone, Copy, Debug, PartialEq, Eq)]
pub struct Places {
    pub leases: u32,
    pub reversions: u32,
    pub timers: u32,
}

/// Live leases and reversions under way, by slot. A contract sees them as the two lists of the definitions, in order of
/// slots, with the moment of the last change in milliseconds and a flag for each point that was touched. Of the calls only
/// those that say so take memory.
#[derive(Drop)]
pub struct Holdings {
    moment: u64,
    tables: Tables,
    touched: Flags,
    /// Room for the leases of a submit, while there is none.
    room: Vec<Lease>,
}

impl Model for Holdings {
    ghost use Rattle.std.specs.Prelude.{length};
    ghost use Rattle.boss_holdings.specs.Held.{Held, IsHeld};
    ghost use Rattle.boss_slots.specs.Slots.{all};
    ghost use Rattle.boss_slots.specs.Tables.{lease_at, pending_at};

    ghost Value = { Held };

    ghost view = { λ h. record {
      now = h.moment;
      points = length h.tables.arrays.items;
      leases = all (lease_at h.tables) (length h.tables.arrays.items);
      pending = all (pending_at h.tables) (length h.tables.arrays.items);
      touched = h.touched;
    } };

    ghost invariant = { λ h. IsHeld h.moment h.tables h.touched };
}

impl Holdings {
    /// Nothing held on so many points, at moment 0, with room for sixteen leases and sixteen reversions a point; `NoMemory`
    /// where there is no memory for so many.
    pub fn first(alloc: Global, points: u32) -> Result<Holdings, NoMemory>
        requires { points ≤ most_points }
        ensures { IfOk result (λ holdings. holdings ≡ record { now = 0; points = points; leases = []; pending = []; touched = replicate points false }) }
    {
        let tables = empty_tables(alloc, points)?;
        let touched = Flags::new(alloc, points)?;
        Ok(Holdings {
            moment: 0,
            tables,
            touched,
            room: Vec::new(alloc),
        })
    }

    /// What outlasted a stop, on so many points: the moment of the last change, in milliseconds, and leases and reversions in
    /// the order of their slots, of which none has both. The reversions are under way. Nothing is touched. `NoMemory` where
    /// there is no memory for sixteen leases and sixteen reversions a point.
    pub fn put_back(
        alloc: Global,
        points: u32,
        now: u64,
        mut leases: Vec<Lease>,
        pending: Vec<Pending>,
    ) -> Result<Holdings, NoMemory>
        requires points { points ≤ most_points }
        requires lease_slots { Rising lease_slot leases.items }
        requires pending_slots { Rising pending_slot pending.items }
        requires slots { Rising pending_slot (courses pending.items leases.items) }
        requires leases { AllByRecursion (λ lease. (lease.point < points) × (1 ≤ lease.priority) × (lease.priority ≤ 16)) leases.items }
        requires pending { AllByRecursion (λ reversion. (reversion.point < points) × (1 ≤ reversion.priority) × (reversion.priority ≤ 16)) pending.items }
        requires playing { AllByRecursion (IsUnderWay now) pending.items }
        ensures { IfOk result (λ holdings. holdings ≡ record { now = now; points = points; leases = leases.items; pending = pending.items; touched = replicate points false }) }
    {
        let mut tables = empty_tables(alloc, points)?;
        let touched = Flags::new(alloc, points)?;
        put_leases(&mut tables, &mut leases);
        put_reversions(&mut tables, pending, now);
        Ok(Holdings {
            moment: now,
            tables,
            touched,
            room: Vec::new(alloc),
        })
    }

    /// The lease in force on a point, if there is one.
    pub fn in_force(&self, point: PointId) -> Option<&Lease>
        requires { point < self.now.points }
        ensures { option_copied result ≡ in_force self.now.leases point }
    {
        force_on(&self.tables, point)
    }

    /// The reversion that counts on a point that has no lease, if there is one.
    pub fn playing(&self, point: PointId) -> Option<&Pending>
        requires { point < self.now.points }
        ensures { option_copied result ≡ playing self.now.pending point }
    {
        playing_on(&self.tables, point)
    }

    /// The lease in a slot, if there is one.
    pub fn lease_at(&self, point: PointId, priority: Priority) -> Option<&Lease>
        requires point { point < self.now.points }
        requires level { (1 ≤ priority) × (priority ≤ 16) }
        ensures { option_copied result ≡ find (λ lease. (lease.point == point) && (lease.priority == priority)) self.now.leases }
    {
        lease_in(&self.tables, point, priority)
    }

    /// The reversion in a slot, if there is one.
    pub fn pending_at(&self, point: PointId, priority: Priority) -> Option<&Pending>
        requires point { point < self.now.points }
        requires level { (1 ≤ priority) × (priority ≤ 16) }
        ensures { option_copied result ≡ find (λ reversion. (reversion.point == point) && (reversion.priority == priority)) self.now.pending }
    {
        pending_in(&self.tables, point, priority)
    }

    /// Time passes to `n`, in milliseconds: leases end at their moments and start their reversions then, and reversions end
    /// at theirs. What is told of it is in `told`, in no order; what was there before is gone. A point is touched where
    /// something came of one of its slots.
    pub fn tick(&mut self, n: u64, told: &mut Vec<Telling>)
        requires moment { (self.old.now ≤ n) × (n ≤ last_moment) }
        requires leases { AllByRecursion IsEndable self.old.leases }
        requires pending { AllByRecursion IsPlayable self.old.pending }
        requires started { AllByRecursion (λ reversion. reversion.start ≤ self.old.now) self.old.pending }
        requires room { 2 * length self.old.leases + length self.old.pending ≤ vec_capacity told.old }
        ensures leases { self.new.leases ≡ live n self.old.leases }
        ensures pending { self.new.pending ≡ under_way n (courses self.old.pending self.old.leases) }
        ensures now { self.new.now ≡ fold (last_of_pending n) (fold (last_of_lease n) self.old.now self.old.leases) self.old.pending }
        ensures told { IsPermutation (flat_map (lease_tellings n) self.old.leases ++ flat_map (pending_tellings n) self.old.pending) told.new.items }
        ensures room { vec_capacity told.new ≡ vec_capacity told.old }
        ensures points { self.new.points ≡ self.old.points }
        ensures touched { (point : ℕ) → is_touched self.old point ≡ true → is_touched self.new point ≡ true }
        ensures untouched { (default : ℤ) (point moment : ℕ) → is_touched self.new point ≡ false → self.old.now ≤ moment → moment ≤ n →
            shown default moment self.new point ≡ shown default self.old.now self.old point }
    {
        told.clear();
        self.moment = pass_to(&mut self.tables, &mut self.touched, self.moment, n, told);
    }

    /// A moment before which nothing is due, in milliseconds: no lease ends, and no step of a reversion.
    pub fn first_due(&self) -> u64
        requires leases { AllByRecursion IsEndable self.now.leases }
        requires pending { AllByRecursion IsPlayable self.now.pending }
        requires started { AllByRecursion (λ reversion. reversion.start ≤ self.now.now) self.now.pending }
        ensures { (n : ℕ) → self.now.now ≤ n → n < result → fold (last_of_pending n) (fold (last_of_lease n) self.now.now self.now.leases) self.now.pending ≡ self.now.now }
    {
        first_moment(&self.tables.timers)
    }

    /// New leases of the transaction `by` take their slots at `n`, in milliseconds, up to which nothing more is due. What stood
    /// there goes out without a reversion, and is told in `told`, in no order; what was there before is gone. Their points are
    /// touched.
    pub fn take(&mut self, mut new: Vec<Lease>, by: Txn, n: u64, told: &mut Vec<Telling>)
        requires moment { self.old.now ≤ n }
        requires slots { AllByRecursion (λ lease. (lease.point < self.old.points) × (1 ≤ lease.priority) × (lease.priority ≤ 16)) new.items }
        requires apart { AreApart new.items }
        requires room { length self.old.leases + length self.old.pending ≤ vec_capacity told.old }
        ensures leases { self.new.leases ≡ in_order lease_slot (filter (λ lease. not (is_taken new.items lease.point lease.priority)) self.old.leases ++ new.items) }
        ensures pending { self.new.pending ≡ filter (λ reversion. not (is_taken new.items reversion.point reversion.priority)) self.old.pending }
        ensures now { self.new.now ≡ n }
        ensures told { IsPermutation (map plain (
            map (superseded by n) (filter (λ lease. is_taken new.items lease.point lease.priority) self.old.leases)
            ++ map (cut by n) (filter (λ reversion. is_taken new.items reversion.point reversion.priority) self.old.pending))) told.new.items }
        ensures room { vec_capacity told.new ≡ vec_capacity told.old }
        ensures points { self.new.points ≡ self.old.points }
        ensures touched { (point : ℕ) → is_touched self.old point ≡ true → is_touched self.new point ≡ true }
        ensures untouched { (default : ℤ) (point moment : ℕ) → is_touched self.new point ≡ false → shown default moment self.new point ≡ shown default moment self.old point }
    {
        told.clear();
        clear_slots(&mut self.tables, &mut self.touched, &new, by, n, told);
        put_leases(&mut self.tables, &mut new);
        self.room = new;
        self.moment = n;
    }

    /// An empty list with room for so many leases: the one that `take` emptied last, which takes memory only where it has too
    /// little room.
    pub fn room_for(&mut self, alloc: Global, count: usize) -> Result<Vec<Lease>, NoMemory>
        ensures same { self.new ≡ self.old }
        ensures empty { IfOk result (λ room. room.items ≡ []) }
        ensures room { IfOk result (λ room. count ≤ vec_capacity room) }
    {
        let mut room = mem::replace(&mut self.room, Vec::new(alloc));
        room.clear();
        room.reserve(count)?;
        Ok(room)
    }

    /// The leases in some slots end at `n`, in milliseconds, up to which nothing more is due, and start their reversions then.
    /// What is told of it comes to `told`, in no order. Their points are touched.
    pub fn end_at(&mut self, slots: &[Place], cause: &Cause, n: u64, told: &mut Vec<Telling>)
        requires moment { (self.old.now ≤ n) × (n ≤ last_moment) }
        requires slots { AllByRecursion (λ slot. (slot.point < self.old.points) × (1 ≤ slot.priority) × (slot.priority ≤ 16)) slots.now }
        requires leases { AllByRecursion IsEndable self.old.leases }
        requires live { AllByRecursion (λ lease. n < lease.until) self.old.leases }
        requires started { AllByRecursion (λ reversion. reversion.start ≤ n) self.old.pending }
        requires running { AllByRecursion (λ reversion. n < end_of reversion) self.old.pending }
        requires room { length told.old.items + length self.old.leases ≤ vec_capacity told.old }
        ensures leases { self.new.leases ≡ live n (map (shortened_if (in_slots slots.now) n) self.old.leases) }
        ensures pending { self.new.pending ≡ under_way n (courses self.old.pending (map (shortened_if (in_slots slots.now) n) self.old.leases)) }
        ensures now { self.new.now ≡ n }
        ensures told { IsPermutation (told.old.items ++ end_tellings (in_slots slots.now) cause.now n self.old.leases) told.new.items }
        ensures room { vec_capacity told.new ≡ vec_capacity told.old }
        ensures points { self.new.points ≡ self.old.points }
        ensures touched { (point : ℕ) → is_touched self.old point ≡ true → is_touched self.new point ≡ true }
        ensures untouched { (default : ℤ) (point moment : ℕ) → is_touched self.new point ≡ false → shown default moment self.new point ≡ shown default moment self.old point }
    {
        end_slots(&mut self.tables, &mut self.touched, slots, cause, n, told);
        self.moment = n;
    }

    /// All leases of a process end at `n`, in milliseconds, up to which nothing more is due, and start their reversions then.
    /// What is told of it comes to `told`, in no order. Their points are touched. It goes through all leases once.
    pub fn end_owned(&mut self, owner: ProcId, cause: &Cause, n: u64, told: &mut Vec<Telling>)
        requires moment { (self.old.now ≤ n) × (n ≤ last_moment) }
        requires leases { AllByRecursion IsEndable self.old.leases }
        requires live { AllByRecursion (λ lease. n < lease.until) self.old.leases }
        requires started { AllByRecursion (λ reversion. reversion.start ≤ n) self.old.pending }
        requires running { AllByRecursion (λ reversion. n < end_of reversion) self.old.pending }
        requires room { length told.old.items + length self.old.leases ≤ vec_capacity told.old }
        ensures leases { self.new.leases ≡ live n (map (shortened_if (is_owned_by owner) n) self.old.leases) }
        ensures pending { self.new.pending ≡ under_way n (courses self.old.pending (map (shortened_if (is_owned_by owner) n) self.old.leases)) }
        ensures now { self.new.now ≡ n }
        ensures told { IsPermutation (told.old.items ++ end_tellings (is_owned_by owner) cause.now n self.old.leases) told.new.items }
        ensures room { vec_capacity told.new ≡ vec_capacity told.old }
        ensures points { self.new.points ≡ self.old.points }
        ensures touched { (point : ℕ) → is_touched self.old point ≡ true → is_touched self.new point ≡ true }
        ensures untouched { (default : ℤ) (point moment : ℕ) → is_touched self.new point ≡ false → shown default moment self.new point ≡ shown default moment self.old point }
    {
        end_owned(&mut self.tables, &mut self.touched, owner, cause, n, told);
        self.moment = n;
    }

    /// The lease in a slot, if there is one, ends no sooner than at `until`, in milliseconds. Gives whether it got longer.
    pub fn extend(&mut self, slot: Place, until: u64) -> bool
        requires slot { (slot.point < self.old.points) × (1 ≤ slot.priority) × (slot.priority ≤ 16) }
        ensures leases { self.new.leases ≡ map (extended_if (in_slots (slot ∷ [])) until) self.old.leases }
        ensures pending { self.new.pending ≡ self.old.pending }
        ensures now { self.new.now ≡ self.old.now }
        ensures points { self.new.points ≡ self.old.points }
        ensures touched { self.new.touched ≡ self.old.touched }
        ensures longer { result ≡ option_map_or (λ lease. nat_lt lease.until until) (find (λ lease. (lease.point == slot.point) && (lease.priority == slot.priority)) self.old.leases) false }
    {
        extend_slot(&mut self.tables, slot.point, slot.priority, until)
    }

    /// The moment of the last change becomes `n`, in milliseconds.
    pub fn reach(&mut self, n: u64)
        requires moment { self.old.now ≤ n }
        ensures { self.new ≡ record self.old { now = n } }
    {
        self.moment = n;
    }

    /// The moment of the last change, in milliseconds.
    pub fn now(&self) -> u64
        ensures { result ≡ self.now.now }
    {
        self.moment
    }

    /// Both lists, copied: all leases and all reversions, in the order of their slots.
    pub fn lists(&self, alloc: Global) -> Result<(Vec<Lease>, Vec<Pending>), NoMemory>
        ensures leases { IfOk result (λ lists. lists.0.items ≡ self.now.leases) }
        ensures pending { IfOk result (λ lists. lists.1.items ≡ self.now.pending) }
    {
        let leases = all_leases(alloc, &self.tables)?;
        let pending = all_pending(alloc, &self.tables)?;
        Ok((leases, pending))
    }

    /// How many points there are.
    pub fn points(&self) -> u32
        ensures { result ≡ self.now.points }
    {
        self.tables.arrays.len() as u32
    }

    /// What there is room for, which no call changes: a lease and a reversion in each of the sixteen slots of a point, and a timer
    /// for either.
    pub fn places(&self) -> Places
        ensures leases { result.leases ≡ 16 * self.now.points }
        ensures reversions { result.reversions ≡ 16 * self.now.points }
        ensures timers { result.timers ≡ 32 * self.now.points }
    {
        Places {
            leases: self.tables.leases.keys(),
            reversions: self.tables.pending.len() as u32,
            timers: self.tables.timers.capacity(),
        }
    }

    /// How many leases are live.
    pub fn leases(&self) -> u32
        ensures count { result ≡ length self.now.leases }
        ensures few { length self.now.leases + length self.now.pending ≤ 16 * self.now.points }
    {
        self.tables.live
    }

    /// How many leases a process has. It looks into each slot once.
    pub fn owned(&self, owner: ProcId) -> u32
        ensures { result ≡ length (filter (is_owned_by owner) self.now.leases) }
    {
        count_owned(&self.tables, owner)
    }

    /// How many reversions are under way.
    pub fn pending(&self) -> u32
        ensures { result ≡ length self.now.pending }
    {
        self.tables.under_way
    }

    /// Whether no point is touched.
    pub fn is_settled(&self) -> bool
        ensures settled { result ≡ true → (point : ℕ) → is_touched self.now point ≡ false }
        ensures touched { result ≡ false → (point : ℕ) × (is_touched self.now point ≡ true) }
    {
        self.touched.are_clear()
    }

    /// Takes the first touched point, which is touched no more then.
    pub fn take_touched(&mut self) -> Option<PointId>
        ensures first { IfSome result (λ point. IsFirst self.old.touched point) }
        ensures within { IfSome result (λ point. point < self.old.points) }
        ensures untouched { IfSome result (λ point. self.new ≡ record self.old { touched = slice_set self.old.touched point false }) }
        ensures none { IfNone result ((point : ℕ) → is_touched self.old point ≡ false) }
        ensures same { IfNone result (self.new ≡ self.old) }
    {
        self.touched.take_first()
    }
}
