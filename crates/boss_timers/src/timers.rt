ghost use Rattle.std.specs.Prelude.{◌≡◌, ◌≢◌, ℕ, ◌+◌, ◌*◌, ◌-◌, ◌<◌, ◌≤◌, ◌^◌, IfNone, IfOk, IfSome, None, Some, length, replicate, slice_index_or, slice_set, take, vec_capacity};
ghost use Rattle.boss_timers.specs.Heap.{IsIndexed, entries_of, entry_at, place_of, times};
ghost use Rattle.boss_timers.specs.Timers.{IsFirst, IsLaid};

use crate::Steps;
use crate::entry::Entry;
use crate::heap::{entry_at, mend, put, rise};
use crate::place::Place;
use boss_model::NoMemory;
use std::alloc::Global;
use std::marker::Model;
use std::sync::ledger::Ledger;

/// Timers by slot: each slot below the capacity has one, or none. A contract sees them as a list of options of moments, one
/// place for each slot. Of the calls only `new` takes memory.
#[derive(Drop)]
pub struct Timers {
    /// When the timers that are set go off: a heap, the first of them at its top. They stand apart from the slots, so that a
    /// way through the heap reads moments that lie together.
    moments: Vec<u64>,
    /// The slot of each of them.
    slots: Vec<u32>,
    /// Where the heap has the timer of each slot.
    places: Vec<Place>,
}

impl Model for Timers {
    ghost use Rattle.std.specs.Prelude.{List, Option, ℕ, vec_capacity};
    ghost use Rattle.boss_timers.specs.Heap.{entries_of, times};
    ghost use Rattle.boss_timers.specs.Timers.{IsLaid};

    ghost Value = { List (Option ℕ) };

    ghost view = { λ t. times (entries_of t.moments.items t.slots.items) t.places.items };

    ghost invariant = { λ t. IsLaid t.moments.items t.slots.items t.places.items (vec_capacity t.moments) (vec_capacity t.slots) };
}

impl Timers {
    /// Slots below `capacity`, and no timer set; `NoMemory` where there is no memory for so many.
    pub fn new(alloc: Global, capacity: u32) -> Result<Timers, NoMemory>
        ensures { IfOk result (λ timers. timers ≡ replicate capacity None) }
    {
        Ok(Timers {
            moments: Vec::with_capacity(alloc, capacity as usize)?,
            slots: Vec::with_capacity(alloc, capacity as usize)?,
            places: vec![in alloc; Place::nowhere(); capacity as usize]?,
        })
    }

    /// The timer of this slot, which is below the capacity, goes off at `moment`, in milliseconds, and at no other.
    pub fn set<L: Ledger>(&mut self, slot: u32, moment: u64, steps: &mut Steps<L>)
        requires { slot < length self.old }
        ensures set { self.new ≡ slice_set self.old slot (Some moment) }
        ensures cost { (d : ℕ) → length self.old < 2 ^ d → steps.new ≤ steps.old + 2 * d }
    {
        let entry = Entry { moment, slot };
        match self.places[slot as usize].get() {
            Some(place) => change(
                &mut self.moments,
                &mut self.slots,
                &mut self.places,
                place as usize,
                entry,
                steps,
            ),
            None => insert(
                &mut self.moments,
                &mut self.slots,
                &mut self.places,
                entry,
                steps,
            ),
        }
    }

    /// The slot, which is below the capacity, has no timer any more, if it had one.
    pub fn remove<L: Ledger>(&mut self, slot: u32, steps: &mut Steps<L>)
        requires { slot < length self.old }
        ensures removed { self.new ≡ slice_set self.old slot None }
        ensures cost { (d : ℕ) → length self.old < 2 ^ d → steps.new ≤ steps.old + 2 * d }
    {
        if let Some(place) = self.places[slot as usize].get() {
            take_out(
                &mut self.moments,
                &mut self.slots,
                &mut self.places,
                place as usize,
                steps,
            );
        }
    }

    /// How many slots there are, which no call changes.
    pub fn capacity(&self) -> u32
        ensures { result ≡ length self.now }
    {
        self.places.len() as u32
    }

    /// The timer that goes off first: its slot and its moment, in milliseconds. Of those that go off at once it is the one
    /// of the least slot.
    pub fn first(&self) -> Option<(u32, u64)>
        ensures some { IfSome result (λ found. IsFirst self.now found.0 found.1) }
        ensures none { IfNone result ((slot : ℕ) → slice_index_or self.now slot None ≡ None) }
    {
        let moment = *self.moments.first()?;
        Some((self.slots[0], moment))
    }
}

/// A timer at this place of the heap gets another moment.
fn change<L: Ledger>(
    moments: &mut Vec<u64>,
    slots: &mut Vec<u32>,
    places: &mut Vec<Place>,
    place: usize,
    entry: Entry,
    steps: &mut Steps<L>,
)
    requires laid { IsLaid moments.old.items slots.old.items places.old.items (vec_capacity moments.old) (vec_capacity slots.old) }
    requires leads { place_of places.old.items entry.slot ≡ Some place }
    ensures laid { IsLaid moments.new.items slots.new.items places.new.items (vec_capacity moments.new) (vec_capacity slots.new) }
    ensures set { times (entries_of moments.new.items slots.new.items) places.new.items
        ≡ slice_set (times (entries_of moments.old.items slots.old.items) places.old.items) entry.slot (Some entry.moment) }
    ensures cost { (d : ℕ) → length places.old.items < 2 ^ d → steps.new ≤ steps.old + 2 * d }
{
    moments[place] = entry.moment;
    mend(moments, slots, places, place, steps);
}

/// A timer of a slot that had none.
fn insert<L: Ledger>(
    moments: &mut Vec<u64>,
    slots: &mut Vec<u32>,
    places: &mut Vec<Place>,
    entry: Entry,
    steps: &mut Steps<L>,
)
    requires laid { IsLaid moments.old.items slots.old.items places.old.items (vec_capacity moments.old) (vec_capacity slots.old) }
    requires within { entry.slot < length places.old.items }
    requires none { place_of places.old.items entry.slot ≡ None }
    ensures laid { IsLaid moments.new.items slots.new.items places.new.items (vec_capacity moments.new) (vec_capacity slots.new) }
    ensures set { times (entries_of moments.new.items slots.new.items) places.new.items
        ≡ slice_set (times (entries_of moments.old.items slots.old.items) places.old.items) entry.slot (Some entry.moment) }
    ensures cost { (d : ℕ) → length places.old.items < 2 ^ d → steps.new ≤ steps.old + 2 * d }
{
    let place = moments.len();
    moments.push_reserved(entry.moment);
    slots.push_reserved(entry.slot);
    places[entry.slot as usize] = Place::at(place as u32);
    rise(moments, slots, places, place, steps);
}

/// The timer at this place of the heap goes.
fn take_out<L: Ledger>(
    moments: &mut Vec<u64>,
    slots: &mut Vec<u32>,
    places: &mut Vec<Place>,
    place: usize,
    steps: &mut Steps<L>,
)
    requires laid { IsLaid moments.old.items slots.old.items places.old.items (vec_capacity moments.old) (vec_capacity slots.old) }
    requires within { place < length moments.old.items }
    ensures laid { IsLaid moments.new.items slots.new.items places.new.items (vec_capacity moments.new) (vec_capacity slots.new) }
    ensures removed { times (entries_of moments.new.items slots.new.items) places.new.items
        ≡ slice_set (times (entries_of moments.old.items slots.old.items) places.old.items) (entry_at (entries_of moments.old.items slots.old.items) place).slot None }
    ensures cost { (d : ℕ) → length places.old.items < 2 ^ d → steps.new ≤ steps.old + 2 * d }
{
    drop_at(moments, slots, places, place);
    if place < moments.len() {
        mend(moments, slots, places, place, steps);
    }
}

/// The timer at this place of the heap goes, and the last one takes its place.
fn drop_at(moments: &mut Vec<u64>, slots: &mut Vec<u32>, places: &mut Vec<Place>, place: usize)
    requires pairs { length slots.old.items ≡ length moments.old.items }
    requires indexed { IsIndexed (entries_of moments.old.items slots.old.items) places.old.items }
    requires within { place < length moments.old.items }
    ensures fewer { length moments.new.items + 1 ≡ length moments.old.items }
    ensures pairs { length slots.new.items ≡ length moments.new.items }
    ensures others { (other : ℕ) → other < length moments.new.items → other ≢ place →
        entry_at (entries_of moments.new.items slots.new.items) other ≡ entry_at (entries_of moments.old.items slots.old.items) other }
    ensures indexed { IsIndexed (entries_of moments.new.items slots.new.items) places.new.items }
    ensures removed { times (entries_of moments.new.items slots.new.items) places.new.items
        ≡ slice_set (times (entries_of moments.old.items slots.old.items) places.old.items) (entry_at (entries_of moments.old.items slots.old.items) place).slot None }
    ensures room { (vec_capacity moments.new ≡ vec_capacity moments.old) × (vec_capacity slots.new ≡ vec_capacity slots.old) }
{
    let gone = entry_at(moments, slots, place);
    let last = pop_last(moments, slots);
    places[gone.slot as usize] = Place::nowhere();
    if place < moments.len() {
        put(moments, slots, places, place, last);
    }
}

/// Takes the last timer out of the lists of the heap; its slot still leads there.
fn pop_last(moments: &mut Vec<u64>, slots: &mut Vec<u32>) -> Entry
    requires pairs { length slots.old.items ≡ length moments.old.items }
    requires some { 0 < length moments.old.items }
    ensures last { result ≡ entry_at (entries_of moments.old.items slots.old.items) (length moments.old.items - 1) }
    ensures fewer { length moments.new.items + 1 ≡ length moments.old.items }
    ensures pairs { length slots.new.items ≡ length moments.new.items }
    ensures entries { entries_of moments.new.items slots.new.items ≡ take (length moments.old.items - 1) (entries_of moments.old.items slots.old.items) }
    ensures room { (vec_capacity moments.new ≡ vec_capacity moments.old) × (vec_capacity slots.new ≡ vec_capacity slots.old) }
{
    let moment = moments.pop().unwrap();
    let slot = slots.pop().unwrap();
    Entry { moment, slot }
}
