ghost use Rattle.std.specs.Prelude.{◌≡◌, ℕ, suc, ◌+◌, ◌*◌, ◌<◌, ◌≤◌, ◌^◌, IfNone, IfSome, Some, length, slice_set};
ghost use Rattle.boss_timers.specs.Heap.{IsExchanged, IsHeap, IsHole, IsIndexed, IsRising, IsSinking, doubled, entries_of, entry_at, times, weight_at};

use crate::Steps;
use crate::entry::{Entry, comes_first};
use crate::place::Place;
use std::sync::ledger::Ledger;

/// The timer at a place of the heap.
pub fn entry_at(moments: &[u64], slots: &[u32], place: usize) -> Entry
    requires place { place < length moments.now }
    requires pairs { length slots.now ≡ length moments.now }
    ensures { result ≡ entry_at (entries_of moments.now slots.now) place }
{
    Entry {
        moment: moments[place],
        slot: slots[place],
    }
}

/// The timer takes this place of the heap, and its slot leads there.
pub fn put(moments: &mut [u64], slots: &mut [u32], places: &mut [Place], place: usize, entry: Entry)
    requires place { place < length moments.old }
    requires pairs { length slots.old ≡ length moments.old }
    requires slot { entry.slot < length places.old }
    requires few { place + 1 < 2 ^ 32 }
    ensures entries { entries_of moments.new slots.new ≡ slice_set (entries_of moments.old slots.old) place entry }
    ensures places { places.new ≡ slice_set places.old entry.slot (Some place) }
{
    moments[place] = entry.moment;
    slots[place] = entry.slot;
    places[entry.slot as usize] = Place::at(place as u32);
}

/// Two timers change their places in the heap.
fn exchange(
    moments: &mut [u64],
    slots: &mut [u32],
    places: &mut [Place],
    upper: usize,
    lower: usize,
)
    requires order { upper < lower }
    requires within { lower < length moments.old }
    requires pairs { length slots.old ≡ length moments.old }
    requires indexed { IsIndexed (entries_of moments.old slots.old) places.old }
    ensures indexed { IsIndexed (entries_of moments.new slots.new) places.new }
    ensures same { times (entries_of moments.new slots.new) places.new ≡ times (entries_of moments.old slots.old) places.old }
    ensures exchanged { IsExchanged (entries_of moments.old slots.old) (entries_of moments.new slots.new) upper lower }
{
    let above = entry_at(moments, slots, upper);
    let below = entry_at(moments, slots, lower);
    put(moments, slots, places, upper, below);
    put(moments, slots, places, lower, above);
}

/// Moves a timer up as long as it goes off before the one above it.
pub fn rise<L: Ledger>(
    moments: &mut [u64],
    slots: &mut [u32],
    places: &mut [Place],
    at: usize,
    steps: &mut Steps<L>,
)
    requires within { at < length moments.old }
    requires pairs { length slots.old ≡ length moments.old }
    requires indexed { IsIndexed (entries_of moments.old slots.old) places.old }
    requires rising { IsRising (length moments.old) (weight_at (entries_of moments.old slots.old)) at }
    ensures heap { IsHeap (length moments.new) (weight_at (entries_of moments.new slots.new)) }
    ensures indexed { IsIndexed (entries_of moments.new slots.new) places.new }
    ensures same { times (entries_of moments.new slots.new) places.new ≡ times (entries_of moments.old slots.old) places.old }
    ensures cost { (d : ℕ) → at < 2 ^ d → steps.new ≤ steps.old + d }
{
    if at == 0 {
        return;
    }
    let above = (at - 1) / 2;
    if comes_first(
        entry_at(moments, slots, at),
        entry_at(moments, slots, above),
        steps,
    ) {
        exchange(moments, slots, places, above, at);
        rise(moments, slots, places, above, steps);
    }
}

/// Moves a timer down as long as one of the two below it goes off before it.
fn sink<L: Ledger>(
    moments: &mut [u64],
    slots: &mut [u32],
    places: &mut [Place],
    at: usize,
    steps: &mut Steps<L>,
)
    requires within { at < length moments.old }
    requires pairs { length slots.old ≡ length moments.old }
    requires indexed { IsIndexed (entries_of moments.old slots.old) places.old }
    requires sinking { IsSinking (length moments.old) (weight_at (entries_of moments.old slots.old)) at }
    ensures heap { IsHeap (length moments.new) (weight_at (entries_of moments.new slots.new)) }
    ensures indexed { IsIndexed (entries_of moments.new slots.new) places.new }
    ensures same { times (entries_of moments.new slots.new) places.new ≡ times (entries_of moments.old slots.old) places.old }
    ensures cost { (e : ℕ) → length moments.old < doubled (at + 1) (suc e) → steps.new ≤ steps.old + 2 * e }
{
    let entry = entry_at(moments, slots, at);
    let end = make_way(moments, slots, places, at, entry, steps);
    put(moments, slots, places, end, entry);
}

/// The timer at `lower` moves up to the free place `upper`, and its own place is free. `held` is out of the heap meanwhile.
fn lift(
    moments: &mut [u64],
    slots: &mut [u32],
    places: &mut [Place],
    upper: usize,
    lower: usize,
    held: Entry,
)
    requires order { upper < lower }
    requires within { lower < length moments.old }
    requires pairs { length slots.old ≡ length moments.old }
    requires indexed { IsIndexed (slice_set (entries_of moments.old slots.old) upper held) (slice_set places.old held.slot (Some upper)) }
    ensures indexed { IsIndexed (slice_set (entries_of moments.new slots.new) lower held) (slice_set places.new held.slot (Some lower)) }
    ensures same { times (slice_set (entries_of moments.new slots.new) lower held) (slice_set places.new held.slot (Some lower))
        ≡ times (slice_set (entries_of moments.old slots.old) upper held) (slice_set places.old held.slot (Some upper)) }
    ensures exchanged { IsExchanged (slice_set (entries_of moments.old slots.old) upper held) (slice_set (entries_of moments.new slots.new) lower held) upper lower }
{
    let below = entry_at(moments, slots, lower);
    put(moments, slots, places, upper, below);
}

/// Timers that go off before one that is held out of the heap move up, from the free place `at` downward. Gives the place
/// that is free then, where that timer belongs.
fn make_way<L: Ledger>(
    moments: &mut [u64],
    slots: &mut [u32],
    places: &mut [Place],
    at: usize,
    held: Entry,
    steps: &mut Steps<L>,
) -> usize
    requires within { at < length moments.old }
    requires pairs { length slots.old ≡ length moments.old }
    requires indexed { IsIndexed (slice_set (entries_of moments.old slots.old) at held) (slice_set places.old held.slot (Some at)) }
    requires sinking { IsSinking (length moments.old) (weight_at (slice_set (entries_of moments.old slots.old) at held)) at }
    ensures within { result < length moments.new }
    ensures heap { IsHeap (length moments.new) (weight_at (slice_set (entries_of moments.new slots.new) result held)) }
    ensures indexed { IsIndexed (slice_set (entries_of moments.new slots.new) result held) (slice_set places.new held.slot (Some result)) }
    ensures same { times (slice_set (entries_of moments.new slots.new) result held) (slice_set places.new held.slot (Some result))
        ≡ times (slice_set (entries_of moments.old slots.old) at held) (slice_set places.old held.slot (Some at)) }
    ensures cost { (e : ℕ) → length moments.old < doubled (at + 1) (suc e) → steps.new ≤ steps.old + 2 * e }
{
    let Some(least) = least_below(moments, slots, at, steps) else {
        return at;
    };
    if comes_first(entry_at(moments, slots, least), held, steps) {
        lift(moments, slots, places, at, least, held);
        return make_way(moments, slots, places, least, held, steps);
    }
    at
}

/// Of the two timers below a place the one that goes off first; none where none stands there. Mostly two do, so that is asked
/// first.
fn least_below<L: Ledger>(
    moments: &[u64],
    slots: &[u32],
    at: usize,
    steps: &mut Steps<L>,
) -> Option<usize>
    requires within { at < length moments.now }
    requires pairs { length slots.now ≡ length moments.now }
    ensures none { IfNone result ((length moments.now ≤ 2 * at + 1) × (steps.new ≡ steps.old)) }
    ensures within { IfSome result (λ least. least < length moments.now) }
    ensures below { IfSome result (λ least. (2 * at < least) × (least ≤ 2 * at + 2)) }
    ensures least { IfSome result (λ least. (below : ℕ) → 2 * at < below → below ≤ 2 * at + 2 → below < length moments.now →
        weight_at (entries_of moments.now slots.now) least ≤ weight_at (entries_of moments.now slots.now) below) }
    ensures cost { steps.new ≤ steps.old + 1 }
{
    let left = 2 * at + 1;
    let right = left + 1;
    if right < moments.len() {
        if comes_first(
            entry_at(moments, slots, right),
            entry_at(moments, slots, left),
            steps,
        ) {
            return Some(right);
        }
        return Some(left);
    }
    if left < moments.len() {
        Some(left)
    } else {
        None
    }
}

/// Moves a timer to where it belongs, up or down.
pub fn mend<L: Ledger>(
    moments: &mut [u64],
    slots: &mut [u32],
    places: &mut [Place],
    at: usize,
    steps: &mut Steps<L>,
)
    requires within { at < length moments.old }
    requires pairs { length slots.old ≡ length moments.old }
    requires indexed { IsIndexed (entries_of moments.old slots.old) places.old }
    requires hole { IsHole (length moments.old) (weight_at (entries_of moments.old slots.old)) at }
    ensures heap { IsHeap (length moments.new) (weight_at (entries_of moments.new slots.new)) }
    ensures indexed { IsIndexed (entries_of moments.new slots.new) places.new }
    ensures same { times (entries_of moments.new slots.new) places.new ≡ times (entries_of moments.old slots.old) places.old }
    ensures cost { (d : ℕ) → length moments.old < 2 ^ d → steps.new ≤ steps.old + 2 * d }
{
    if at == 0 {
        return sink(moments, slots, places, at, steps);
    }
    let above = (at - 1) / 2;
    if comes_first(
        entry_at(moments, slots, at),
        entry_at(moments, slots, above),
        steps,
    ) {
        exchange(moments, slots, places, above, at);
        rise(moments, slots, places, above, steps);
    } else {
        sink(moments, slots, places, at, steps);
    }
}
