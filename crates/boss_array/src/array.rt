ghost use Rattle.std.specs.Prelude.{◌≡◌, ◌≤◌, ◌<◌, ◌+◌, ◌-◌, None, Some, length, replicate, slice_index_or, slice_set};
ghost use Rattle.boss_array.specs.Array.{first_lease, first_pending};

use boss_model::Priority;
use std::marker::Model;

/// What stands in a slot.
#[derive(Clone, Copy, Debug, PartialEq, Eq)]
pub enum Entry {
    /// A live lease, by its key.
    Lease(u32),
    /// A reversion under way, by its key.
    Pending(u32),
}

/// The sixteen slots of a point, one for each priority level from 1, the highest, to 16. A contract sees them as a list,
/// the slot of level 1 first. (Priority_Array of ASHRAE 135, clause 19.2; here a slot has a lease or a reversion in place
/// of a value.)
#[derive(Debug, Drop)]
pub struct Array {
    slots: [Option<Entry>; 16],
}

impl Model for Array {
    ghost use Rattle.std.specs.Prelude.{List, Option};
    ghost use Rattle.boss_array.specs.declared.array.Entry.{Entry};

    ghost Value = { List (Option Entry) };

    ghost view = { λ array. array.slots };
}

impl Array {
    /// Sixteen slots with nothing in them.
    pub fn new() -> Array
        ensures { result ≡ replicate 16 None }
    {
        Array { slots: [None; 16] }
    }

    /// The entry takes the slot of this level, which is 1 to 16. What stood there is gone.
    pub fn put(&mut self, priority: Priority, entry: Entry)
        requires { (1 ≤ priority) × (priority ≤ 16) }
        ensures slots { self.new ≡ slice_set self.old (priority - 1) (Some entry) }
        ensures size { length self.new ≡ 16 }
    {
        self.slots[place_of(priority)] = Some(entry);
    }

    /// Empties the slot of this level, which is 1 to 16, and gives what stood there.
    pub fn clear(&mut self, priority: Priority) -> Option<Entry>
        requires { (1 ≤ priority) × (priority ≤ 16) }
        ensures taken { result ≡ slice_index_or self.old (priority - 1) None }
        ensures slots { self.new ≡ slice_set self.old (priority - 1) None }
        ensures size { length self.new ≡ 16 }
    {
        let place = place_of(priority);
        let entry = self.slots[place];
        self.slots[place] = None;
        entry
    }

    /// What stands in the slot of this level, which is 1 to 16.
    pub fn at(&self, priority: Priority) -> Option<Entry>
        requires { (1 ≤ priority) × (priority ≤ 16) }
        ensures found { result ≡ slice_index_or self.now (priority - 1) None }
        ensures size { length self.now ≡ 16 }
    {
        self.slots[place_of(priority)]
    }

    /// The highest level whose slot has a lease, and the lease's key.
    pub fn top_live(&self) -> Option<(Priority, u32)>
        ensures found { result ≡ first_lease 1 self.now }
        ensures size { length self.now ≡ 16 }
    {
        highest_lease(&self.slots)
    }

    /// The highest level whose slot has a reversion, and the reversion's key.
    pub fn top_pending(&self) -> Option<(Priority, u32)>
        ensures found { result ≡ first_pending 1 self.now }
        ensures size { length self.now ≡ 16 }
    {
        highest_pending(&self.slots)
    }
}

/// The place of a level's slot, from 0.
fn place_of(priority: Priority) -> usize
    requires { 1 ≤ priority }
    ensures { result ≡ priority - 1 }
{
    priority.0 as usize - 1
}

/// The level of the slot at this place.
fn level_at(place: usize) -> Priority
    requires { place < 16 }
    ensures { result ≡ place + 1 }
{
    Priority(place as u8 + 1)
}

fn highest_lease(slots: &[Option<Entry>]) -> Option<(Priority, u32)>
    requires { length slots.now ≤ 16 }
    ensures { result ≡ first_lease 1 slots.now }
{
    for (place, slot) in slots.iter().enumerate() {
        if let Some(Entry::Lease(key)) = slot {
            return Some((level_at(place), *key));
        }
    }
    None
}

fn highest_pending(slots: &[Option<Entry>]) -> Option<(Priority, u32)>
    requires { length slots.now ≤ 16 }
    ensures { result ≡ first_pending 1 slots.now }
{
    for (place, slot) in slots.iter().enumerate() {
        if let Some(Entry::Pending(key)) = slot {
            return Some((level_at(place), *key));
        }
    }
    None
}
