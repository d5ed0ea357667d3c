//! The priority arrays of all points.

ghost use Rattle.std.specs.Prelude.{◌≡◌, ◌≤◌, ◌<◌, ◌+◌, ◌*◌, ◌-◌, ◌^◌, None, Some, length};
ghost use Rattle.boss_slots.specs.Tables.{IsEntrySet, entry_in, number};

use boss_array::{Array, Entry};
use boss_model::{PointId, Priority};

/// The number of a slot among those of all points: sixteen a point.
pub fn number(point: PointId, priority: Priority) -> u32
    requires point { point < 2 ^ 26 }
    requires level { (1 ≤ priority) × (priority ≤ 16) }
    ensures { result ≡ number point priority }
{
    point.0 * 16 + priority.0 as u32 - 1
}

/// What stands in a slot.
pub fn entry_at(arrays: &[Array], point: PointId, priority: Priority) -> Option<Entry>
    requires point { point < length arrays.now }
    requires level { (1 ≤ priority) × (priority ≤ 16) }
    ensures { result ≡ entry_in arrays.now point priority }
{
    arrays[point.0 as usize].at(priority)
}

/// The entry takes the slot.
pub fn set_entry(arrays: &mut Vec<Array>, point: PointId, priority: Priority, entry: Entry)
    requires point { point < length arrays.old.items }
    requires level { (1 ≤ priority) × (priority ≤ 16) }
    ensures { IsEntrySet arrays.old.items arrays.new.items point priority (Some entry) }
{
    arrays[point.0 as usize].put(priority, entry);
}

/// Empties the slot.
pub fn clear_entry(arrays: &mut Vec<Array>, point: PointId, priority: Priority)
    requires point { point < length arrays.old.items }
    requires level { (1 ≤ priority) × (priority ≤ 16) }
    ensures { IsEntrySet arrays.old.items arrays.new.items point priority None }
{
    arrays[point.0 as usize].clear(priority);
}
