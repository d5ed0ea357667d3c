//! What stands in a slot, and what counts on a point.

ghost use Rattle.std.specs.Prelude.{◌≡◌, ◌≤◌, ◌<◌, [], length, slice_index_or};
ghost use Rattle.std.specs.Option.{option_copied, option_map};
ghost use Rattle.boss_array.specs.Array.{first_lease, first_pending};
ghost use Rattle.boss_model.specs.Target.{in_force, playing};
ghost use Rattle.boss_slots.specs.Slots.{all};
ghost use Rattle.boss_slots.specs.Tables.{IsKept, lease_at, pending_at};

use crate::entries::entry_at;
use crate::tables::{Tables, lease_key, pending_of};
use boss_array::{Array, Entry};
use boss_model::{Lease, Pending, PointId, Priority};

/// The lease in a slot, if there is one.
pub fn lease_in(tables: &Tables, point: PointId, priority: Priority) -> Option<&Lease>
    requires point { point < length tables.now.arrays.items }
    requires level { (1 ≤ priority) × (priority ≤ 16) }
    ensures { option_copied result ≡ lease_at tables.now point priority }
{
    let key = lease_key(tables, point, priority)?;
    tables.leases.get(key)
}

/// The reversion in a slot, if there is one.
pub fn pending_in(tables: &Tables, point: PointId, priority: Priority) -> Option<&Pending>
    requires point { point < length tables.now.arrays.items }
    requires level { (1 ≤ priority) × (priority ≤ 16) }
    ensures { option_copied result ≡ pending_at tables.now point priority }
{
    match entry_at(&tables.arrays, point, priority) {
        Some(Entry::Pending(key)) => pending_of(&tables.pending, key),
        Some(Entry::Lease(_)) => None,
        None => None,
    }
}

/// The lease in force on a point, if there is one.
pub fn force_on(tables: &Tables, point: PointId) -> Option<&Lease>
    requires kept { IsKept tables.now }
    requires point { point < length tables.now.arrays.items }
    ensures { option_copied result ≡ in_force (all (lease_at tables.now) (length tables.now.arrays.items)) point }
{
    match top_lease(&tables.arrays, point) {
        Some(key) => Some(tables.leases.at(key)),
        None => None,
    }
}

/// The key of the first lease of a point.
fn top_lease(arrays: &[Array], point: PointId) -> Option<u32>
    requires { point < length arrays.now }
    ensures found { result ≡ option_map (λ found. found.1) (first_lease 1 (slice_index_or arrays.now point [])) }
    ensures size { length (slice_index_or arrays.now point []) ≡ 16 }
{
    match arrays[point.0 as usize].top_live() {
        Some((_, key)) => Some(key),
        None => None,
    }
}

/// The reversion that counts on a point that has no lease, if there is one.
pub fn playing_on(tables: &Tables, point: PointId) -> Option<&Pending>
    requires kept { IsKept tables.now }
    requires point { point < length tables.now.arrays.items }
    ensures { option_copied result ≡ playing (all (pending_at tables.now) (length tables.now.arrays.items)) point }
{
    match top_pending(&tables.arrays, point) {
        Some(key) => pending_of(&tables.pending, key),
        None => None,
    }
}

/// The key of the first reversion of a point.
fn top_pending(arrays: &[Array], point: PointId) -> Option<u32>
    requires { point < length arrays.now }
    ensures found { result ≡ option_map (λ found. found.1) (first_pending 1 (slice_index_or arrays.now point [])) }
    ensures size { length (slice_index_or arrays.now point []) ≡ 16 }
{
    match arrays[point.0 as usize].top_pending() {
        Some((_, key)) => Some(key),
        None => None,
    }
}
