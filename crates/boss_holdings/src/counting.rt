//! How many leases a process has.

ghost use Rattle.std.specs.Prelude.{◌≡◌, ◌≤◌, ◌<◌, ◌+◌, ◌∷◌, [], filter, length};
ghost use Rattle.boss_model.specs.Limits.{most_points};
ghost use Rattle.std.specs.Option.{option_to_list};
ghost use Rattle.boss_model.specs.Ends.{is_owned_by};
ghost use Rattle.boss_slots.specs.Slots.{all, row};
ghost use Rattle.boss_slots.specs.Tables.{IsKept, lease_at};

use boss_model::{LEVELS, Lease, PointId, Priority, ProcId};
use boss_slots::{Tables, lease_in};

/// How many leases of all slots are the process's own.
pub fn count_owned(tables: &Tables, owner: ProcId) -> u32
    requires { length tables.now.arrays.items ≤ most_points }
    ensures { result ≡ length (filter (is_owned_by owner) (all (lease_at tables.now) (length tables.now.arrays.items))) }
{
    let mut count = 0;
    for point in 0..tables.arrays.len() {
        count += count_on(tables, PointId(point as u32), owner);
    }
    count
}

/// How many leases on a point are the process's own.
fn count_on(tables: &Tables, point: PointId, owner: ProcId) -> u32
    requires { point < length tables.now.arrays.items }
    ensures count { result ≡ length (filter (is_owned_by owner) (row (lease_at tables.now) point)) }
    ensures few { result ≤ 16 }
{
    let mut count = 0;
    for place in 0..LEVELS {
        count += count_in(tables, point, Priority(place + 1), owner);
    }
    count
}

/// How many leases in a slot are the process's own, one or none.
fn count_in(tables: &Tables, point: PointId, priority: Priority, owner: ProcId) -> u32
    requires point { point < length tables.now.arrays.items }
    requires level { (1 ≤ priority) × (priority ≤ 16) }
    ensures count { result ≡ length (filter (is_owned_by owner) (option_to_list (lease_at tables.now point priority))) }
    ensures few { result ≤ 1 }
{
    match lease_in(tables, point, priority) {
        Some(lease) => count_if_owned(lease, owner),
        None => 0,
    }
}

/// One where the lease is the process's own, else none.
fn count_if_owned(lease: &Lease, owner: ProcId) -> u32
    ensures { result ≡ length (filter (is_owned_by owner) (lease.now ∷ [])) }
{
    if lease.owner == owner { 1 } else { 0 }
}
