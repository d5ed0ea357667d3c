//! Leases that get longer.

ghost use Rattle.std.specs.Prelude.{◌≡◌, ℕ, ◌≤◌, ◌<◌, false, nat_lt, length};
ghost use Rattle.std.specs.Option.{option_map, option_map_or};
ghost use Rattle.boss_model.specs.declared.state.Lease.{Lease};
ghost use Rattle.boss_model.specs.Renew.{extended};
ghost use Rattle.boss_slots.specs.Tables.{IsKept, IsTimed, lease_at, pending_at};

use crate::tables::{Tables, extend_lease, lease_key};
use boss_model::{PointId, Priority};

/// The lease in a slot, if there is one, ends no sooner than at `until`. Gives whether it got longer.
pub fn extend_slot(tables: &mut Tables, point: PointId, priority: Priority, until: u64) -> bool
    requires kept { IsKept tables.old }
    requires point { point < length tables.old.arrays.items }
    requires level { (1 ≤ priority) × (priority ≤ 16) }
    ensures kept { IsKept tables.new }
    ensures lease { lease_at tables.new point priority ≡ option_map (extended until) (lease_at tables.old point priority) }
    ensures others { (a b : ℕ) → (a ≡ point → b ≡ priority → ⊥) → lease_at tables.new a b ≡ lease_at tables.old a b }
    ensures pending { (a b : ℕ) → pending_at tables.new a b ≡ pending_at tables.old a b }
    ensures timed { (last : ℕ) → IsTimed last tables.old → IsTimed last tables.new }
    ensures points { length tables.new.arrays.items ≡ length tables.old.arrays.items }
    ensures longer { result ≡ option_map_or (λ (lease : Lease). nat_lt lease.until until) (lease_at tables.old point priority) false }
{
    let Some(key) = lease_key(tables, point, priority) else {
        return false;
    };
    let Some(lease) = tables.leases.get(key) else {
        return false;
    };
    if until <= lease.until {
        return false;
    }
    extend_lease(tables, key, until);
    true
}
