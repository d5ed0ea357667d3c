//! Reversions that outlasted a stop take their slots again.

ghost use Rattle.std.specs.Prelude.{◌≡◌, ℕ, ◌≤◌, ◌<◌, None, find, length};
ghost use Rattle.std.specs.List.{AllByRecursion};
ghost use Rattle.std.specs.Option.{option_or};
ghost use Rattle.boss_holdings.specs.Putting.{ArePlacedApart, IsUnderWay, in_place};
ghost use Rattle.boss_slots.specs.Tables.{IsKept, IsTimed, lease_at, pending_at};

use crate::passing::start_reversion;
use boss_model::Pending;
use boss_slots::Tables;

/// Reversions that are under way at `now`, in milliseconds, take their slots, which have to be empty.
pub fn put_reversions(tables: &mut Tables, pending: Vec<Pending>, now: u64)
    requires kept { IsKept tables.old }
    requires timed { IsTimed now tables.old }
    requires apart { ArePlacedApart pending.items }
    requires slots { AllByRecursion (λ reversion. (reversion.point < length tables.old.arrays.items) × (1 ≤ reversion.priority) × (reversion.priority ≤ 16)) pending.items }
    requires playing { AllByRecursion (IsUnderWay now) pending.items }
    requires clear { AllByRecursion (λ reversion. (lease_at tables.old reversion.point reversion.priority ≡ None) × (pending_at tables.old reversion.point reversion.priority ≡ None)) pending.items }
    ensures kept { IsKept tables.new }
    ensures pending { (p q : ℕ) → pending_at tables.new p q ≡ option_or (find (in_place p q) pending.items) (pending_at tables.old p q) }
    ensures leases { (p q : ℕ) → lease_at tables.new p q ≡ lease_at tables.old p q }
    ensures timed { IsTimed now tables.new }
    ensures points { length tables.new.arrays.items ≡ length tables.old.arrays.items }
{
    let mut others = pending;
    while let Some(reversion) = others.pop() {
        start_reversion(tables, reversion, now);
    }
}
