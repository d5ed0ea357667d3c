//! Leases that last longer.

ghost use Rattle.std.specs.Prelude.{◌≡◌, ◌≤◌, ◌<◌, filter, length, map};
ghost use Rattle.std.specs.List.{AllByRecursion};
ghost use Rattle.std.specs.Option.{option_map_or};
ghost use Rattle.boss_model.specs.Limits.{most_writes};
ghost use Rattle.boss_model.specs.Renew.{extended_if, is_meant};
ghost use Rattle.boss_model.specs.Sound.{Rising};
ghost use Rattle.boss_model.specs.State.{lease_slot};
ghost use Rattle.boss_model.specs.Submit.{first_until};
ghost use Rattle.law_effects.specs.Changes.{lengthens};
ghost use Rattle.boss_holdings.specs.Held.{in_slots};
ghost use Rattle.law_records.specs.Slots.{soonest};
ghost use Rattle.boss_persistent.specs.Lasting.{IsKept, IsSoundOfSome, persistent_of};
ghost use Rattle.boss_persistent.specs.Meant.{some_shorter, untils_in};
ghost use Rattle.boss_persistent.specs.Showing.{ShowsAsBefore};

use crate::lasting::Lasting;
use crate::queries::earlier;
use boss_holdings::Holdings;
use boss_model::{PointId, Txn};
use boss_slots::Place;

/// What a renewal made of the leases that it meant.
#[derive(Clone, Copy)]
pub struct Extended {
    /// Whether one of them ends later than before.
    pub longer: bool,
    /// The first moment at which one of them ends, in milliseconds; 0 where there is none.
    pub first_until: u64,
}

impl Lasting {
    /// The leases of a transaction that are on these points, or all its leases where no point is named, keep their slots at
    /// least up to this moment, in milliseconds. It takes no memory.
    pub fn extend(&mut self, txn: Txn, points: &[PointId], until: u64) -> Extended
        requires sound { IsSoundOfSome self.old }
        requires kept { IsKept self.old }
        requires points { length points.now ≤ most_writes }
        ensures after { persistent_of self.new ≡ record (persistent_of self.old) { leases = map (extended_if (is_meant txn points.now) until) (persistent_of self.old).leases } }
        ensures longer { result.longer ≡ lengthens txn points.now until (persistent_of self.old).leases }
        ensures first { result.first_until ≡ first_until (filter (is_meant txn points.now) (persistent_of self.new).leases) }
        ensures kept { IsKept self.new }
        ensures points { self.new.holdings.points ≡ self.old.holdings.points }
        ensures untouched { ShowsAsBefore self.old.holdings self.new.holdings }
    {
        self.fill_slots(txn, points);
        let longer = extend_slots(&mut self.holdings, &self.slots, until);
        Extended {
            longer,
            first_until: first_end(&self.holdings, &self.slots),
        }
    }
}

/// The leases in these slots end no sooner than at `until`, in milliseconds. Gives whether one got longer.
fn extend_slots(holdings: &mut Holdings, slots: &[Place], until: u64) -> bool
    requires slots { AllByRecursion (λ slot. (slot.point < holdings.old.points) × (1 ≤ slot.priority) × (slot.priority ≤ 16)) slots.now }
    requires in_order { Rising lease_slot holdings.old.leases }
    ensures leases { holdings.new.leases ≡ map (extended_if (in_slots slots.now) until) holdings.old.leases }
    ensures pending { holdings.new.pending ≡ holdings.old.pending }
    ensures now { holdings.new.now ≡ holdings.old.now }
    ensures points { holdings.new.points ≡ holdings.old.points }
    ensures touched { holdings.new.touched ≡ holdings.old.touched }
    ensures longer { result ≡ some_shorter slots.now until holdings.old.leases }
{
    let mut longer = false;
    for slot in slots {
        longer = holdings.extend(*slot, until) || longer;
    }
    longer
}

/// The first moment at which a lease in one of these slots ends, in milliseconds; 0 where there is none.
fn first_end(holdings: &Holdings, slots: &[Place]) -> u64
    requires slots { AllByRecursion (λ slot. (slot.point < holdings.now.points) × (1 ≤ slot.priority) × (slot.priority ≤ 16)) slots.now }
    ensures { result ≡ option_map_or (λ until. until) (soonest (untils_in holdings.now.leases slots.now)) 0 }
{
    let mut first = None;
    for slot in slots {
        if let Some(lease) = holdings.lease_at(slot.point, slot.priority) {
            first = Some(earlier(first, lease.until));
        }
    }
    first.unwrap_or(0)
}
