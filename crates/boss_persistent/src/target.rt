ghost use Rattle.std.specs.Prelude.{◌≡◌, ◌≤◌, ◌<◌, ◌==◌, ◌&&◌, length, find, unwrap_or, None, Some};
ghost use Rattle.std.specs.List.{AllByRecursion};
ghost use Rattle.boss_model.specs.Catalogue.{default_of};
ghost use Rattle.boss_model.specs.Queries.{playing_slot};
ghost use Rattle.boss_model.specs.Reversions.{value_at};
ghost use Rattle.boss_model.specs.Target.{basis_of, in_force, playing, value_of};
ghost use Rattle.law_due.specs.Playing.{IsPlayable};
ghost use Rattle.boss_persistent.specs.Slots.{slot_in, slots_in};

use boss_holdings::Holdings;
use boss_model::{Actuator, Basis, Pending, PointId, Priority, Slot, Slots};
use boss_reversion::{end_of, value_at};

/// The value that a point is to have at the moment of the last change.
pub fn target_of(plant: &[Actuator], holdings: &Holdings, point: PointId) -> i64
    requires point { point < length plant.now }
    requires held { point < holdings.now.points }
    requires pending { AllByRecursion IsPlayable holdings.now.pending }
    ensures { result ≡ value_of (default_of plant.now point) holdings.now.now (in_force holdings.now.leases point) (playing holdings.now.pending point) }
{
    let default = plant[point.0 as usize].default;
    match holdings.in_force(point) {
        Some(lease) => lease.value,
        None => value_without_lease(holdings, point, default),
    }
}

/// The value that a point without a lease is to have.
fn value_without_lease(holdings: &Holdings, point: PointId, default: i64) -> i64
    requires held { point < holdings.now.points }
    requires pending { AllByRecursion IsPlayable holdings.now.pending }
    ensures { result ≡ value_of default holdings.now.now None (playing holdings.now.pending point) }
{
    match holdings.playing(point) {
        Some(reversion) => value_or(reversion, holdings.now(), default),
        None => default,
    }
}

/// The reversion's value, or the default where it has none.
fn value_or(reversion: &Pending, now: u64, default: i64) -> i64
    requires { IsPlayable reversion.now }
    ensures { result ≡ unwrap_or (value_at reversion.now now) default }
{
    match value_at(reversion, now) {
        Some(value) => value,
        None => default,
    }
}

/// What that value rests on.
pub fn basis_of(holdings: &Holdings, point: PointId) -> Basis
    requires { point < holdings.now.points }
    ensures { result ≡ basis_of (in_force holdings.now.leases point) (playing holdings.now.pending point) }
{
    match holdings.in_force(point) {
        Some(lease) => Basis::Lease {
            priority: lease.priority,
            txn: lease.txn,
        },
        None => basis_without_lease(holdings, point),
    }
}

/// What the value of a point without a lease rests on.
fn basis_without_lease(holdings: &Holdings, point: PointId) -> Basis
    requires { point < holdings.now.points }
    ensures { result ≡ basis_of None (playing holdings.now.pending point) }
{
    match holdings.playing(point) {
        Some(reversion) => Basis::Pending {
            priority: reversion.priority,
            txn: reversion.txn,
        },
        None => Basis::Default,
    }
}

/// The sixteen slots of a point.
pub fn slots_of(holdings: &Holdings, point: PointId) -> Slots
    requires held { point < holdings.now.points }
    requires pending { AllByRecursion IsPlayable holdings.now.pending }
    ensures { result.at ≡ slots_in holdings.now.leases holdings.now.pending holdings.now.now point }
{
    let at = std::array::from_fn(|place| slot_in(holdings, point, Priority(place as u8 + 1)));
    Slots { at }
}

/// A slot of a point.
fn slot_in(holdings: &Holdings, point: PointId, priority: Priority) -> Slot
    requires held { point < holdings.now.points }
    requires level { (1 ≤ priority) × (priority ≤ 16) }
    requires pending { AllByRecursion IsPlayable holdings.now.pending }
    ensures { result ≡ slot_in holdings.now.leases holdings.now.pending holdings.now.now point priority }
{
    match holdings.lease_at(point, priority) {
        Some(lease) => Slot::Lease {
            value: lease.value,
            txn: lease.txn,
            until: lease.until,
        },
        None => slot_without_lease(holdings, point, priority),
    }
}

/// A slot of a point that no lease holds.
fn slot_without_lease(holdings: &Holdings, point: PointId, priority: Priority) -> Slot
    requires held { point < holdings.now.points }
    requires level { (1 ≤ priority) × (priority ≤ 16) }
    requires pending { AllByRecursion IsPlayable holdings.now.pending }
    ensures { result ≡ playing_slot holdings.now.now (find (λ reversion. (reversion.point == point) && (reversion.priority == priority)) holdings.now.pending) }
{
    match holdings.pending_at(point, priority) {
        Some(reversion) => playing_slot(reversion, holdings.now()),
        None => Slot::Empty,
    }
}

/// The slot that a reversion under way keeps.
fn playing_slot(reversion: &Pending, now: u64) -> Slot
    requires { IsPlayable reversion.now }
    ensures { result ≡ playing_slot now (Some reversion.now) }
{
    match value_at(reversion, now) {
        Some(value) => Slot::Pending {
            value,
            txn: reversion.txn,
            end: end_of(reversion),
        },
        None => Slot::Empty,
    }
}
