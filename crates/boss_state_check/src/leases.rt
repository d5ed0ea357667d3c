ghost use Rattle.std.specs.Prelude.{◌≡◌, ◌≤◌};
ghost use Rattle.std.specs.List.{list_all};
ghost use Rattle.boss_model.specs.Limits.{last_moment};
ghost use Rattle.boss_model.specs.Sound.{Rising};
ghost use Rattle.boss_model.specs.State.{lease_slot};
ghost use Rattle.boss_state_check.specs.Tests.{is_lease, is_pending, is_alone};

use crate::searches::lease_at;
use boss_model::{Actuator, LONGEST_LEASE, Lease, Pending, fits_at, is_level, is_reversion};
use boss_reversion::outlasts;

/// Whether each of the leases may stand in a state with this `now`, in milliseconds.
pub fn are_leases(plant: &[Actuator], now: u64, leases: &[Lease]) -> bool
    requires { now ≤ last_moment }
    ensures { result ≡ list_all (is_lease plant.now now) leases.now }
{
    leases.iter().all(|lease| is_lease(plant, now, lease))
}

/// Whether the lease may stand in a state with this `now`.
fn is_lease(plant: &[Actuator], now: u64, lease: &Lease) -> bool
    requires { now ≤ last_moment }
    ensures { result ≡ is_lease plant.now now lease.now }
{
    fits_at(plant, lease.point, lease.value)
        && is_level(i64::from(lease.priority.0))
        && is_reversion(plant, lease.point, lease.revert.slice())
        && now < lease.until
        && lease.until <= now + LONGEST_LEASE as u64
}

/// Whether each of the reversions may be under way in a state with this `now`, in milliseconds.
pub fn are_pending(plant: &[Actuator], now: u64, pending: &[Pending]) -> bool
    ensures { result ≡ list_all (is_pending plant.now now) pending.now }
{
    pending
        .iter()
        .all(|reversion| is_pending(plant, now, reversion))
}

/// Whether the reversion may be under way in a state with this `now`.
fn is_pending(plant: &[Actuator], now: u64, reversion: &Pending) -> bool
    ensures { result ≡ is_pending plant.now now reversion.now }
{
    is_level(i64::from(reversion.priority.0))
        && is_reversion(plant, reversion.point, reversion.steps.slice())
        && reversion.start <= now
        && outlasts(reversion, now)
}

/// Whether no lease holds the slot of one of the reversions.
pub fn are_alone(leases: &[Lease], pending: &[Pending]) -> bool
    requires { Rising lease_slot leases.now }
    ensures { result ≡ list_all (is_alone leases.now) pending.now }
{
    pending.iter().all(|reversion| is_alone(leases, reversion))
}

/// Whether no lease holds the slot of the reversion.
fn is_alone(leases: &[Lease], reversion: &Pending) -> bool
    requires { Rising lease_slot leases.now }
    ensures { result ≡ is_alone leases.now reversion.now }
{
    lease_at(leases, (reversion.point, reversion.priority)).is_none()
}
