//! Whether each point takes under the new catalogue what it holds.

ghost use Rattle.std.specs.Prelude.{◌≡◌, ◌∷◌, []};
ghost use Rattle.std.specs.List.{list_all};
ghost use Rattle.boss_model.specs.Catalogue.{actuators, fits_at};
ghost use Rattle.boss_model.specs.Seen.{seen};
ghost use Rattle.law_adoption.specs.MayMove.{lease_fits, pending_fits, unfit};
ghost use Rattle.boss_adopting.specs.Least.{least_failing};
ghost use Rattle.boss_adopting.specs.Places.{places_of};

use crate::least::lesser_of;
use crate::numbering::Numbering;
use boss_model::{Kept, Lease, Pending, PointId, Step};
use boss_points::Catalogue;

/// The least point with a lease or a reversion one of whose values the new catalogue's point does not take.
pub(crate) fn least_unfit(new: &Catalogue, numbering: &Numbering, kept: &Kept) -> Option<PointId>
    ensures { result ≡ unfit (actuators new.now) (places_of numbering.now) (seen kept.entry.now) }
{
    lesser_of(
        least_unfit_lease(new, numbering, kept.leases.slice()),
        least_unfit_reversion(new, numbering, kept.pending.slice()),
    )
}

/// The least point of the leases that do not fit.
fn least_unfit_lease(new: &Catalogue, numbering: &Numbering, leases: &[Lease]) -> Option<PointId>
    ensures { result ≡ least_failing (λ lease. lease.point) (lease_fits (actuators new.now) (places_of numbering.now)) leases.now }
{
    let mut found = None;
    for lease in leases {
        found = lesser_of(found, unfit_lease(new, numbering, lease));
    }
    found
}

/// The lease's point, unless the lease fits.
fn unfit_lease(new: &Catalogue, numbering: &Numbering, lease: &Lease) -> Option<PointId>
    ensures { result ≡ least_failing (λ lease. lease.point) (lease_fits (actuators new.now) (places_of numbering.now)) (lease.now ∷ []) }
{
    if lease_fits(new, numbering, lease) {
        None
    } else {
        Some(lease.point)
    }
}

/// The least point of the reversions that do not fit.
fn least_unfit_reversion(
    new: &Catalogue,
    numbering: &Numbering,
    pending: &[Pending],
) -> Option<PointId>
    ensures { result ≡ least_failing (λ reversion. reversion.point) (pending_fits (actuators new.now) (places_of numbering.now)) pending.now }
{
    let mut found = None;
    for reversion in pending {
        found = lesser_of(found, unfit_reversion(new, numbering, reversion));
    }
    found
}

/// The reversion's point, unless the reversion fits.
fn unfit_reversion(new: &Catalogue, numbering: &Numbering, reversion: &Pending) -> Option<PointId>
    ensures { result ≡ least_failing (λ reversion. reversion.point) (pending_fits (actuators new.now) (places_of numbering.now)) (reversion.now ∷ []) }
{
    if pending_fits(new, numbering, reversion) {
        None
    } else {
        Some(reversion.point)
    }
}

/// Whether the lease's new point takes its value and those of the steps to come.
fn lease_fits(new: &Catalogue, numbering: &Numbering, lease: &Lease) -> bool
    ensures { result ≡ lease_fits (actuators new.now) (places_of numbering.now) lease.now }
{
    let point = numbering.at(lease.point);
    takes(new, point, lease.value) && takes_all(new, point, lease.revert.slice())
}

/// Whether the reversion's new point takes the values of all its steps.
fn pending_fits(new: &Catalogue, numbering: &Numbering, reversion: &Pending) -> bool
    ensures { result ≡ pending_fits (actuators new.now) (places_of numbering.now) reversion.now }
{
    takes_all(new, numbering.at(reversion.point), reversion.steps.slice())
}

/// Whether the point takes the values of these steps.
fn takes_all(catalogue: &Catalogue, point: PointId, steps: &[Step]) -> bool
    ensures { result ≡ list_all (λ step. fits_at (actuators catalogue.now) point step.value) steps.now }
{
    steps.iter().all(|step| takes(catalogue, point, step.value))
}

/// Whether the point is there and takes the value.
fn takes(catalogue: &Catalogue, point: PointId, value: i64) -> bool
    ensures { result ≡ fits_at (actuators catalogue.now) point value }
{
    point.0 < catalogue.count() && catalogue.point(point).kind.fits(value)
}
