ghost use Rattle.std.specs.Prelude.{◌≡◌, ◌<◌, length, map};
ghost use Rattle.boss_model.specs.Catalogue.{actuators};
ghost use Rattle.boss_model.specs.Seen.{seen};
ghost use Rattle.boss_model.specs.Sound.{DistinctNames, IsSoundPersistent};
ghost use Rattle.law_adoption.specs.Renumber.{renumbered};
ghost use Rattle.boss_adopting.specs.Adopts.{Adopts, name_at};
ghost use Rattle.boss_adopting.specs.Places.{places_of};

use crate::AdoptRefusal;
use crate::moving::moved_state;
use crate::numbering::Numbering;
use crate::unfit::least_unfit;
use crate::uses::least_in_use;
use boss_model::{Kept, Name, NoMemory, PointId};
use boss_points::Catalogue;
use std::alloc::Global;

/// What outlasts a stop, adopted: under the new catalogue in place of the old one, where no removed point is in use and each
/// point takes all values that it holds. The state stays as it is.
pub fn adopt_state(
    alloc: Global,
    old: &Catalogue,
    new: &Catalogue,
    kept: &Kept,
) -> Result<Kept, AdoptRefusal>
    requires { IsSoundPersistent (actuators old.now) (seen kept.now) }
    ensures { Adopts old.now new.now (seen kept.entry.now) result }
{
    match Numbering::between(alloc, old, new) {
        Ok(numbering) => adopt_by(alloc, old, new, &numbering, kept),
        Err(NoMemory) => Err(AdoptRefusal::NoMemory),
    }
}

/// The same, by the places that the old points have in the new catalogue.
fn adopt_by(
    alloc: Global,
    old: &Catalogue,
    new: &Catalogue,
    numbering: &Numbering,
    kept: &Kept,
) -> Result<Kept, AdoptRefusal>
    requires sound { IsSoundPersistent (actuators old.now) (seen kept.now) }
    requires places { places_of numbering.now ≡ renumbered old.now new.now }
    requires apart { DistinctNames (map (λ point. point.name) old.now.points) }
    ensures { Adopts old.now new.now (seen kept.entry.now) result }
{
    if let Some(point) = least_in_use(numbering, kept) {
        let name = name_of(old, point);
        return Err(AdoptRefusal::InUse { name });
    }
    if let Some(point) = least_unfit(new, numbering, kept) {
        let name = name_of(old, point);
        return Err(AdoptRefusal::Unfit { name });
    }
    match moved_state(alloc, numbering, kept) {
        Ok(moved) => Ok(moved),
        Err(NoMemory) => Err(AdoptRefusal::NoMemory),
    }
}

/// The name of the point at this place.
fn name_of(catalogue: &Catalogue, point: PointId) -> Name
    requires { point < length catalogue.now.points }
    ensures { name_at catalogue.now (Some point) ≡ Some result }
{
    catalogue.point(point).name.copied()
}
