ghost use Rattle.std.specs.Prelude.{◌≡◌, map, IfOk};
ghost use Rattle.boss_model.specs.Catalogue.{place_of};
ghost use Rattle.boss_model.specs.Sound.{DistinctNames};
ghost use Rattle.law_adoption.specs.Renumber.{renumbered, stays, at};
ghost use Rattle.boss_adopting.specs.Places.{places_of, places_between};

use boss_model::{Name, NoMemory, PointId};
use boss_points::Catalogue;
use std::alloc::Global;
use std::marker::Model;

/// For each point of an old catalogue its place in a new one, which has none for a point that is removed.
/// A contract sees it as the list of these places.
#[derive(Drop)]
pub(crate) struct Numbering {
    places: Vec<Option<PointId>>,
}

impl Model for Numbering {
    ghost use Rattle.std.specs.Prelude.{ℕ, List, Option};

    ghost Value = { List (Option ℕ) };

    ghost view = { λ n. n.places.items };
}

impl Numbering {
    /// The places that the points of the old catalogue have in the new one, by their names, which are all different.
    pub(crate) fn between(
        alloc: Global,
        old: &Catalogue,
        new: &Catalogue,
    ) -> Result<Numbering, NoMemory>
        ensures places { IfOk result (λ numbering. places_of numbering ≡ renumbered old.now new.now) }
        ensures apart { DistinctNames (map (λ point. point.name) old.now.points) }
    {
        let places = places_between(alloc, old, new)?;
        Ok(Numbering { places })
    }

    /// The point's new place, if it is not removed.
    pub(crate) fn place(&self, point: PointId) -> Option<PointId>
        ensures { result ≡ places_of self.now point }
    {
        match self.places.get(point.0 as usize) {
            Some(place) => *place,
            None => None,
        }
    }

    /// Whether the point is not removed.
    pub(crate) fn stays(&self, point: PointId) -> bool
        ensures { result ≡ stays (places_of self.now) point }
    {
        self.place(point).is_some()
    }

    /// The point's new place; 0 where it is removed.
    pub(crate) fn at(&self, point: PointId) -> PointId
        ensures { result ≡ at (places_of self.now) point }
    {
        self.place(point).unwrap_or(PointId(0))
    }
}

/// The places, one by one.
fn places_between(
    alloc: Global,
    old: &Catalogue,
    new: &Catalogue,
) -> Result<Vec<Option<PointId>>, NoMemory>
    ensures places { IfOk result (λ places. places.items ≡ places_between old.now new.now) }
    ensures apart { DistinctNames (map (λ point. point.name) old.now.points) }
{
    let mut places = Vec::new(alloc);
    for place in 0..old.count() {
        places.push(place_in(new, &old.point(PointId(place)).name))?;
    }
    Ok(places)
}

/// The place of the point that has this name.
pub(crate) fn place_in(catalogue: &Catalogue, name: &Name) -> Option<PointId>
    ensures { result ≡ place_of catalogue.now name.now }
{
    catalogue.find(name.bytes())
}
