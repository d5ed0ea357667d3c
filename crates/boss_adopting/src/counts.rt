ghost use Rattle.std.specs.Prelude.{◌≡◌, ◌≤◌, if◌then◌else◌, length, is_none};
ghost use Rattle.boss_model.specs.Catalogue.{place_of};
ghost use Rattle.boss_model.specs.Limits.{most_points};
ghost use Rattle.boss_adopting.specs.Counts.{removed};

use crate::numbering::place_in;
use boss_model::{Name, PointId};
use boss_points::Catalogue;

/// How many points of the old catalogue the new one has no more, by their names: at most 4,096.
pub fn removed_points(old: &Catalogue, new: &Catalogue) -> u32
    ensures count { result ≡ length (removed old.now new.now) }
    ensures few { result ≤ most_points }
{
    let mut count = 0;
    for place in 0..old.count() {
        count += one_if_removed(new, &old.point(PointId(place)).name);
    }
    count
}

/// 1 where the catalogue has no point of this name, and else 0.
fn one_if_removed(catalogue: &Catalogue, name: &Name) -> u32
    ensures { result ≡ (if is_none (place_of catalogue.now name.now) then 1 else 0) }
{
    if place_in(catalogue, name).is_none() {
        1
    } else {
        0
    }
}

/// How many points of the new catalogue the old one did not have, by their names: at most 4,096.
pub fn added_points(old: &Catalogue, new: &Catalogue) -> u32
    ensures count { result ≡ length (removed new.now old.now) }
    ensures few { result ≤ most_points }
{
    removed_points(new, old)
}
