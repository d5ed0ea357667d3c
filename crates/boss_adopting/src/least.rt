ghost use Rattle.std.specs.Prelude.{◌≡◌};
ghost use Rattle.boss_adopting.specs.Least.{lesser_of};

use boss_model::PointId;

/// The lesser of two points, either of which may be missing.
pub(crate) fn lesser_of(one: Option<PointId>, other: Option<PointId>) -> Option<PointId>
    ensures { result ≡ lesser_of one other }
{
    match (one, other) {
        (None, _) => other,
        (Some(_), None) => one,
        (Some(point), Some(rival)) => Some(if rival < point { rival } else { point }),
    }
}
