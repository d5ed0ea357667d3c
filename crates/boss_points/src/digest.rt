ghost use Rattle.std.specs.Prelude.{◌≡◌, ◌<◌, [], ◌++◌, length, slice_index_or, codes, All};
ghost use Rattle.std.specs.Fmt.{signed_decimal};
ghost use Rattle.std.specs.List.{flat_map};
ghost use Rattle.def_catalogue.specs.Canonical.{digest_of, driver_line, point_line, kind_text, times_text};
ghost use Rattle.boss_points.specs.Fed.{Takes};
ghost use Rattle.boss_points.specs.Kept.{IsWhole};
ghost use Rattle.boss_points.specs.Seen.{seen, all_seen};

use crate::Point;
use boss_model::{DriverId, Kind, Name};
use itoa::Buffer;
use sha2::{Digest, Sha256};

/// SHA-256 of the canonical text: a line for each driver, and then a line for each point.
pub(crate) fn digest_of(drivers: &[Name], points: &[Point]) -> [u8; 32]
    requires { All (IsWhole (length drivers.now)) points.now }
    ensures { result ≡ digest_of (record { drivers = drivers.now; points = all_seen points.now }) }
{
    let mut hasher = Sha256::new();
    feed_drivers(&mut hasher, drivers);
    feed_points(&mut hasher, drivers, points);
    hasher.finalize()
}

fn feed_drivers(hasher: &mut Sha256, drivers: &[Name])
    ensures { Takes hasher.old hasher.new (flat_map driver_line drivers.now) }
{
    for driver in drivers {
        feed_driver(hasher, driver);
    }
}

fn feed_driver(hasher: &mut Sha256, driver: &Name)
    ensures { Takes hasher.old hasher.new (driver_line driver.now) }
{
    hasher.update(b"d ");
    hasher.update(driver.bytes());
    hasher.update(b"\n");
}

fn feed_points(hasher: &mut Sha256, drivers: &[Name], points: &[Point])
    requires { All (IsWhole (length drivers.now)) points.now }
    ensures { Takes hasher.old hasher.new (flat_map (point_line drivers.now) (all_seen points.now)) }
{
    for point in points {
        feed_point(hasher, drivers, point);
    }
}

fn feed_point(hasher: &mut Sha256, drivers: &[Name], point: &Point)
    requires { point.now.driver < length drivers.now }
    ensures { Takes hasher.old hasher.new (point_line drivers.now (seen point.now)) }
{
    feed_names(hasher, &point.name, driver_at(drivers, point.driver));
    feed_kind(hasher, point.kind);
    hasher.update(b" ");
    feed_number(hasher, point.default);
    feed_times(hasher, point.min_on, point.min_off);
    hasher.update(b"\n");
}

/// The name of the driver at this place.
fn driver_at(drivers: &[Name], id: DriverId) -> &Name
    requires { id < length drivers.now }
    ensures { result.now ≡ slice_index_or drivers.now id [] }
{
    &drivers[id.0 as usize]
}

fn feed_names(hasher: &mut Sha256, point: &Name, driver: &Name)
    ensures { Takes hasher.old hasher.new (codes "p " ++ point.now ++ codes " " ++ driver.now ++ codes " ") }
{
    hasher.update(b"p ");
    hasher.update(point.bytes());
    hasher.update(b" ");
    hasher.update(driver.bytes());
    hasher.update(b" ");
}

fn feed_kind(hasher: &mut Sha256, kind: Kind)
    ensures { Takes hasher.old hasher.new (kind_text kind) }
{
    match kind {
        Kind::Analog { min, max } => {
            hasher.update(b"analog ");
            feed_number(hasher, min);
            hasher.update(b" ");
            feed_number(hasher, max);
        }
        Kind::Binary => hasher.update(b"binary 0 1"),
        Kind::Multi { states } => {
            hasher.update(b"multi 1 ");
            feed_number(hasher, states);
        }
    }
}

fn feed_times(hasher: &mut Sha256, on: i64, off: i64)
    ensures { Takes hasher.old hasher.new (times_text on off) }
{
    if on != 0 || off != 0 {
        hasher.update(b" ");
        feed_number(hasher, on);
        hasher.update(b" ");
        feed_number(hasher, off);
    }
}

fn feed_number(hasher: &mut Sha256, number: i64)
    ensures { Takes hasher.old hasher.new (signed_decimal number) }
{
    let mut digits = Buffer::new();
    hasher.update(digits.format(number));
}
