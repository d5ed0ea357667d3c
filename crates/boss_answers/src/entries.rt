//! What is told of the catalogue: its points, its drivers and its digest.

ghost use Rattle.std.specs.Prelude.{◌≡◌, ◌+◌, ◌*◌, ◌≤◌, ◌<◌, ◌∷◌, [], ◌++◌, length, map, codes, decimal, slice_index_or};
ghost use Rattle.std.specs.Fmt.{signed_decimal};
ghost use Rattle.std.specs.List.{flat_map, AllByRecursion};
ghost use Rattle.boss_model.specs.Limits.{last_number, most_drivers, most_told, program_version};
ghost use Rattle.def_log.specs.Versions.{newest_version};
ghost use Rattle.boss_points.specs.Seen.{all_seen, seen};
ghost use Rattle.def_wire.specs.Texts.{digest_text, drivers_text, entry_text, kind_text, list_text, listed, page_size, points_text, quoted, times_text, version_text};
ghost use Rattle.boss_answers.specs.Room.{HasRoom, PutsAtMost};

use crate::parts::{write_number, write_quoted, write_signed};
use boss_model::{Buffer, DriverId, Kind, MOST_TOLD, Name, PROGRAM_VERSION};
use boss_points::{Catalogue, Point};
use def_log::NEWEST_VERSION;

/// Points of the catalogue from this place on, and with the first of them the drivers.
pub(crate) fn put_points(into: &mut Buffer, catalogue: &Catalogue, from: u64, most: u64)
    requires room { HasRoom 32000 into.old }
    requires from { from ≤ last_number }
    requires few { most ≤ most_told }
    ensures { PutsAtMost 32000 into.old into.new (points_text (digest_text catalogue.now) from most catalogue.now) }
{
    let points = catalogue.page(from, page_size(from, most));
    if from == 0 {
        put_first(into, catalogue, points);
    } else {
        put_later(into, catalogue, from, points);
    }
}

/// How many points are told at once.
fn page_size(from: u64, most: u64) -> u64
    requires { most ≤ most_told }
    ensures size { result ≡ page_size from most }
    ensures few { result ≤ most_told }
    ensures half { from ≡ 0 → result ≤ 32 }
{
    if from == 0 && MOST_TOLD / 2 < most {
        MOST_TOLD / 2
    } else {
        most
    }
}

/// The drivers, and the first points.
fn put_first(into: &mut Buffer, catalogue: &Catalogue, points: &[Point])
    requires room { HasRoom 32000 into.old }
    requires few { length points.now ≤ 32 }
    requires known { AllByRecursion (λ point. point.driver < length catalogue.now.drivers) points.now }
    ensures { PutsAtMost 32000 into.old into.new
        (codes "{\"ok\":\"points\",\"digest\":" ++ digest_text catalogue.now ++ drivers_text 0 catalogue.now.drivers
        ++ list_text 0 catalogue.now (all_seen points.now)) }
{
    put_head(into, catalogue);
    put_drivers(into, catalogue);
    put_list(into, catalogue, 0, points);
}

/// Points that are not the first.
fn put_later(into: &mut Buffer, catalogue: &Catalogue, from: u64, points: &[Point])
    requires room { HasRoom 32000 into.old }
    requires from { from ≤ last_number }
    requires few { length points.now ≤ 64 }
    requires known { AllByRecursion (λ point. point.driver < length catalogue.now.drivers) points.now }
    ensures { PutsAtMost 32000 into.old into.new
        (codes "{\"ok\":\"points\",\"digest\":" ++ digest_text catalogue.now ++ list_text from catalogue.now (all_seen points.now)) }
{
    put_head(into, catalogue);
    put_list(into, catalogue, from, points);
}

/// What stands in front of each list of points.
fn put_head(into: &mut Buffer, catalogue: &Catalogue)
    requires { HasRoom 96 into.old }
    ensures { PutsAtMost 96 into.old into.new (codes "{\"ok\":\"points\",\"digest\":" ++ digest_text catalogue.now) }
{
    into.extend(b"{\"ok\":\"points\",\"digest\":");
    write_digest(into, catalogue);
}

/// The names of the drivers.
fn put_drivers(into: &mut Buffer, catalogue: &Catalogue)
    requires { HasRoom 17184 into.old }
    ensures { PutsAtMost 17184 into.old into.new (codes ",\"drivers\":[" ++ listed (map quoted catalogue.now.drivers) ++ codes "]") }
{
    into.extend(b",\"drivers\":[");
    write_names(into, catalogue.driver_names());
    into.extend(b"]");
}

/// How many points there are, from where to ask next, and these points.
fn put_list(into: &mut Buffer, catalogue: &Catalogue, from: u64, points: &[Point])
    requires room { HasRoom (96 + 320 * length points.now) into.old }
    requires from { from ≤ last_number }
    requires few { length points.now ≤ 64 }
    requires known { AllByRecursion (λ point. point.driver < length catalogue.now.drivers) points.now }
    ensures { PutsAtMost (96 + 320 * length points.now) into.old into.new (list_text from catalogue.now (all_seen points.now)) }
{
    write_number(into, b",\"count\":", u64::from(catalogue.count()));
    write_number(into, b",\"next\":", from + points.len() as u64);
    into.extend(b",\"list\":[");
    write_entries(into, catalogue, points);
    into.extend(b"]}");
}

/// Which program this is, which journals it begins, and which catalogue it has.
pub(crate) fn put_version(into: &mut Buffer, catalogue: &Catalogue)
    requires { HasRoom 256 into.old }
    ensures { PutsAtMost 256 into.old into.new (version_text (digest_text catalogue.now) catalogue.now) }
{
    put_program(into);
    into.extend(b",\"digest\":");
    write_digest(into, catalogue);
    write_number(into, b",\"points\":", u64::from(catalogue.count()));
    write_number(into, b",\"drivers\":", u64::from(catalogue.drivers()));
    into.push(b'}');
}

fn put_program(into: &mut Buffer)
    requires { HasRoom 80 into.old }
    ensures { PutsAtMost 80 into.old into.new
        (codes "{\"ok\":\"version\",\"program\":" ++ quoted program_version ++ codes ",\"journal\":" ++ decimal newest_version) }
{
    into.extend(b"{\"ok\":\"version\",\"program\":\"");
    into.extend(PROGRAM_VERSION.as_bytes());
    write_number(into, b"\",\"journal\":", u64::from(NEWEST_VERSION));
}

/// The digest of the catalogue, in quotes.
fn write_digest(into: &mut Buffer, catalogue: &Catalogue)
    requires { HasRoom 66 into.old }
    ensures { PutsAtMost 66 into.old into.new (digest_text catalogue.now) }
{
    let digest = catalogue.digest();
    let mut digits = [0; 64];
    match hex::encode_to_slice(digest.as_slice(), digits.as_mut_slice()) {
        Ok(()) => put_digits(into, digits.as_slice()),
        Err(_) => unreachable!(),
    }
}

/// Digits in quotes.
fn put_digits(into: &mut Buffer, digits: &[u8])
    requires few { length digits.now ≤ 64 }
    requires room { HasRoom 66 into.old }
    ensures { PutsAtMost 66 into.old into.new (quoted digits.now) }
{
    into.push(b'"');
    into.extend(digits);
    into.push(b'"');
}

/// Names in quotes, with commas between them.
fn write_names(into: &mut Buffer, names: &[Name])
    requires few { length names.now ≤ most_drivers }
    requires room { HasRoom (256 * 67) into.old }
    ensures { PutsAtMost (256 * 67) into.old into.new (listed (map quoted names.now)) }
{
    if let Some((first, others)) = names.split_first() {
        write_quoted(into, b"", first);
        put_other_names(into, others);
    }
}

/// Names in quotes, with a comma before each.
fn put_other_names(into: &mut Buffer, names: &[Name])
    requires { HasRoom (67 * length names.now) into.old }
    ensures { PutsAtMost (67 * length names.now) into.old into.new (flat_map (λ name. 44 ∷ quoted name) names.now) }
{
    for name in names {
        write_quoted(into, b",", name);
    }
}

/// Points, with commas between them.
fn write_entries(into: &mut Buffer, catalogue: &Catalogue, points: &[Point])
    requires room { HasRoom (320 * length points.now) into.old }
    requires known { AllByRecursion (λ point. point.driver < length catalogue.now.drivers) points.now }
    ensures { PutsAtMost (320 * length points.now) into.old into.new (listed (map (entry_text catalogue.now) (all_seen points.now))) }
{
    if let Some((first, others)) = points.split_first() {
        put_entry(into, catalogue, first);
        put_other_entries(into, catalogue, others);
    }
}

/// Points, with a comma before each.
fn put_other_entries(into: &mut Buffer, catalogue: &Catalogue, points: &[Point])
    requires room { HasRoom (320 * length points.now) into.old }
    requires known { AllByRecursion (λ point. point.driver < length catalogue.now.drivers) points.now }
    ensures { PutsAtMost (320 * length points.now) into.old into.new
        (flat_map (λ point. 44 ∷ entry_text catalogue.now (seen point)) points.now) }
{
    for point in points {
        put_other_entry(into, catalogue, point);
    }
}

/// A point behind a comma.
fn put_other_entry(into: &mut Buffer, catalogue: &Catalogue, point: &Point)
    requires room { HasRoom 320 into.old }
    requires known { point.now.driver < length catalogue.now.drivers }
    ensures { PutsAtMost 320 into.old into.new (44 ∷ entry_text catalogue.now (seen point.now)) }
{
    into.push(b',');
    put_entry(into, catalogue, point);
}

/// A point as the catalogue has it, with the name of its driver.
fn put_entry(into: &mut Buffer, catalogue: &Catalogue, point: &Point)
    requires room { HasRoom 319 into.old }
    requires known { point.now.driver < length catalogue.now.drivers }
    ensures { PutsAtMost 319 into.old into.new (entry_text catalogue.now (seen point.now)) }
{
    write_quoted(into, b"{\"point\":", &point.name);
    into.extend(b",\"kind\":");
    write_kind(into, point.kind);
    write_signed(into, b",\"default\":", point.default);
    write_quoted(into, b",\"driver\":", driver_name(catalogue, point.driver));
    write_times(into, point.min_on, point.min_off);
    into.push(b'}');
}

/// The name of the driver at this place.
fn driver_name(catalogue: &Catalogue, id: DriverId) -> &Name
    requires { id < length catalogue.now.drivers }
    ensures { result.now ≡ slice_index_or catalogue.now.drivers id [] }
{
    catalogue.driver_name(id)
}

/// A kind, with the bounds that belong to it.
fn write_kind(into: &mut Buffer, kind: Kind)
    requires { HasRoom 62 into.old }
    ensures { PutsAtMost 62 into.old into.new (kind_text kind) }
{
    match kind {
        Kind::Analog { min, max } => put_limits(into, min, max),
        Kind::Binary => into.extend(b"\"binary\""),
        Kind::Multi { states } => write_signed(into, b"\"multi\",\"states\":", states),
    }
}

fn put_limits(into: &mut Buffer, min: i64, max: i64)
    requires { HasRoom 62 into.old }
    ensures { PutsAtMost 62 into.old into.new (codes "\"analog\",\"min\":" ++ signed_decimal min ++ codes ",\"max\":" ++ signed_decimal max) }
{
    write_signed(into, b"\"analog\",\"min\":", min);
    write_signed(into, b",\"max\":", max);
}

/// The minimum times, where a point has any.
fn write_times(into: &mut Buffer, on: i64, off: i64)
    requires { HasRoom 61 into.old }
    ensures { PutsAtMost 61 into.old into.new (times_text on off) }
{
    if on != 0 || off != 0 {
        put_times(into, on, off);
    }
}

fn put_times(into: &mut Buffer, on: i64, off: i64)
    requires { HasRoom 61 into.old }
    ensures { PutsAtMost 61 into.old into.new (codes ",\"min_on\":" ++ signed_decimal on ++ codes ",\"min_off\":" ++ signed_decimal off) }
{
    write_signed(into, b",\"min_on\":", on);
    write_signed(into, b",\"min_off\":", off);
}
