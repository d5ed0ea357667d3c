//! Which point a catalogue was refused for.

use boss_files::{FileBytes, Files};
use boss_model::LONGEST_FILE;
use boss_points::{Catalogue, CatalogueRefusal};
use std::alloc::Global;
use toml::Value;

/// The name of the point for which the catalogue of a file is refused, as far as it has one. The file is read once more.
pub fn refused_point<F: Files>(alloc: Global, files: &mut F, name: &str) -> Option<String> {
    match files.read(alloc, name, LONGEST_FILE as u64) {
        Ok(FileBytes::Whole(bytes)) => named(alloc, bytes.slice()),
        Ok(FileBytes::Longer { .. }) => None,
        Err(_) => None,
    }
}

/// The name of the point for which a catalogue of these bytes is refused.
fn named(alloc: Global, bytes: &[u8]) -> Option<String> {
    let place = place_of(alloc, bytes)?;
    let text = str::from_utf8(bytes).ok()?;
    match toml::table_from_str(alloc, text) {
        Ok(table) => copied(alloc, name_at(&Value::Table(table), place)),
        Err(_) => None,
    }
}

/// The place of that point, where it is refused for a point.
fn place_of(alloc: Global, bytes: &[u8]) -> Option<u64> {
    match Catalogue::read(alloc, bytes) {
        Ok(_) => None,
        Err(refusal) => point_of(refusal),
    }
}

fn point_of(refusal: CatalogueRefusal) -> Option<u64> {
    match refusal {
        CatalogueRefusal::BadName { place }
        | CatalogueRefusal::SameName { place }
        | CatalogueRefusal::BadKind { place }
        | CatalogueRefusal::BadDefault { place }
        | CatalogueRefusal::UnknownDriver { place }
        | CatalogueRefusal::BadTimes { place } => Some(place),
        CatalogueRefusal::TooLong { .. }
        | CatalogueRefusal::NotToml
        | CatalogueRefusal::Missing { .. }
        | CatalogueRefusal::TooMany { .. }
        | CatalogueRefusal::BadDriver { .. }
        | CatalogueRefusal::NoMemory => None,
    }
}

/// The name of the point at this place of a file, if it has one.
fn name_at(file: &Value, place: u64) -> Option<&str> {
    let points = file.get("point")?.as_array()?;
    let point = points.get(place as usize)?;
    point.get("name")?.as_str()
}

fn copied(alloc: Global, name: Option<&str>) -> Option<String> {
    match name {
        Some(name) => String::from_str(alloc, name).ok(),
        None => None,
    }
}
