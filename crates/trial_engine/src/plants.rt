//! The plants of the trials.

use boss_load::load_catalogue;
use boss_points::Catalogue;
use std::alloc::Global;
use std::process::Abort;

/// The catalogue that a file spells.
pub fn plant(rt: &impl Abort, alloc: Global, file: &[u8]) -> Catalogue {
    match Catalogue::read(alloc, file) {
        Ok(catalogue) => catalogue,
        Err(_) => panic!(rt; "no catalogue"),
    }
}

/// The catalogue of the generated day.
pub fn plant_of_the_day(rt: &impl Abort, alloc: Global) -> Catalogue {
    let file = load_catalogue(alloc).expect(rt, "memory");
    plant(rt, alloc, file.slice())
}
