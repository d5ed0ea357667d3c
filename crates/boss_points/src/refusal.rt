ghost use Rattle.boss_points.specs.declared.refusal.CatalogueRefusal.TheVariants.{NoMemory};
ghost use Rattle.std.specs.Prelude.{◌≡◌};

use boss_model::LONGEST_FILE;
use std::alloc::{AllocError, AllocFailed};
use std::error::Error;
use std::fmt;

/// Why a file was refused as a catalogue. The first test that fails decides, and in it the least place; places count
/// from 0.
#[derive(Clone, Copy, Debug, PartialEq, Eq)]
pub enum CatalogueRefusal {
    /// The file has more than 1,048,576 bytes.
    TooLong {
        /// How many it has.
        length: u64,
    },
    /// The bytes are no TOML.
    NotToml,
    /// There is no array under this key.
    Missing {
        /// The key.
        key: Key,
    },
    /// There are more than 256 drivers, or else more than 4,096 points.
    TooMany {
        /// How many there are.
        count: u64,
    },
    /// The driver at this place is no text, no name, or has the name of an earlier one.
    BadDriver {
        /// Its place among the drivers.
        place: u64,
    },
    /// The point at this place is no table, or its `name` is no text or no name.
    BadName {
        /// Its place among the points.
        place: u64,
    },
    /// The point at this place has the name of an earlier one.
    SameName {
        /// Its place among the points.
        place: u64,
    },
    /// The point at this place has no kind, or one without the bounds that belong to it.
    BadKind {
        /// Its place among the points.
        place: u64,
    },
    /// The `default` of the point at this place is no whole number, or does not fit its kind.
    BadDefault {
        /// Its place among the points.
        place: u64,
    },
    /// The `driver` of the point at this place is no text, or none of the drivers.
    UnknownDriver {
        /// Its place among the points.
        place: u64,
    },
    /// The point at this place has `min_on` or `min_off`, and that is no whole number of 0 to 86,400,000, or the point is
    /// not binary.
    BadTimes {
        /// Its place among the points.
        place: u64,
    },
    /// No memory was to be had. This says nothing of the file.
    NoMemory,
}

/// A key of the file that has to have an array.
#[derive(Clone, Copy, Debug, PartialEq, Eq)]
pub enum Key {
    /// `drivers`, the names of the drivers.
    Drivers,
    /// `point`, the tables of the points.
    Point,
}

impl fmt::Display for CatalogueRefusal {
    fn fmt<W: fmt::Write>(&self, f: &mut fmt::Formatter<W>) -> fmt::Result {
        match self {
            CatalogueRefusal::TooLong { length } => write!(
                f,
                "the catalogue has {length} bytes, more than {LONGEST_FILE}"
            ),
            CatalogueRefusal::NotToml => f.write_str("the catalogue is no TOML"),
            CatalogueRefusal::Missing { key } => {
                write!(f, "the catalogue has no array under the key {key}")
            }
            CatalogueRefusal::TooMany { count } => write!(
                f,
                "the catalogue has {count} drivers or points, more than there may be"
            ),
            CatalogueRefusal::BadDriver { place } => write!(
                f,
                "the driver at place {place} is no name, or has the name of an earlier one"
            ),
            CatalogueRefusal::BadName { place } => {
                write!(f, "the point at place {place} has no name")
            }
            CatalogueRefusal::SameName { place } => write!(
                f,
                "the point at place {place} has the name of an earlier one"
            ),
            CatalogueRefusal::BadKind { place } => write!(
                f,
                "the point at place {place} has no kind, or not the bounds of its kind"
            ),
            CatalogueRefusal::BadDefault { place } => write!(
                f,
                "the point at place {place} has no default that fits its kind"
            ),
            CatalogueRefusal::UnknownDriver { place } => write!(
                f,
                "the point at place {place} has none of the drivers"
            ),
            CatalogueRefusal::BadTimes { place } => write!(
                f,
                "the point at place {place} has a minimum time that it may not have"
            ),
            CatalogueRefusal::NoMemory => f.write_str("out of memory"),
        }
    }
}

impl Error for CatalogueRefusal {}

impl fmt::Display for Key {
    fn fmt<W: fmt::Write>(&self, f: &mut fmt::Formatter<W>) -> fmt::Result {
        f.write_str(match self {
            Key::Drivers => "drivers",
            Key::Point => "point",
        })
    }
}

impl From<AllocError> for CatalogueRefusal {
    ghost from_gives = { λ _ refusal. refusal ≡ NoMemory };

    fn from(_error: AllocError) -> Self {
        CatalogueRefusal::NoMemory
    }
}

impl<T: Drop> From<AllocFailed<T>> for CatalogueRefusal {
    ghost from_gives = { λ _ refusal. refusal ≡ NoMemory };

    fn from(_failed: AllocFailed<T>) -> Self {
        CatalogueRefusal::NoMemory
    }
}
