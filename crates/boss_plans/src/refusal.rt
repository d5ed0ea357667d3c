ghost use Rattle.boss_plans.specs.declared.refusal.PlanRefusal.TheVariants.{NoMemory};
ghost use Rattle.std.specs.Prelude.{◌≡◌};

use boss_model::{LONGEST_FILE, PointId};
use std::alloc::{AllocError, AllocFailed};
use std::error::Error;
use std::fmt;

/// Why a file was refused as a plan. The first test that fails decides, and in it the least place or point; both count
/// from 0.
#[derive(Clone, Copy, Debug, PartialEq, Eq)]
pub enum PlanRefusal {
    /// The file has more than 1,048,576 bytes.
    TooLong {
        /// How many it has.
        length: u64,
    },
    /// The bytes are no TOML.
    NotToml,
    /// There is no array under this key.
    Missing {
        /// The key.
        key: PlanKey,
    },
    /// The driver at this place is none of the catalogue, stands twice, has no `host` of 1 to 255 bytes, speaks neither of the two protocols,
    /// or has a `wait`, `tries`, `check` or `again` out of its bounds.
    BadDriver {
        /// Its place among the drivers.
        place: u64,
    },
    /// The place at this place is of no such form, is of no point of a planned driver, or of one that has a place
    /// already, has a key that its form or its driver's protocol has not, or does not suit the values of its point.
    BadPlace {
        /// Its place among the places.
        place: u64,
    },
    /// This point of a planned driver has no place.
    NoPlace {
        /// The point.
        point: PointId,
    },
    /// No memory was to be had. This says nothing of the file.
    NoMemory,
}

/// A key of the file that has to have an array.
#[derive(Clone, Copy, Debug, PartialEq, Eq)]
pub enum PlanKey {
    /// `driver`, the tables of the drivers.
    Driver,
    /// `place`, the tables of the places.
    Place,
}

impl fmt::Display for PlanRefusal {
    fn fmt<W: fmt::Write>(&self, f: &mut fmt::Formatter<W>) -> fmt::Result {
        match self {
            PlanRefusal::TooLong { length } => {
                write!(f, "the plan has {length} bytes, more than {LONGEST_FILE}")
            }
            PlanRefusal::NotToml => f.write_str("the plan is no TOML"),
            PlanRefusal::Missing { key } => {
                write!(f, "the plan has no array under the key {key}")
            }
            PlanRefusal::BadDriver { place } => write!(
                f,
                "the driver at place {place} is none of the catalogue, stands twice, or has no host, or a value out of its bounds"
            ),
            PlanRefusal::BadPlace { place } => write!(
                f,
                "the place at place {place} is no place of a point, or does not suit it"
            ),
            PlanRefusal::NoPlace { point } => {
                write!(
                    f,
                    "the point at place {} of the catalogue has no place",
                    point.0
                )
            }
            PlanRefusal::NoMemory => f.write_str("out of memory"),
        }
    }
}

impl Error for PlanRefusal {}

impl fmt::Display for PlanKey {
    fn fmt<W: fmt::Write>(&self, f: &mut fmt::Formatter<W>) -> fmt::Result {
        f.write_str(match self {
            PlanKey::Driver => "driver",
            PlanKey::Place => "place",
        })
    }
}

impl From<AllocError> for PlanRefusal {
    ghost from_gives = { λ _ refusal. refusal ≡ NoMemory };

    fn from(_error: AllocError) -> Self {
        PlanRefusal::NoMemory
    }
}

impl<T: Drop> From<AllocFailed<T>> for PlanRefusal {
    ghost from_gives = { λ _ refusal. refusal ≡ NoMemory };

    fn from(_failed: AllocFailed<T>) -> Self {
        PlanRefusal::NoMemory
    }
}
