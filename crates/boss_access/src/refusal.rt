ghost use Rattle.boss_access.specs.declared.refusal.RulesRefusal.TheVariants.{NoMemory};
ghost use Rattle.std.specs.Prelude.{◌≡◌};

use crate::MOST_RULES;
use boss_model::LONGEST_FILE;
use std::alloc::{AllocError, AllocFailed};
use std::error::Error;
use std::fmt;

/// Why a file was refused as access rules. The first test that fails decides.
#[derive(Clone, Copy, Debug, PartialEq, Eq)]
pub enum RulesRefusal {
    /// The file has more than 1,048,576 bytes.
    TooLong {
        /// How many it has.
        length: u64,
    },
    /// The bytes are no TOML.
    NotToml,
    /// There is no array under the key `rule`.
    Missing,
    /// There are more than 256 rules.
    TooMany {
        /// How many there are.
        count: u64,
    },
    /// This is the first rule that is none: its `process` or its `point` is no name and no text of up to 63 characters of
    /// names with a `*` behind them, its `highest` is no whole number of 1 to 16, its `allow` is neither true nor false, or
    /// it has another key.
    BadRule {
        /// Its place among the rules, from 1.
        place: u64,
    },
    /// No memory was to be had. This says nothing of the file.
    NoMemory,
}

impl fmt::Display for RulesRefusal {
    fn fmt<W: fmt::Write>(&self, f: &mut fmt::Formatter<W>) -> fmt::Result {
        match self {
            RulesRefusal::TooLong { length } => write!(
                f,
                "the access rules have {length} bytes, more than {LONGEST_FILE}"
            ),
            RulesRefusal::NotToml => f.write_str("the access rules are no TOML"),
            RulesRefusal::Missing => {
                f.write_str("the access rules have no array under the key rule")
            }
            RulesRefusal::TooMany { count } => {
                write!(f, "there are {count} access rules, more than {MOST_RULES}")
            }
            RulesRefusal::BadRule { place } => write!(
                f,
                "the access rule {place} is none: its process, point, highest or allow is of another form, or it has another key"
            ),
            RulesRefusal::NoMemory => f.write_str("out of memory"),
        }
    }
}

impl Error for RulesRefusal {}

impl From<AllocError> for RulesRefusal {
    ghost from_gives = { λ _ refusal. refusal ≡ NoMemory };

    fn from(_error: AllocError) -> Self {
        RulesRefusal::NoMemory
    }
}

impl<T: Drop> From<AllocFailed<T>> for RulesRefusal {
    ghost from_gives = { λ _ refusal. refusal ≡ NoMemory };

    fn from(_failed: AllocFailed<T>) -> Self {
        RulesRefusal::NoMemory
    }
}
