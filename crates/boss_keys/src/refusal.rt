ghost use Rattle.boss_keys.specs.declared.refusal.KeysRefusal.TheVariants.{NoMemory};
ghost use Rattle.std.specs.Prelude.{◌≡◌};

use crate::{MOST_ENTRIES, MOST_RESERVE};
use boss_model::LONGEST_FILE;
use std::alloc::{AllocError, AllocFailed};
use std::error::Error;
use std::fmt;

/// Why a file was refused as one of keys. The first test that fails decides.
#[derive(Clone, Copy, Debug, PartialEq, Eq)]
pub enum KeysRefusal {
    /// The file has more than 1,048,576 bytes.
    TooLong {
        /// How many it has.
        length: u64,
    },
    /// The bytes are no TOML.
    NotToml,
    /// There is no array under the key `key`.
    Missing,
    /// There are more than 512 entries.
    TooMany {
        /// How many there are.
        count: u64,
    },
    /// This is the first entry that is none: its `process` is no name and no text of up to 63 characters of names with a
    /// `*` behind them, its `sha256` is no text of 64 of `0-9a-f`, or it has another key.
    BadKey {
        /// Its place among the entries, from 1.
        place: u64,
    },
    /// `reserve` is no whole number from 0 to 1,024.
    BadReserve,
    /// No memory was to be had. This says nothing of the file.
    NoMemory,
}

impl fmt::Display for KeysRefusal {
    fn fmt<W: fmt::Write>(&self, f: &mut fmt::Formatter<W>) -> fmt::Result {
        match self {
            KeysRefusal::TooLong { length } => write!(
                f,
                "the file of keys has {length} bytes, more than {LONGEST_FILE}"
            ),
            KeysRefusal::NotToml => f.write_str("the file of keys is no TOML"),
            KeysRefusal::Missing => f.write_str("the file of keys has no array under the key key"),
            KeysRefusal::TooMany { count } => {
                write!(f, "there are {count} keys, more than {MOST_ENTRIES}")
            }
            KeysRefusal::BadKey { place } => write!(
                f,
                "the key {place} is none: its process or sha256 is of another form, or it has another key"
            ),
            KeysRefusal::BadReserve => write!(
                f,
                "reserve is no whole number from 0 to {MOST_RESERVE}"
            ),
            KeysRefusal::NoMemory => f.write_str("out of memory"),
        }
    }
}

impl Error for KeysRefusal {}

impl From<AllocError> for KeysRefusal {
    ghost from_gives = { λ _ refusal. refusal ≡ NoMemory };

    fn from(_error: AllocError) -> Self {
        KeysRefusal::NoMemory
    }
}

impl<T: Drop> From<AllocFailed<T>> for KeysRefusal {
    ghost from_gives = { λ _ refusal. refusal ≡ NoMemory };

    fn from(_failed: AllocFailed<T>) -> Self {
        KeysRefusal::NoMemory
    }
}
