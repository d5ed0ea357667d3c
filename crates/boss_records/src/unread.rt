ghost use Rattle.std.specs.Prelude.{◌≡◌};

use boss_model::NoMemory;
use std::alloc::{AllocError, AllocFailed};
use std::error::Error;
use std::fmt;

/// The bytes begin with no value of the kind that was asked for.
#[derive(Clone, Copy, Debug, PartialEq, Eq)]
pub struct NoSpelling;

impl fmt::Display for NoSpelling {
    fn fmt<W: fmt::Write>(&self, f: &mut fmt::Formatter<W>) -> fmt::Result {
        f.write_str("the bytes spell no such value")
    }
}

impl Error for NoSpelling {}

/// Why nothing was read.
#[derive(Clone, Copy, Debug, PartialEq, Eq)]
pub enum Unread {
    /// The bytes begin with no value of the kind that was asked for.
    NoSpelling,
    /// No memory was to be had for the value. Nothing is said of the bytes.
    NoMemory,
}

impl fmt::Display for Unread {
    fn fmt<W: fmt::Write>(&self, f: &mut fmt::Formatter<W>) -> fmt::Result {
        match *self {
            Unread::NoSpelling => f.write_str("the bytes spell no such value"),
            Unread::NoMemory => f.write_str("out of memory"),
        }
    }
}

impl Error for Unread {}

impl From<NoSpelling> for Unread {
    ghost use Rattle.boss_records.specs.declared.unread.Unread.TheVariants.{NoSpelling};

    ghost from_gives = { λ _ unread. unread ≡ NoSpelling };

    fn from(_none: NoSpelling) -> Self {
        Unread::NoSpelling
    }
}

impl From<NoMemory> for Unread {
    ghost use Rattle.boss_records.specs.declared.unread.Unread.TheVariants.{NoMemory};

    ghost from_gives = { λ _ unread. unread ≡ NoMemory };

    fn from(_error: NoMemory) -> Self {
        Unread::NoMemory
    }
}

impl From<AllocError> for Unread {
    ghost use Rattle.boss_records.specs.declared.unread.Unread.TheVariants.{NoMemory};

    ghost from_gives = { λ _ unread. unread ≡ NoMemory };

    fn from(_error: AllocError) -> Self {
        Unread::NoMemory
    }
}

impl<T: Drop> From<AllocFailed<T>> for Unread {
    ghost use Rattle.boss_records.specs.declared.unread.Unread.TheVariants.{NoMemory};

    ghost from_gives = { λ _ unread. unread ≡ NoMemory };

    fn from(_failed: AllocFailed<T>) -> Self {
        Unread::NoMemory
    }
}
