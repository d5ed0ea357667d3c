ghost use Rattle.std.specs.Prelude.{◌≡◌};
ghost use Rattle.boss_feeding.specs.declared.fault.FeedFault.TheVariants.{Refused};
ghost use Rattle.boss_feeding.specs.Faults.{of_untold};
ghost use Rattle.boss_pair_find.specs.declared.refusal.DurableRefusal.TheVariants as refusal;

use crate::untold::Untold;
use boss_model::NoMemory;
use boss_outside::Failed;
use boss_pair_find::DurableRefusal;
use std::error::Error;
use std::fmt;

/// Why a feed was not told to its end.
#[derive(Clone, Copy, Debug, PartialEq, Eq)]
pub enum FeedFault {
    /// The pair was refused, a disk failed, or no memory was to be had, as a check tells it.
    Refused(DurableRefusal),
    /// The sink failed.
    WriteFault,
}

impl fmt::Display for FeedFault {
    fn fmt<W: fmt::Write>(&self, f: &mut fmt::Formatter<W>) -> fmt::Result {
        match self {
            FeedFault::Refused(refusal) => write!(f, "{refusal}"),
            FeedFault::WriteFault => f.write_str("a write failed"),
        }
    }
}

impl Error for FeedFault {}

impl From<DurableRefusal> for FeedFault {
    ghost from_gives = { λ why fault. fault ≡ Refused why };

    fn from(why: DurableRefusal) -> Self {
        FeedFault::Refused(why)
    }
}

/// A disk failed.
impl From<Failed> for FeedFault {
    ghost from_gives = { λ _ fault. fault ≡ Refused refusal.DiskFault };

    fn from(_failed: Failed) -> Self {
        FeedFault::Refused(DurableRefusal::DiskFault)
    }
}

impl From<NoMemory> for FeedFault {
    ghost from_gives = { λ _ fault. fault ≡ Refused refusal.NoMemory };

    fn from(_error: NoMemory) -> Self {
        FeedFault::Refused(DurableRefusal::NoMemory)
    }
}

impl From<Untold> for FeedFault {
    ghost from_gives = { λ why fault. fault ≡ of_untold why };

    fn from(why: Untold) -> Self {
        match why {
            Untold::WriteFault => FeedFault::WriteFault,
            Untold::NoMemory => FeedFault::Refused(DurableRefusal::NoMemory),
        }
    }
}
