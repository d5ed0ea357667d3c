ghost use Rattle.std.specs.Prelude.{◌≡◌};

use boss_adopting::AdoptRefusal;
use std::error::Error;
use std::fmt;

/// Why no changed catalogue was adopted: the first of these that holds. After all but a fault of a disk everything is as it was.
#[derive(Debug, Drop)]
pub enum AdoptFault {
    /// The state cannot be adopted. Here this is never want of memory.
    Refused(AdoptRefusal),
    /// A disk failed in an earlier call.
    Stopped,
    /// A disk failed in this call.
    DiskFault,
    /// No memory was to be had. This says nothing of the state.
    NoMemory,
}

impl fmt::Display for AdoptFault {
    fn fmt<W: fmt::Write>(&self, f: &mut fmt::Formatter<W>) -> fmt::Result {
        match self {
            AdoptFault::Refused(refusal) => write!(f, "{refusal}"),
            AdoptFault::Stopped => f.write_str("a disk failed in an earlier call"),
            AdoptFault::DiskFault => f.write_str("a disk failed"),
            AdoptFault::NoMemory => f.write_str("out of memory"),
        }
    }
}

impl Error for AdoptFault {}

impl From<AdoptRefusal> for AdoptFault {
    ghost use Rattle.boss_changing.specs.Adoptions.{of_refusal};

    ghost from_gives = { λ refused fault. fault ≡ of_refusal refused };

    fn from(refused: AdoptRefusal) -> Self {
        match refused {
            AdoptRefusal::NoMemory => AdoptFault::NoMemory,
            refusal => AdoptFault::Refused(refusal),
        }
    }
}
