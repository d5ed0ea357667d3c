ghost use Rattle.std.specs.Prelude.{◌≡◌};

use boss_outside::Failed;
use std::alloc::AllocError;
use std::error::Error;
use std::fmt;

/// Why a kept state was not read: the first of these that holds.
#[derive(Clone, Copy, Debug, PartialEq, Eq)]
pub enum SnapshotRefusal {
    /// A state of a version that is not known.
    Version { found: u8 },
    /// A state of another catalogue: the digest that it was kept under, and that of the catalogue that was found now.
    Catalogue { kept: [u8; 32], found: [u8; 32] },
    /// At this place stands what no state has: at 49 a number of events of more than 2^62, at 57 a length that leaves no
    /// byte behind the state, at 65 bytes that spell no state of the version.
    Damaged { place: u64 },
    /// The disk failed.
    DiskFault,
    /// No memory was to be had.
    NoMemory,
}

impl fmt::Display for SnapshotRefusal {
    fn fmt<W: fmt::Write>(&self, f: &mut fmt::Formatter<W>) -> fmt::Result {
        f.write_str(match self {
            SnapshotRefusal::Version { .. } => "the version is not known",
            SnapshotRefusal::Catalogue { .. } => "it is a state of another catalogue",
            SnapshotRefusal::Damaged { .. } => "the kept state is damaged",
            SnapshotRefusal::DiskFault => "the disk failed",
            SnapshotRefusal::NoMemory => "out of memory",
        })
    }
}

impl Error for SnapshotRefusal {}

impl From<Failed> for SnapshotRefusal {
    ghost use Rattle.boss_snapshot.specs.declared.refusal.SnapshotRefusal.TheVariants.{DiskFault};

    ghost from_gives = { λ _ refusal. refusal ≡ DiskFault };

    fn from(_failed: Failed) -> Self {
        SnapshotRefusal::DiskFault
    }
}

impl From<AllocError> for SnapshotRefusal {
    ghost use Rattle.boss_snapshot.specs.declared.refusal.SnapshotRefusal.TheVariants.{NoMemory};

    ghost from_gives = { λ _ refusal. refusal ≡ NoMemory };

    fn from(_error: AllocError) -> Self {
        SnapshotRefusal::NoMemory
    }
}
