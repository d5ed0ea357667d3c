ghost use Rattle.std.specs.Prelude.{◌≡◌};

use boss_journal::OpenRefusal;
use boss_outside::Failed;
use boss_snapshot::SnapshotRefusal;
use std::error::Error;
use std::fmt;

/// Why a pair of disks was not opened: the first of these that holds. All but the first are said of the disk in force.
#[derive(Clone, Copy, Debug, PartialEq, Eq)]
pub enum DurableRefusal {
    /// A disk holds bytes that this program did not write; or the second holds a journal from the first state on; or there is no
    /// journal, and the first disk holds more than a new one.
    NotAJournal,
    /// A journal of a version that is not known.
    Version { found: u8 },
    /// A journal of another catalogue: the digest that it was kept under, and that of the catalogue that was found now.
    Catalogue { kept: [u8; 32], found: [u8; 32] },
    /// At this place stands what no journal has: at 49 a number of events of more than 2^62, at 57 a length that leaves no place
    /// for a gate, at 65 a state that is none; and else an open gate without a record behind it that leads on.
    Damaged { place: u64 },
    /// A disk failed.
    DiskFault,
    /// No memory was to be had.
    NoMemory,
}

impl fmt::Display for DurableRefusal {
    fn fmt<W: fmt::Write>(&self, f: &mut fmt::Formatter<W>) -> fmt::Result {
        f.write_str(match self {
            DurableRefusal::NotAJournal => "the disks hold no journal",
            DurableRefusal::Version { .. } => "the version is not known",
            DurableRefusal::Catalogue { .. } => "it is a journal of another catalogue",
            DurableRefusal::Damaged { .. } => "the journal is damaged",
            DurableRefusal::DiskFault => "a disk failed",
            DurableRefusal::NoMemory => "out of memory",
        })
    }
}

impl Error for DurableRefusal {}

impl From<Failed> for DurableRefusal {
    ghost use Rattle.boss_pair_find.specs.declared.refusal.DurableRefusal.TheVariants.{DiskFault};

    ghost from_gives = { λ _ refusal. refusal ≡ DiskFault };

    fn from(_failed: Failed) -> Self {
        DurableRefusal::DiskFault
    }
}

impl From<SnapshotRefusal> for DurableRefusal {
    ghost use Rattle.boss_pair_find.specs.Refusals.{of_state};

    ghost from_gives = { λ refused refusal. refusal ≡ of_state refused };

    fn from(refused: SnapshotRefusal) -> Self {
        match refused {
            SnapshotRefusal::Version { found } => DurableRefusal::Version { found },
            SnapshotRefusal::Catalogue { kept, found } => DurableRefusal::Catalogue { kept, found },
            SnapshotRefusal::Damaged { place } => DurableRefusal::Damaged { place },
            SnapshotRefusal::DiskFault => DurableRefusal::DiskFault,
            SnapshotRefusal::NoMemory => DurableRefusal::NoMemory,
        }
    }
}

impl From<OpenRefusal> for DurableRefusal {
    ghost use Rattle.boss_pair_find.specs.Refusals.{of_journal};

    ghost from_gives = { λ refused refusal. refusal ≡ of_journal refused };

    fn from(refused: OpenRefusal) -> Self {
        match refused {
            OpenRefusal::NotAJournal => DurableRefusal::NotAJournal,
            OpenRefusal::Version { found } => DurableRefusal::Version { found },
            OpenRefusal::Catalogue { kept, found } => DurableRefusal::Catalogue { kept, found },
            OpenRefusal::DiskFault => DurableRefusal::DiskFault,
        }
    }
}
