ghost use Rattle.std.specs.Prelude.{◌≡◌};

use boss_outside::Failed;
use std::error::Error;
use std::fmt;

/// Why a journal was not opened: the first of these that holds.
#[derive(Clone, Copy, Debug, PartialEq, Eq)]
pub enum OpenRefusal {
    /// The bytes are neither new nor a journal's.
    NotAJournal,
    /// A journal of a version that is not known.
    Version { found: u8 },
    /// A journal of another catalogue: the digest that it was kept under, and that of the catalogue that was found now.
    Catalogue { kept: [u8; 32], found: [u8; 32] },
    /// The disk failed.
    DiskFault,
}

impl fmt::Display for OpenRefusal {
    fn fmt<W: fmt::Write>(&self, f: &mut fmt::Formatter<W>) -> fmt::Result {
        f.write_str(match self {
            OpenRefusal::NotAJournal => "the bytes are no journal",
            OpenRefusal::Version { .. } => "the version is not known",
            OpenRefusal::Catalogue { .. } => "it is a journal of another catalogue",
            OpenRefusal::DiskFault => "the disk failed",
        })
    }
}

impl Error for OpenRefusal {}

impl From<Failed> for OpenRefusal {
    ghost use Rattle.boss_journal.specs.declared.refusal.OpenRefusal.TheVariants.{DiskFault};

    ghost from_gives = { λ _ refusal. refusal ≡ DiskFault };

    fn from(_failed: Failed) -> Self {
        OpenRefusal::DiskFault
    }
}
