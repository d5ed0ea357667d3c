ghost use Rattle.std.specs.Prelude.{◌≡◌};
ghost use Rattle.boss_feeding.specs.declared.untold.Untold.TheVariants as untold;

use boss_model::NoMemory;
use boss_outside::Failed;

/// Why lines were not told.
#[derive(Clone, Copy, Debug, PartialEq, Eq)]
pub enum Untold {
    /// The sink failed.
    WriteFault,
    /// No memory was to be had for a line.
    NoMemory,
}

impl From<NoMemory> for Untold {
    ghost from_gives = { λ _ why. why ≡ untold.NoMemory };

    fn from(_error: NoMemory) -> Self {
        Untold::NoMemory
    }
}

impl From<Failed> for Untold {
    ghost from_gives = { λ _ why. why ≡ untold.WriteFault };

    fn from(_failed: Failed) -> Self {
        Untold::WriteFault
    }
}
