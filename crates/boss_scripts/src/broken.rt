ghost use Rattle.std.specs.Prelude.{◌≡◌};
ghost use Rattle.boss_scripts.specs.declared.broken.Broken.TheVariants as broken;

use boss_model::NoMemory;
use boss_outside::Failed;

/// Why a script broke off.
#[derive(Clone, Copy, Debug, PartialEq, Eq)]
pub enum Broken {
    /// A write failed.
    WriteFault,
    /// No memory was to be had.
    NoMemory,
}

impl From<NoMemory> for Broken {
    ghost from_gives = { λ _ gives. gives ≡ broken.NoMemory };

    fn from(_error: NoMemory) -> Self {
        Broken::NoMemory
    }
}

impl From<Failed> for Broken {
    ghost from_gives = { λ _ gives. gives ≡ broken.WriteFault };

    fn from(_failed: Failed) -> Self {
        Broken::WriteFault
    }
}
