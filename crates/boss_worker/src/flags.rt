ghost use Rattle.std.specs.Prelude.{◌≡◌};
ghost use Rattle.boss_worker.specs.Troubles.{no_flags, flags_after, both_flags, failed_host};

use crate::Trouble;

/// What went wrong at the workers of a server.
#[derive(Clone, Copy, Debug, PartialEq, Eq)]
pub struct Flags {
    /// The disk has failed.
    pub disk: bool,
    /// A connection could not be accepted.
    pub host: bool,
    /// The clock failed.
    pub clock: bool,
    /// No memory was to be had.
    pub memory: bool,
}

impl Flags {
    /// Nothing yet.
    pub fn none() -> Flags
        ensures { result ≡ no_flags }
    {
        Flags {
            disk: false,
            host: false,
            clock: false,
            memory: false,
        }
    }

    /// These, and what of an end concerns the server.
    pub fn after(self, trouble: Trouble) -> Flags
        ensures { result ≡ flags_after trouble self }
    {
        match trouble {
            Trouble::Nothing => self,
            Trouble::Disk => Flags { disk: true, ..self },
            Trouble::Clock => Flags {
                clock: true,
                ..self
            },
            Trouble::Memory => Flags {
                memory: true,
                ..self
            },
        }
    }

    /// These, and that a connection could not be accepted.
    pub fn with_failed_host(self) -> Flags
        ensures { result ≡ failed_host self }
    {
        Flags { host: true, ..self }
    }

    /// What went wrong at the one or at the other.
    pub fn with(self, other: Flags) -> Flags
        ensures { result ≡ both_flags self other }
    {
        Flags {
            disk: self.disk || other.disk,
            host: self.host || other.host,
            clock: self.clock || other.clock,
            memory: self.memory || other.memory,
        }
    }
}
