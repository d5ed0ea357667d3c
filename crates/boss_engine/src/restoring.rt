//! What outlasted a stop is put back.

ghost use Rattle.std.specs.Prelude.{◌≡◌, ◌≤◌, length, IfOk};
ghost use Rattle.boss_model.specs.Limits.{most_points};
ghost use Rattle.boss_model.specs.Seen.{seen};
ghost use Rattle.boss_model.specs.Sound.{IsSoundPersistent};
ghost use Rattle.boss_engine.specs.Inside.{HasPlaces};
ghost use Rattle.boss_persistent.specs.Lasting.{persistent_of};

use crate::machine::{Machine, TOLD_OF_A_POINT, devices_of};
use boss_marks::Marks;
use boss_model::{Actuator, Kept, MOST_PROCESSES, NoMemory};
use boss_persistent::Lasting;
use std::alloc::Global;
use std::error::Error;
use std::fmt;

/// Why no engine was made of what was kept.
#[derive(Clone, Copy, Debug, PartialEq, Eq)]
pub enum RestoreRefusal {
    /// What was kept is not sound over the catalogue's points: no run of commands leaves it.
    NotSound,
    /// No memory was to be had for it. Nothing is said of what was kept.
    NoMemory,
}

impl fmt::Display for RestoreRefusal {
    fn fmt<W: fmt::Write>(&self, f: &mut fmt::Formatter<W>) -> fmt::Result {
        match *self {
            RestoreRefusal::NotSound => f.write_str("what was kept is no sound state"),
            RestoreRefusal::NoMemory => f.write_str("out of memory"),
        }
    }
}

impl Error for RestoreRefusal {}

impl From<NoMemory> for RestoreRefusal {
    ghost use Rattle.boss_engine.specs.declared.restoring.RestoreRefusal.TheVariants as refusal;

    ghost from_gives = { λ _ given. given ≡ refusal.NoMemory };

    fn from(_error: NoMemory) -> Self {
        RestoreRefusal::NoMemory
    }
}

impl Machine {
    /// The machine of a plant with what outlasted a stop, whose points are not open yet, with room for what its commands do.
    pub fn put_back(alloc: Global, plant: &[Actuator], kept: &Kept) -> Result<Machine, NoMemory>
        requires few { length plant.now ≤ most_points }
        requires sound { IsSoundPersistent plant.now (seen kept.now) }
        ensures persistent { IfOk result (λ machine. persistent_of machine.lasting ≡ seen kept.entry.now) }
        ensures ready { IfOk result (HasPlaces plant.now) }
    {
        Ok(Machine {
            alloc,
            lasting: Lasting::put_back(alloc, plant.len() as u32, kept)?,
            attached: Vec::with_capacity(alloc, MOST_PROCESSES)?,
            marks: Marks::new(alloc, &devices_of(alloc, plant)?)?,
            told: Vec::with_capacity(alloc, plant.len() * TOLD_OF_A_POINT + 1)?,
        })
    }
}
