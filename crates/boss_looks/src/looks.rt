ghost use Rattle.std.specs.Prelude.{◌≡◌, []};
ghost use Rattle.boss_looks.specs.Looks.{asked_by, Checked, IsNext, Takes, forgotten};

use crate::{Kept, Queue};
use boss_model::{Place, PointId};
use boss_outside::Look;
use std::alloc::Global;

/// What is to be done at a moment.
#[derive(Clone, Copy, Debug, PartialEq, Eq)]
pub enum Next {
    /// Nothing is due.
    Nothing,
    /// From now on the moments of a value that was taken are counted.
    Begun,
    /// This point is to be written once more.
    Again { point: PointId },
    /// Its device is to be asked whether it has this value.
    Check { kept: Kept },
}

impl Next {
    /// The value that a device is to be asked for, if one is.
    pub fn asked(&self) -> Option<Kept>
        ensures { result ≡ asked_by self.now }
    {
        match self {
            Next::Check { kept } => Some(*kept),
            Next::Nothing | Next::Begun | Next::Again { .. } => None,
        }
    }
}

/// What a device was found with.
#[derive(Clone, Copy, Debug, PartialEq, Eq)]
pub enum Found {
    /// The value that it took.
    Same,
    /// Another one.
    Other,
    /// It told none.
    Nothing,
}

/// The values that the devices of one driver took, as far as their places say that they are looked after.
#[derive(Debug, Drop)]
pub struct Looks {
    again: Queue,
    check: Queue,
}

impl Looks {
    /// Nothing is looked after. It takes no memory.
    pub fn new(alloc: Global) -> Looks
        ensures again { result.again ≡ [] }
        ensures check { result.check ≡ [] }
    {
        Looks {
            again: Queue::new(alloc),
            check: Queue::new(alloc),
        }
    }

    /// Looks after nothing any more.
    pub fn clear(&mut self)
        ensures again { self.new.again ≡ [] }
        ensures check { self.new.check ≡ [] }
    {
        self.again.clear();
        self.check.clear();
    }

    /// Looks no more after a point.
    pub fn forget(&mut self, point: PointId)
        ensures { self.new ≡ forgotten point self.old }
    {
        self.again.forget(point);
        self.check.forget(point);
    }

    /// Looks after a value from now on that the device at this place took.
    pub fn taken(&mut self, place: Place, value: i64)
        ensures { Takes place value self.old self.new }
    {
        self.again.begin(place.point, value, place.again);
        self.check.begin(place.point, value, place.check);
    }

    /// What is to be done at this moment. A point that is to be written once more is looked after no more until its device took a value.
    pub fn next(&mut self, now: u64) -> Next
        ensures { IsNext now self.old self.new result }
    {
        if let Some(kept) = self.again.due(now) {
            if kept.at.is_none() {
                self.again.put_off(kept, now);
                return Next::Begun;
            }
            self.forget(kept.point);
            return Next::Again { point: kept.point };
        }
        let Some(kept) = self.check.due(now) else {
            return Next::Nothing;
        };
        if kept.at.is_none() {
            self.check.put_off(kept, now);
            return Next::Begun;
        }
        Next::Check { kept }
    }

    /// What follows of what a device was found with. One that has another value, or tells none, is looked after no more until it took one.
    pub fn checked(&mut self, kept: Kept, found: Found, now: u64) -> Look
        ensures { Checked now kept found self.old self.new result }
    {
        let differs = match found {
            Found::Same => {
                self.check.put_off(kept, now);
                return Look::Seen;
            }
            Found::Other => true,
            Found::Nothing => false,
        };
        self.forget(kept.point);
        Look::Doubt {
            point: kept.point,
            differs,
        }
    }

    /// For how many milliseconds from this moment on nothing is due; `2 ^ 64 - 1` where nothing is looked after.
    pub fn rests(&self, now: u64) -> u64 {
        self.again.rests(now).min(self.check.rests(now))
    }
}
