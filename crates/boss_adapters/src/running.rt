//! Where the one clock of all workers stands, and how far the wall clock is from it.

ghost use Rattle.std.specs.Prelude.{◌≤◌};
ghost use Rattle.boss_model.specs.Limits.{last_moment};

use boss_slew::{Reading, Slew};

/// The milliseconds from which on the wall clock counts as far away.
const FAR: u64 = 60_000;

/// The milliseconds below which it counts as back.
const NEAR: u64 = 10_000;

/// What is new of the way from the clock's moment to the wall clock's, with its length in milliseconds.
#[derive(Clone, Copy)]
pub enum News {
    None,
    /// The wall clock is far behind.
    Behind(u64),
    /// The wall clock is far ahead.
    Ahead(u64),
    /// The wall clock is near again.
    Near,
}

/// A clock that begins with the first reading after it was told from which moment on.
#[derive(Drop)]
pub struct Running {
    /// The moment, in milliseconds since 1970, before which it does not begin.
    least: u64,
    slew: Option<Slew>,
    /// It was said that the wall clock is far away, and not that it is back.
    is_far: bool,
}

impl Running {
    /// A clock that begins at any moment.
    pub fn new() -> Running {
        Running::from(0)
    }

    /// A clock that begins no earlier than this.
    pub fn from(least: u64) -> Running {
        Running {
            least,
            slew: None,
            is_far: false,
        }
    }

    /// The moment at this reading.
    pub fn advance(&mut self, reading: &Reading) -> u64
        ensures { result ≤ last_moment }
    {
        if let Some(slew) = &mut self.slew {
            return slew.advance(reading);
        }
        let slew = Slew::start(self.least, reading);
        let moment = slew.moment();
        self.slew = Some(slew);
        moment
    }

    /// Notes how far the wall clock is from this moment, and gives what is new of that. Where the wall clock says nothing, nothing is.
    pub fn note(&mut self, wall: Option<u64>, moment: u64) -> News {
        let Some(wall) = wall else {
            return News::None;
        };
        let gap = wall.abs_diff(moment);
        if self.is_far && gap < NEAR {
            self.is_far = false;
            return News::Near;
        }
        if self.is_far || gap < FAR {
            return News::None;
        }
        self.is_far = true;
        if wall < moment {
            News::Behind(gap)
        } else {
            News::Ahead(gap)
        }
    }
}
