ghost use Rattle.std.specs.Prelude.{◌≡◌, ◌+◌, ◌<◌, ◌^◌, None, Some};

use std::marker::Model;

/// Where the heap has the timer of a slot, or none; a contract sees an option of a number. It takes four bytes: the greatest
/// number of four bytes stands for none, since no heap of fewer than 2^32 timers has such a place.
#[derive(Clone, Copy)]
pub struct Place {
    number: u32,
}

impl Model for Place {
    ghost use Rattle.std.specs.Prelude.{Option, ℕ};

    ghost Value = { Option ℕ };

    ghost use Rattle.boss_timers.specs.Place.{number_of, number_of-place, place_numbered};

    ghost view = { λ p. place_numbered p.number };

    ghost inverse = { λ place. record { number = number_of place } };

    ghost inverse_ok = { λ p holds i. record { number = number_of-place p.number i } };
}

/// Stands for no place.
const NOWHERE: u32 = u32::MAX;

impl Place {
    /// No place.
    pub fn nowhere() -> Place
        ensures { result ≡ None }
    {
        Place { number: NOWHERE }
    }

    /// This place.
    pub fn at(number: u32) -> Place
        requires { number + 1 < 2 ^ 32 }
        ensures { result ≡ Some number }
    {
        Place { number }
    }

    /// The place, if there is one.
    pub fn get(self) -> Option<u32>
        ensures { result ≡ self }
    {
        if self.number == NOWHERE {
            return None;
        }
        Some(self.number)
    }
}
