ghost use Rattle.std.specs.Prelude.{◌≡◌, ◌==◌, ℕ, true, List, if◌then◌else◌};
ghost use Rattle.boss_following.specs.Places.{place_of};
ghost use Rattle.boss_following.specs.Within.{is_within};
ghost use Rattle.def_feed.specs.Followers as feed;

/// What the lines so far are in the midst of.
#[derive(Clone, Copy, Debug, PartialEq, Eq)]
pub enum Place {
    /// Nothing.
    Between,
    /// A state that is passed over.
    Passing {
        /// How many of its bytes are to come: one at least.
        left: u64,
    },
    /// A state that is to be taken.
    Taking {
        /// How many events led to it.
        number: u64,
        /// How many bytes it has.
        size: u64,
    },
}

impl Place {
    /// Within a state that is passed over, while bytes of it are to come.
    pub fn passing(left: u64) -> Place
        ensures place { (bytes : List ℕ) → place_of result bytes ≡ (if left == 0 then feed.Between else feed.Passing left) }
        ensures within { (bytes : List ℕ) → is_within result bytes ≡ true }
    {
        if left == 0 {
            Place::Between
        } else {
            Place::Passing { left }
        }
    }
}
