ghost use Rattle.std.specs.Prelude.{◌≡◌, ℕ, List, Option};
ghost use Rattle.boss_model.specs.declared.state.Actuator.{Actuator};
ghost use Rattle.def_feed.specs.Followers.{Follower, Follows, Outcome};
ghost use Rattle.def_feed.specs.Items.{Item, Reads};

/// A line is of one item at most, however it is read.
pub fn a_line_is_of_one_item()
    ensures { (line : List ℕ) (one other : Option Item) → Reads line one → Reads line other → one ≡ other }
{}

/// Lines have one outcome, whatever they are: a follower's journal, what it is in the midst of, and why it ended, if it did.
pub fn a_follower_makes_one_thing_of_lines()
    ensures { (plant : List Actuator) (lines : List (List ℕ)) (f : Follower) (number : ℕ) (one other : Outcome) →
        Follows plant f number lines one → Follows plant f number lines other → one ≡ other }
{}
