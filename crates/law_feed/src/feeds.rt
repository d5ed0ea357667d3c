ghost use Rattle.std.specs.Prelude.{◌≡◌, ℕ, ◌≤◌, List, ◌++◌, length, map, take};
ghost use Rattle.boss_model.specs.declared.event.Event.{Event};
ghost use Rattle.boss_model.specs.declared.state.Actuator.{Actuator};
ghost use Rattle.boss_model.specs.Plants.{IsPlant};
ghost use Rattle.boss_model.specs.State.{Persistent};
ghost use Rattle.def_feed.specs.Feeds.{feed_items, feed_lines};
ghost use Rattle.def_feed.specs.Followers.{between, Follower, Follows, Outcome, Through};
ghost use Rattle.def_feed.specs.Histories.{IsAfter, IsHistory, IsOf};
ghost use Rattle.def_feed.specs.Items.{Item, item_text};
ghost use Rattle.law_feed.specs.Following.{BeginFeed, IsFollowed};

/// A feed of one's own history is followed, wherever it ends: a journal that knows the first events of a history, and reads lines
/// that begin a feed of a pair of the same history, finds neither a line at fault nor a gap. It comes to the state after the last
/// number that was wholly read, or stays where it knows more already.
pub fn a_feed_of_ones_own_history_is_followed()
    // What comes of the lines is this, and nothing else.
    ensures followed { (plant : List Actuator) (history : List Event) (d : Persistent) (known number : ℕ) (read : List Item) (outcome : Outcome) →
        IsPlant plant → IsHistory plant history → IsAfter plant history known d → BeginFeed plant history known read →
        Follows plant (between d known) number (map item_text read) outcome → IsFollowed plant history known read outcome }
    // And it does come of them.
    ensures comes { (plant : List Actuator) (history : List Event) (d : Persistent) (known number : ℕ) (read : List Item) →
        IsPlant plant → IsHistory plant history → IsAfter plant history known d → BeginFeed plant history known read →
        (after : Follower) × Follows plant (between d known) number (map item_text read) (Through after) }
{}

/// The same of lines, for who reads them from the first on: any front of the lines of a feed is followed.
pub fn any_front_of_a_feed_is_followed()
    ensures { (plant : List Actuator) (history : List Event) (d base : Persistent) (known from before : ℕ) (events : List Event)
        (lines more : List (List ℕ)) (outcome : Outcome) → IsPlant plant → IsHistory plant history → IsAfter plant history known d →
        IsOf plant history base before events → from ≤ known → feed_lines from base before events ≡ lines ++ more →
        Follows plant (between d known) 1 lines outcome →
        IsFollowed plant history known (take (length lines) (feed_items from base before events)) outcome }
{}
