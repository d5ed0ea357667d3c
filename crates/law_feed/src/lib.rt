//! That a feed of one's own history is followed, that a line is of one item at most, and that lines have one outcome. Each law
//! is the contract of a function that takes nothing and does nothing.
#![tactic(auto)]

mod feeds;
mod lines;

pub use feeds::{a_feed_of_ones_own_history_is_followed, any_front_of_a_feed_is_followed};
pub use lines::{a_follower_makes_one_thing_of_lines, a_line_is_of_one_item};
