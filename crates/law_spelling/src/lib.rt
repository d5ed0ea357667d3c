//! That what outlasts a stop can be written down. All numbers of an event that a step has, and of a sound persistent part, are
//! within ranges that fit a few bytes each; so both have a spelling. Each law is the contract of a function that takes nothing
//! and does nothing.
#![tactic(auto)]

mod laws;
mod ranges;

pub use laws::{an_event_of_a_step_has_a_spelling, what_is_sound_has_a_spelling};
pub use ranges::{an_event_of_a_step_is_in_range, what_is_sound_is_in_range};
