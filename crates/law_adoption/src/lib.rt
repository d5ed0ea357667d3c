//! What outlasts a stop under a changed catalogue: its points are renumbered by name while leases are alive. Each law is the
//! contract of a function that takes nothing and does nothing.
#![tactic(auto)]

mod adoption;

pub use adoption::{
    an_adopted_state_is_sound, an_adoption_keeps_targets, an_adoption_keeps_the_status,
    what_is_left_is_the_longest_suffix,
};
