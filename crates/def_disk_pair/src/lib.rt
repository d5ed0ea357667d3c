//! What the bytes of a journal's two disks stand for, in definitions: a state and the events since, whole or damaged, and when
//! they are clean.
#![tactic(auto)]

mod laws;

pub use laws::{
    a_clean_pair_opens, a_front_tells_the_kind, a_pair_stands_for_one_thing,
    a_written_generation_is_in_force, an_append_is_missing_or_whole,
};
