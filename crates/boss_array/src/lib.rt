//! The priority array of one point: which lease or reversion stands in each of its sixteen slots (Priority_Array of
//! ASHRAE 135, clause 19.2).
#![tactic(auto)]

mod array;

pub use array::{Array, Entry};
