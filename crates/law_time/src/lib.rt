//! How time passes over the definitions: lists in order, reversions and their turns, what is due, and ticks. The law is the
//! contract of a function that takes nothing and does nothing.
#![tactic(auto)]

mod ticks;

pub use ticks::ticks_compose;
