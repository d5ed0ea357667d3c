//! That a spelling is made of bytes, and how many of them a state has at most: so events and states can be handed on as bytes, as
//! to a second machine that follows the first. Each law is the contract of a function that takes nothing and does nothing.
#![tactic(auto)]

mod bytes;
mod size;

pub use bytes::a_spelling_is_bytes;
pub use size::a_state_has_so_many_bytes;
