//! That every state which can be reached is sound: a step keeps a sound state sound. Each law is the contract of a function
//! that takes nothing and does nothing.
#![tactic(auto)]

mod soundness;

pub use soundness::{a_step_keeps_a_sound_state_sound, an_opened_state_is_sound};
