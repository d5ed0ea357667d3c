//! What a step does to what outlasts a stop, told without comparing states: by whether time made a change, and by whether the
//! command did; and the same of an event that is done again, whose act is refused before time passes. Each law is the contract
//! of a function that takes nothing and does nothing.
#![tactic(auto)]

mod effects;
mod replay;

pub use effects::an_effect_is_told_by_flags;
pub use replay::{
    a_replay_is_told_by_flags, a_replay_keeps_what_is_sound, an_act_is_refused_before_time_passes,
};
