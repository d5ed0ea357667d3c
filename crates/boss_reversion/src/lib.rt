//! What a reversion plays and when: the value of a moment, the boundaries of its steps and its end. (Reversions are those
//! of BOSS: Dawson-Haggerty et al., NSDI 2013.)
#![tactic(auto)]

mod reversions;

pub use boss_model::Pending;
pub use reversions::{end_of, last_turn, next_boundary, outlasts, over, value_at};
