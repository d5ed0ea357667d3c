//! The minimum on and off times of points, in definitions: what a guarded worker keeps of each point, which want it may write at
//! a moment, and what its turns are; with the law that a guarded point keeps each value for its minimum time.
#![tactic(auto)]

mod given;
mod guard;
mod spacing;

pub use given::a_want_is_given_before_it_is_tried;
pub use guard::{Due, Guard, Held, Stretch, shows};
pub use spacing::a_guarded_point_keeps_its_value;
