//! Events written into a record: one at hand, or the one that a step made. A writer agrees with the definition of the field.
#![tactic(auto)]

mod acts;
mod writing;

pub use acts::put_event;
pub use writing::write_event;
