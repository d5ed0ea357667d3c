//! Which of the values that devices took is looked after next: some are written once more from time to time, and of some the device is
//! asked for what it has.
#![tactic(auto)]

mod looks;
mod queue;

pub use looks::{Found, Looks, Next};
pub use queue::{Kept, Queue};
