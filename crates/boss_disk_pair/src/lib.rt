//! A pair of disks that knows bytes, records and kept states, and no command: records go behind a log on the disk that is in
//! force, and a kept state to the other, which is in force then. Whatever a crash leaves of the pair opens to what it stood for
//! before a call or after it.
#![tactic(auto)]

mod appending;
mod beginning;
mod closing;
mod confirming;
mod forces;
mod laws;
mod reading;
mod readying;
mod rotating;
mod seeds;
mod two_disks;

pub use forces::{Force, force_of};
pub use laws::{a_pair_at_rest_leaves_its_state, what_passed_is_left, what_passes_in_turn_passes};
pub use two_disks::TwoDisks;
