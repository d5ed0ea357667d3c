//! Kept states as bytes: each part of a state read out of them, a state written over what a disk holds, and what it holds.
#![tactic(auto)]

mod block;
mod clearing;
mod draft;
mod drafting;
mod fronts;
mod keeping;
mod kinds;
mod laws;
mod lists;
mod processes;
mod reading;
mod refusal;
mod spilled;
mod state;
mod writing;

pub use kinds::{PLAIN_MARK, STATE_MARK, kind};
pub use laws::{a_kept_state_is_a_front, a_written_state_is_read_again};
pub use reading::read_state;
pub use refusal::SnapshotRefusal;
pub use state::read_kept;
pub use writing::write_state;
