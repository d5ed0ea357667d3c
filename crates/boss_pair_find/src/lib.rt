//! What a pair of disks holds as it stands, below any command: nothing, a journal from the first state on, or one from a kept
//! state on. Both disks are synced before, and a journal is made where they hold nothing.
#![tactic(auto)]

mod finding;
mod front;
mod laws;
mod making;
mod refusal;
mod syncing;

pub use finding::{Found, find};
pub use laws::a_pair_is_found_or_refused;
pub use making::make;
pub use refusal::DurableRefusal;
pub use syncing::sync_both;
