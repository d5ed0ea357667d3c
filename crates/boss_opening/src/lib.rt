//! How an engine is opened that keeps what it does on a pair of disks: both are synced, what they hold is found, the records of
//! the log are done again, and the pair is brought to rest at what lasts then. Where the disks hold nothing a journal is made.
//! And how a pair is looked at as it stands, without a write.
#![tactic(auto)]

mod checking;
mod going_on;
mod opening;
mod reading;
mod replaying;

pub use checking::{Checked, check};
pub use opening::open;
