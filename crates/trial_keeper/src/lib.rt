//! A keeper for tests of what is shared: an engine in memory, on a disk that fails, and with memory that is wanting, when it
//! is told to.
#![tactic(auto)]

mod asking;
mod keeper;
mod stepping;
mod trial;

pub use asking::{asked, submit, two_asked};
pub use keeper::{FailingKeeper, Taken};
pub use trial::{Trial, run_trial};
