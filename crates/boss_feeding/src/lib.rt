//! The feed of a journal: what a pair of disks stands for, told to a sink as lines that a second journal can follow. The pair is
//! looked at as a check does, and stays as it is; all of its log is read and tried before the first byte is told.
#![tactic(auto)]

mod fault;
mod feeding;
mod forces;
mod kept;
mod lines;
mod logs;
mod records;
mod telling;
mod texts;
mod untold;

pub use fault::FeedFault;
pub use feeding::feed;
