//! The job that takes all moments of what a journal in two files stands for back, where a clock had been ahead.
#![tactic(auto)]

mod jobs;
mod lines;
mod saying;
mod shifting;

pub use jobs::shift_kept;
pub use shifting::shift_on_disks;
