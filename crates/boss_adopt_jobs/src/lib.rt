//! The job that takes over, under a changed catalogue, what a journal stands for: over a journal in two files, or over memory alone.
#![tactic(auto)]

mod adopting;
mod catalogues;
mod jobs;
mod saying;

pub use adopting::adopt_on_disks;
pub use jobs::{adopt_kept, adopt_memory};
