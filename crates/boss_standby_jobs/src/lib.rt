//! The jobs of a standby: a journal told as a feed, and a journal that follows such a feed; each over a journal in two files, or over
//! memory alone.
#![tactic(auto)]

mod feed_jobs;
mod feeding;
mod following;
mod lines;
mod saying;
mod standby_jobs;

pub use feed_jobs::{feed_kept, feed_memory};
pub use feeding::feed_on_disks;
pub use following::standby_on_disks;
pub use standby_jobs::{standby_kept, standby_memory};
