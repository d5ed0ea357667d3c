//! A generated day's load, run in memory, and the line that sums it up.
//!
//! The script of the load is run over the plant of the load, by an engine that keeps nothing and with devices that take every
//! call. What it tells is counted, and told as one line.
#![tactic(auto)]

mod counting;
mod running;
mod summary;

pub use running::run_load;
pub use summary::Summary;
