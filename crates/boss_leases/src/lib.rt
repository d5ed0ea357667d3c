//! Live leases by key: a fixed number of them, so that none is refused for want of memory once a run has begun.
#![tactic(auto)]

mod leases;

pub use leases::Leases;
