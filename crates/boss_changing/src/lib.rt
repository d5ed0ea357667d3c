//! How an engine that keeps what it does on a pair of disks goes on under a changed catalogue: what lasts of it is adopted, and
//! written as the next generation. A crash meanwhile leaves the old catalogue in force with the state of before, or the new one
//! with the adopted state.
#![tactic(auto)]

mod adopting;
mod fault;
mod preparing;

pub use adopting::adopt;
pub use fault::AdoptFault;
