//! A place where one request waits for whoever can serve it.
//!
//! A caller posts a request at a `Counter` and gets a slip. Anyone may take the request from there, and
//! then owes a reply to just that request. The slip collects it. No call waits, and only `new` takes memory.
#![tactic(auto)]

mod counter;
mod plays;
mod slips;
mod steps;
mod view;

pub use counter::Counter;
pub use slips::{Duty, Slip};
pub use view::Errand;
