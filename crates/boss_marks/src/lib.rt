//! Where the devices of points stand, and which of them want to be written.
#![tactic(auto)]

mod line;
mod marks;
mod proxy;
mod wants;

pub use marks::{Marks, Want};
pub use proxy::Reported;
