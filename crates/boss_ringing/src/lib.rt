//! A keeper that rings: behind each of its calls it rings the bells of those who have something to do by it.
#![tactic(auto)]

mod done;
mod held;
mod ringing;

pub use held::what_rings_stands_for_what_its_keeper_does;
pub use ringing::Ringing;
