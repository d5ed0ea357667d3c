//! What processes are told: for each process at most 1,024 of its notices, the last ones, by number.
#![tactic(auto)]

mod ring;
mod rings;

pub use ring::Ring;
pub use rings::Rings;
