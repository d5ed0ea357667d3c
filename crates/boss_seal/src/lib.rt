//! Sums of records: taken, and compared.
#![tactic(auto)]

mod seeds;
mod summing;
mod sums;

pub use seeds::{seed_of_counts, seed_of_front};
pub use summing::Summing;
pub use sums::{has_sums, seed_of, sum_of, unsealed};
