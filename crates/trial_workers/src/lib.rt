//! Tests of what the workers of a server stand on, in memory and over the real system.
#![tactic(auto)]

#[cfg(test)]
mod clients;
#[cfg(test)]
mod serving;
#[cfg(test)]
mod tests;
