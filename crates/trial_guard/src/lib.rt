//! Trials of a guarded worker over simulated devices: when a pump that has minimum times is written.
#![tactic(auto)]

#[cfg(test)]
mod asking;
#[cfg(test)]
mod holding;
