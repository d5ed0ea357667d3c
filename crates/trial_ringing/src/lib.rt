//! Trials of a keeper that rings: which bells its calls ring over an engine in memory, and when its alarm is.
#![tactic(auto)]

#[cfg(test)]
mod rings;
