//! Trials of the following of a feed: what journals in memory come to, line by line.
#![tactic(auto)]

#[cfg(test)]
mod feeds;
#[cfg(test)]
mod outside;
#[cfg(test)]
mod stops;
