//! Trials of the feed of a journal: what pairs of disks in memory are told as, line by line.
#![tactic(auto)]

#[cfg(test)]
mod bytes;
#[cfg(test)]
mod feeds;
#[cfg(test)]
mod outside;
