//! Tests of disks over a cluster, and of a journal there: one in memory, whose commits are not answered and done or not done.
#![tactic(auto)]

#[cfg(test)]
mod disk;
#[cfg(test)]
mod journal;
