//! Tests of journals in etcd: their words, commits and openings, over a link in memory that gives what members of etcd 3.4 answered.
#![tactic(auto)]

#[cfg(test)]
mod commits;
#[cfg(test)]
mod openings;
#[cfg(test)]
mod parts;
#[cfg(test)]
mod words;
