//! A worker of a server: one that serves connections, lets time pass, or drives devices. What it left when it has ended is told by
//! the entries of its own lanes, so that whoever joins several workers knows what all of them did. With keys, whoever attaches has shown
//! its key ([`whoever_attaches_has_shown_its_key`]).
#![tactic(auto)]

mod devices;
mod duty;
mod flags;
mod keyed;
mod server;
mod trouble;
mod visit;
mod visits;
mod worker;

pub use duty::Duty;
pub use flags::Flags;
pub use keyed::whoever_attaches_has_shown_its_key;
pub use server::Server;
pub use trouble::Trouble;
pub use worker::Worker;
