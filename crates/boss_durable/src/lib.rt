//! An engine that keeps what it does on a pair of disks: what a call changes is appended as one record of its events, behind the
//! log of the disk in force, before the call answers that it was done. Whatever a crash leaves then opens to what lasts before
//! the call, or to that after it.
//!
//! A command begins only where the log has room for a record. Where it has come to its limit a new log begins on the other disk,
//! behind a kept state of what lasts. Without memory for that, commands that may want memory are answered that there is none, and
//! the others go on in the old log.
//!
//! A call of it, also one that only asks, begins only where the disk in force was asked within the last second before its moment:
//! where not it is synced first. So a server whose disk is lost, or was taken over by another one, finds out while nothing changes.
//!
//! It can also follow another history: an event of that, or a state, in place of a command.
#![tactic(auto)]

mod applying;
mod batch;
mod beginning;
mod changing;
mod closing;
mod confirming;
mod counting;
mod durable;
mod followed;
mod following;
mod keeper;
mod several;
mod sound_engine;
mod stepping;
mod taking;
mod taking_state;
mod together;
mod wanting;

pub use durable::Durable;
pub use followed::Followed;
