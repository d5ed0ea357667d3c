//! A connection that watches a process: it is sent the process's notices as they come, each once and in order.
#![tactic(auto)]

mod asking;
mod end;
mod telling;
mod turn;
mod waiting;
mod watching;

pub use end::WatchEnd;
pub use watching::watch_connection;
