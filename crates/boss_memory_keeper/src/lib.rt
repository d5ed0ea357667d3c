//! A keeper that is an engine in memory alone: what it does is gone when it is let go, and nothing of it can fail but memory.
#![tactic(auto)]

mod stepping;
mod unkept;

pub use unkept::Unkept;
