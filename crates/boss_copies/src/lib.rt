//! Copies of commands, for a caller that only borrows its own and has to hand some on.
#![tactic(auto)]

mod copies;

pub use copies::copy_commands;
