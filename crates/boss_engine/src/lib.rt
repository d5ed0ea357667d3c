//! The transaction manager's machine: leases on the slots of priority arrays, the reversions that follow them, what processes
//! are told, and what the devices have to be told.
#![tactic(auto)]

mod commands;
mod done;
mod effects;
mod engine;
mod machine;
mod preparing;
mod ready;
mod reopening;
mod replaying;
mod reply;
mod restoring;
mod room;
mod settling;

pub use engine::Engine;
pub use restoring::RestoreRefusal;
pub use room::Room;
