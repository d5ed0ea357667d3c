//! Whether plain lists that outlast a stop are those of a sound state.
#![tactic(auto)]

mod done;
mod leases;
mod processes;
mod records;
mod searches;
mod sound;
mod telling;

pub use sound::is_sound;
