//! A plan's file, read under a catalogue, and the devices of the drivers that it names, each told where its points are.
#![tactic(auto)]

mod assigning;

pub use assigning::{Unplanned, assign_plan};
