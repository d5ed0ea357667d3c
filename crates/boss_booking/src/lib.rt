//! Laws of booking: that records and notices which are kept one ending at a time, in order, come to what the definitions
//! say of a whole group. A law is the contract of a function that takes nothing and does nothing.
#![tactic(auto)]

mod happening;
mod laws;

pub use happening::{Happening, Telling, put_in_order};
pub use laws::{leases_end_one_after_another, time_passes_one_end_after_another};
