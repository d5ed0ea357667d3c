//! That a settled point has as its target the last value that its device took: over a history that a server did, and the calls that
//! its workers made of their devices. Each law is the contract of a function that takes nothing and does nothing.
#![tactic(auto)]

mod settled;

pub use settled::{
    a_device_has_the_target_of_a_settled_point, a_settled_point_has_what_its_device_took,
    no_connection_serves_a_device,
};
