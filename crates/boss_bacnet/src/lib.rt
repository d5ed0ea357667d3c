//! Devices over BACnet/IP: each write sends a WriteProperty of an object's Present_Value, and each check a ReadProperty, and judges the
//! datagrams that come back.
//!
//! The datagrams are those of ASHRAE 135, annex J.2 and clauses 6.2, 15.5, 15.9, 18 and 20. What a field device does with a value that it
//! acknowledged, no contract says.
#![tactic(auto)]

mod asked;
mod device;
mod fate;
mod frames;
mod judging;
mod places;
mod talking;

pub use device::BacnetDevice;
pub use fate::Fate;
