//! Devices over Modbus TCP: each write sends one frame, which writes a coil or up to two registers, and awaits its response; and so does each
//! check, which asks what they have.
//!
//! The frames are those of MODBUS Messaging on TCP/IP 1.0b, section 3.1.3, and of MODBUS Application Protocol 1.1b3,
//! sections 6.1, 6.3, 6.5, 6.6, 6.11, 6.12 and 7. What a field device does with a value that it acknowledged, no contract says.
#![tactic(auto)]

mod device;
mod exchange;
mod fate;
mod frames;
mod places;
mod request;
mod response;

pub use device::ModbusDevice;
pub use fate::Fate;
