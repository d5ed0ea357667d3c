//! The field: devices behind real hosts, over Modbus TCP or over BACnet/IP. What a host sends, and when, no contract says.
#![tactic(auto)]

mod devices;
mod fate_line;
mod numbers;
mod real_datagrams;
mod real_link;
mod reason;
mod silence;

pub use devices::{FieldDevices, field_devices};
pub use fate_line::{FateLine, Outcome};
pub use numbers::Raw;
pub use real_datagrams::RealDatagrams;
pub use real_link::RealLink;
pub use reason::Reason;
