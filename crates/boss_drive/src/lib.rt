//! The worker that drives the devices of a driver: it has the driver's wants handed out, writes each to its device, and
//! reports whether the device took it. Where there is no want its devices look after what they took.
#![tactic(auto)]

mod adding;
mod driving;
mod looking;
mod turn;
mod want;

pub use adding::a_drive_adds_to_its_lane;
pub use driving::drive;
pub use looking::look_after;
pub use want::{Want, next};
