//! The worker that drives the devices of a driver with guarded points: it writes a point no other value before the minimum time
//! of the last one has passed, unless a lease of the levels 1 to 5 asks for it, and holds the want until then.
#![tactic(auto)]

mod adding;
mod driving;
mod end;
mod guards;
mod judging;
mod keeping;
mod sweeping;
mod trying;
mod turn;

pub use adding::a_guarded_drive_adds_to_its_lane;
pub use driving::guarded_drive;
pub use end::GuardEnd;
pub use guards::is_guarded;
pub use keeping::a_guarded_device_keeps_its_value;
