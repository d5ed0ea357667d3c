//! The worker that lets time pass: it has a tick done every tenth of a second, so that leases end when they are due though
//! nobody calls.
#![tactic(auto)]

mod adding;
mod calls;
mod end;
mod expiry;

pub use adding::passing_time_adds_to_its_lane;
pub use calls::work;
pub use end::WorkEnd;
pub use expiry::expire;
