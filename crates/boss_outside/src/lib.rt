//! What `bossd` has to do with: a source of bytes, a sink, devices, a link, a socket and bells, each as a trait whose contract tells what a
//! call does, and each with a form in memory that meets it.
//!
//! Each trait counts its faults. A call answers a fault exactly where this count rose in it, so a layer above can say of
//! its own answers which object is their cause.
#![tactic(auto)]

mod actuators;
mod bells;
mod datagrams;
mod failed;
mod heard_source;
mod hears;
mod link;
mod list_datagrams;
mod list_link;
mod list_ringer;
mod noted;
mod plan;
mod ringer;
mod sink;
mod source;

pub use actuators::{Actuators, DeviceCall, IdleActuators, Look, SimActuators};
pub use bells::{BELLS, TIME_BELL, bells_are_those_of_the_definitions, driver_bell, name_bell};
pub use datagrams::{Datagrams, Heard};
pub use failed::Failed;
pub use heard_source::HeardSource;
pub use hears::Hears;
pub use link::Link;
pub use list_datagrams::ListDatagrams;
pub use list_link::ListLink;
pub use list_ringer::ListRinger;
pub use noted::Noted;
pub use plan::FaultPlan;
pub use ringer::Ringer;
pub use sink::{BytesSink, Sink};
pub use source::{BytesSource, Got, ReadAt, Source};
