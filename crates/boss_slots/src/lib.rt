//! Leases and reversions by slot: in tables, each with a timer, that are seen slot by slot, and as lists in the order of slots.
#![tactic(auto)]

mod bits;
mod entries;
mod extending;
mod flags;
mod looking;
mod making;
mod place;
mod tables;
mod timing;

pub use entries::entry_at;
pub use extending::extend_slot;
pub use flags::Flags;
pub use looking::{force_on, lease_in, pending_in, playing_on};
pub use making::empty_tables;
pub use place::Place;
pub use tables::{Tables, lease_key, pending_of, put_lease, put_pending, take_lease, take_pending};
pub use timing::{remove_timer, set_timer};
