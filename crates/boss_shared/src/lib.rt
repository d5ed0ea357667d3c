//! One manager with many callers, who all agree on one history.
//!
//! A `Manager` has a machine that keeps what it does behind a lock. Each caller has a pass. What it is answered is what the
//! machine answers after all that stands before its own entry in the one history, of which its pass has then seen this
//! beginning. The history exists in proofs alone.
//!
//! A caller who asks for several commands at once, while others wait, leaves them at a counter. Whoever has the turn does
//! what lies there, keeps it as one record, and lends each caller the turn in which its entries are made.
#![tactic(auto)]

mod asked;
mod desk;
mod group;
mod held;
mod keeper;
mod manager;
mod request;
mod serving;

pub use asked::{Asked, fail_all, stop_all};
pub use desk::Desk;
pub use held::{Held, Pass};
pub use keeper::Keeper;
pub use manager::Manager;
pub use request::Request;
