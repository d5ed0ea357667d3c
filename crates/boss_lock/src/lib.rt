//! A ticket lock whose value knows one history.
//!
//! `Ruled` keeps a value and hands it to one seat at a time. The value stands for a list of entries,
//! the history, which exists in proofs alone. Whoever has the turn may add entries to its end. So the
//! history has one order for all seats, and each seat knows a beginning of it and which of its places
//! are its own.
#![tactic(auto)]

mod bells;
mod lock;
mod plays;
mod seat;
mod steps;
mod view;

pub use lock::{NoMemory, Ruled};
pub use seat::Seat;
pub use view::{Made, Stands};
