//! A transaction is seen from its record: which leases are its own, how many, and what a cancel, a renewal and a status make of
//! them, from the parts of the record and one look at a slot for each. Each law is the contract of a function that takes nothing
//! and does nothing.
#![tactic(auto)]

mod slots;
mod transactions;

pub use slots::{a_point_is_seen_from_its_slots, leases_are_extended_in_turn};
pub use transactions::{a_lease_has_its_record, a_transaction_is_seen_from_its_record};
