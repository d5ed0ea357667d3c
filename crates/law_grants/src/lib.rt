//! The law of a new transaction: what stood in the slots that it takes ends one after another. A law is the contract of a function
//! that takes nothing and does nothing.
#![tactic(auto)]

mod grants;

pub use grants::slots_are_taken_one_after_another;
