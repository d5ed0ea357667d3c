//! What is kept of transactions: their parts, how the leases of these ended, and how far each transaction has come.
#![tactic(auto)]

mod entry;
mod list;
mod part;
mod stages;
mod transaction;

pub use part::{End, Part, PartEnd};
pub use stages::Stages;
pub use transaction::Transaction;
