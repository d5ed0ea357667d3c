//! Leases, reversions and records that outlasted a stop are put back.
#![tactic(auto)]

mod records;
mod slots;

pub use records::records_put_back;
pub use slots::slots_put_back;
