//! What the bytes of a journal stand for, in definitions: a log of records behind a front, whole or damaged; the kinds of a
//! disk, and which disk of a pair is in force.
#![tactic(auto)]

mod kind;
mod laws;
mod versions;

pub use kind::DiskKind;
pub use laws::{
    a_log_has_its_records_alone, a_pair_has_one_disk_in_force,
    new_journals_are_of_the_newest_version,
};
pub use versions::{NEWEST_VERSION, is_known};
