//! A journal: records as bytes on a disk, each whole or not there after a crash. A record counts once the byte before it, its
//! gate, is 1, and that byte is written when the record has been synced, or together with it on a disk that writes both whole.
#![tactic(auto)]

mod appending;
mod confirming;
mod frame;
mod heading;
mod journal;
mod laws;
mod looking;
mod making;
mod opening;
mod reading;
mod refusal;
mod standing;
mod start;

pub use appending::Appended;
pub use journal::Journal;
pub use laws::{
    a_bare_journal_is_clean, a_repair_keeps_the_records, an_append_is_whole_or_nothing,
    both_ways_leave_the_same_bytes,
};
pub use looking::Looked;
pub use reading::NextRecord;
pub use refusal::OpenRefusal;
