//! The lines that tell of a journal: why it was refused, what it stands for, and what came of a changed catalogue.
#![tactic(auto)]

mod adoption;
mod refusal;
mod summary;

pub use adoption::{adopted_line, in_use_line, unfit_line};
pub use refusal::refusal_line;
pub use summary::{LONGEST_SUMMARY, new_line, summary_in_room, summary_line};
