//! What outlasts a stop with all its moments moved back, where a clock had been ahead.
#![tactic(auto)]

mod most;
mod processes;
mod records;
mod shifting;
mod slots;

pub use most::most_shift;
pub use shifting::shift_state;
