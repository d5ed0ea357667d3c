//! The one history that callers of a shared machine agree on, in definitions: its entries, the mark of calls whose disk failed,
//! what the machine is after it, and which histories are legal; and what one call answers and adds.
#![tactic(auto)]

mod entry;
mod laws;
mod once;
mod outcome;

pub use entry::{Entry, Tried};
pub use laws::{
    a_history_goes_on, a_history_is_its_deeds, a_legal_history_keeps_a_sound_state_sound,
};
pub use once::each_number_is_made_once;
pub use outcome::{Outcome, Outcomes};
