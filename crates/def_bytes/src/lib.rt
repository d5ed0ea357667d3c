//! Values as bytes, field after field, in definitions: which values have a spelling, which one it is, and what bytes begin with.
//! From these fields events and states are put together: which of them have a spelling, and what it is. So is the law that they
//! are read as they were written.
#![tactic(auto)]

mod field_laws;
mod laws;

pub use field_laws::{a_field_has_one_spelling, fields_are_exact};
pub use laws::{a_batch_has_its_events_alone, a_state_has_one_spelling, an_event_has_one_spelling};
