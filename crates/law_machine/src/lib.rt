//! Laws of the transaction manager, over its definitions alone. Each is the contract of a function that takes nothing
//! and does nothing: that the crate is proved says that the law holds.
#![tactic(auto)]

mod answers;
mod bridges;
mod devices;
mod effects;
mod limits;
mod once;
mod refusals;
mod ticks;

pub use answers::{an_answer_can_be_told, questions_rest_on_what_lasts};
pub use bridges::{
    draining_ends, nothing_due_changes_nothing, targets_change_at_due_moments,
    time_may_pass_in_turns,
};
pub use devices::a_settled_point_has_what_was_taken;
pub use effects::{an_event_does_the_same_again, events_of_a_run_lead_to_its_end};
pub use limits::limits_are_those_of_the_definitions;
pub use once::a_number_is_made_once;
pub use refusals::{a_refused_command_is_its_tick, an_ended_refusal_tells_the_kept_end};
pub use ticks::{tick_before_a_command, tick_before_a_reading};
