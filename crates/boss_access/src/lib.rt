//! Access rules: which control processes may write which points at which levels, as a file spells it.
//! `specs/Decisions.antt` says what the rules deny, and `specs/Reading.antt` has the tests that a file has to pass.
#![tactic(auto)]

mod decision;
mod keys;
mod limits;
mod line;
mod pattern;
mod refusal;
mod rule;
mod rules;

pub use limits::{LONGEST_BEGINNING, MOST_RULES};
pub use line::refusal_line;
pub use pattern::Pattern;
pub use refusal::RulesRefusal;
pub use rule::Rule;
pub use rules::Rules;
