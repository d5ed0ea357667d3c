//! That a script over a journal which an earlier one left is answered what the earlier one would have been answered. The law is the
//! contract of a function that takes nothing and does nothing.
#![tactic(auto)]

mod over_journals;

pub use over_journals::what_a_second_script_is_answered;
