//! That a second script which asks what a first one would have asked is answered the same: a stop in between shows in no answer but a
//! reading's mark. Each law is the contract of a function that takes nothing and does nothing.
#![tactic(auto)]

mod asking;

pub use asking::{
    a_second_script_is_answered_the_same, asking_changes_no_more_than_time,
    who_asks_the_same_is_answered_the_same,
};
