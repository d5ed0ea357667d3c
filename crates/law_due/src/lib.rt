//! What is due as time passes: found lease by lease and reversion by reversion, it is what the definitions tell of the whole. A law is
//! the contract of a function that takes nothing and does nothing.
#![tactic(auto)]

mod dues;

pub use dues::the_last_moment_that_is_due;
