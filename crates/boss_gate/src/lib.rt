//! A desk behind access rules: attaches of names that no rule is for, and submits that the rules deny to the process that a pass holds,
//! are answered so, and all else goes on to the desk within.
#![tactic(auto)]

mod admitted;
mod denial;
mod gatekeeper;
mod laws;

pub use admitted::Admitted;
pub use gatekeeper::Gatekeeper;
pub use laws::{a_submit_of_a_holder_was_allowed, an_attach_was_admitted};
