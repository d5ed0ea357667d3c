//! What stands on the wire, in definitions: no code of this crate runs. `specs/Keys` says what stands under a key of a JSON
//! object, `specs/Requests` what a line asks or why it is refused, `specs/Texts` what is written of each answer, notice and
//! write to a device, and `specs/Script` what a whole script writes and which calls of devices it makes. `proofs/` computes
//! worked lines and scripts from them.
#![tactic(auto)]

mod form;
mod request;

pub use form::{Form, Op};
pub use request::{Ask, Request};
