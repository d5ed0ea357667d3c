//! Lines as requests: what a line of JSON asks of the transaction manager, or why it is refused.
//! The definitions are those of def_wire: `specs/Requests.antt` and `specs/Keys.antt`.
#![tactic(auto)]

mod blank;
mod commands;
mod keys;
mod points;
mod reader;
mod refusal;
mod request;
mod writes;

pub use blank::is_blank;
pub use def_wire::{Ask, Form, Request};
pub use reader::{RequestReader, read_by};
pub use refusal::ReadRefusal;
