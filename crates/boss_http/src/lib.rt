//! Requests of HTTP/1.1 over a link, and the responses to them: a request byte for byte, and a response only where it came whole.
#![tactic(auto)]

mod asking;
mod hearing;
mod request;
mod response;
mod turn;

pub use asking::{Heard, exchange};
pub use request::post;
