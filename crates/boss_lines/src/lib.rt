//! The lines of a stream of bytes, however the stream is cut into reads.
#![tactic(auto)]

mod reader;
mod whole;
mod window;

pub use reader::{Lines, Next};
pub use whole::{LinesRead, read_lines};
