//! The lines of a journal's feed, read as what they tell: a state, a part of its bytes, or an event.
#![tactic(auto)]

mod digits;
mod number;
mod reader;
mod words;

pub use reader::{Item, ItemReader};
