//! Values of JSON, as requests look into them: what a line writes, as serde_json's definitions say. [`ValueReader`] keeps its room from
//! line to line, and makes a tree over the line's own bytes: of a line that is spelled compactly a [`Tree`], of any other one of the
//! library json. Both mean the same.
#![tactic(auto)]

mod compact;
mod general;
mod member;
mod number;
mod range;
mod reader;
mod tree;
mod unread;
mod value;

pub use reader::ValueReader;
pub use tree::Tree;
pub use unread::Unread;
pub use value::JsonValue;
