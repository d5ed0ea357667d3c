//! A day's load, generated: the catalogue of a plant of forty points, and a script in which six processes hold them one
//! after another.
#![tactic(auto)]

mod catalogue;
mod script;
mod text;

pub use catalogue::load_catalogue;
pub use script::{load_script, value_of};
