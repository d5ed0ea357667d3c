//! What outlasts a stop under one catalogue, adopted under a changed one: its points are renumbered by their names.
#![tactic(auto)]

mod adopting;
mod counts;
mod least;
mod moving;
mod notices;
mod numbering;
mod records;
mod refusal;
mod slots;
mod unfit;
mod uses;

pub use adopting::adopt_state;
pub use counts::{added_points, removed_points};
pub use refusal::AdoptRefusal;
