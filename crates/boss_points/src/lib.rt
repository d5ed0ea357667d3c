//! The catalogue: the points that `bossd` commands, the drivers of their devices, and how a file spells them.
//! `specs/Reading.antt` has the tests that a file has to pass, in their order.
#![tactic(auto)]

mod catalogue;
mod digest;
mod file;
mod keys;
mod point;
mod refusal;
mod tables;

pub use catalogue::Catalogue;
pub use point::Point;
pub use refusal::{CatalogueRefusal, Key};
