//! Who calls: whose key a line shows, where there are keys. What is right for a name `boss_keys` says; this says which name and which
//! key a line gives, by the JSON value that it writes. `specs/Shown.antt` has the definition.
#![tactic(auto)]

mod shown;
mod value;

pub use shown::{Shown, shown_by};
