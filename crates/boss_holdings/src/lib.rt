//! Leases and reversions by slot, seen as the two ordered lists of the definitions.
#![tactic(auto)]

mod counting;
mod ending;
mod holdings;
mod listing;
mod passing;
mod putting;
mod taking;
mod telling;

pub use boss_slots::Place;
pub use holdings::{Holdings, Places};
pub use listing::{copied_lease, copied_reversion};
