//! What the act of an event may ask for. The bytes of an event can tell more; but no event that is effective leaves these bounds.
#![tactic(auto)]

mod ranges;

pub use ranges::is_modest;
