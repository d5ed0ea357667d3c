//! A pair of disks that is opened again and again: what each opening finds is what was acknowledged before it, in order, and what was
//! under way at a stop, whole or not at all. And each answer of an opening comes exactly where the pair is of its kind.
#![tactic(auto)]

mod laws;

pub use laws::{a_pair_is_opened_or_refused, what_is_opened_was_left};
