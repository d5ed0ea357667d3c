//! Timers in an indexed binary heap: the first of them at once, each other one set or removed in a number of comparisons
//! that a contract tells. (Binary heaps: Williams, Heapsort, CACM 1964.)
#![tactic(auto)]

mod entry;
mod heap;
mod place;
mod steps;
mod timers;

pub use steps::Steps;
pub use timers::Timers;
