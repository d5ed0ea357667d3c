//! What a server does between its desk and its workers: it makes a worker for each duty, with a part of what it has, runs them all,
//! and takes every part back, so that what it then has stands for the one history that all of them made.
#![tactic(auto)]

mod gating;
mod joining;
mod keeping;
mod making;
mod outside;
mod parts;
mod returning;
mod ringing;
mod running;
mod serving;
mod shares;
mod site;

pub use keeping::{Ended, serve_keeper};
pub use outside::Outside;
pub use ringing::serve_ringing;
pub use serving::serve;
pub use site::Site;
