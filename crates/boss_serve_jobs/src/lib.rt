//! The job of a server: it is set up by the files that the words name, serves over a journal in two files or over memory alone, and
//! tells at its end what the history leaves.
#![tactic(auto)]

mod keying;
mod preparing;
mod ruling;
mod serve_jobs;
mod serving;
mod standing;
mod world;

pub use boss_server::Site;
pub use serve_jobs::{do_kept_serve, do_memory_serve};
pub use serving::{serve_in_memory, serve_on_disks};
pub use world::{Service, Surroundings, World};
