//! What etcd keeps of a disk, as whoever opens it finds it: the head of a name and its pages, as they were at one moment. Nothing is put.
#![tactic(auto)]

mod encoded;
mod found;
mod opening;
mod pages;
mod value;

pub use found::{Found, read_head};
pub use opening::{OpenFault, Opened, open};
pub use pages::read_pages;
