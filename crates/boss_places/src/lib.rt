//! Where a journal is kept that no file of this machine has: in etcd, under a name, as the journal's word tells.
#![tactic(auto)]

mod cutting;
mod member;
mod place;
mod port;

pub use place::{Place, is_place, read_place};
