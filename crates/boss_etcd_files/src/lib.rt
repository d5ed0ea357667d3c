//! The files of this machine, and journals that are kept in etcd in their place: a word that begins with `etcd:` opens the disks of one. What
//! a member answers, and when, no contract says. That etcd does a transaction whole, in one order with all others, and keeps it, is trusted.
#![tactic(auto)]

mod link;
mod placed_disk;
mod placed_files;
mod placing;
mod reason;
mod told_cluster;

pub use link::EtcdLink;
pub use placed_disk::PlacedDisk;
pub use placed_files::PlacedFiles;
pub use told_cluster::ToldCluster;
