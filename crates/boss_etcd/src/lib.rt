//! Bytes that etcd keeps, over any link: what it is asked, byte for byte, and what its answers say.
#![tactic(auto)]

mod answer;
mod cluster;
mod head;
mod laws;
mod members;
mod range;
mod request;
mod said;

pub use answer::read_answer;
pub use cluster::EtcdCluster;
pub use head::Head;
pub use laws::pages_mean_a_commit;
pub use members::Members;
pub use range::{put_head_range, put_pages_range};
pub use request::{Commit, put_check, put_commit};
pub use said::Said;
