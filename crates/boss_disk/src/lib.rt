//! A disk: bytes that are read and written by their places, and what a crash may leave of them.
#![tactic(auto)]

mod disk;
mod failures;
mod image;
mod laws;
mod memory;

pub use disk::{Disk, write_through};
pub use laws::{
    crash_comes_at_any_call, crash_leaves, synced_bytes_stay, torn_write_leaves_the_rest,
};
pub use memory::{DiskCall, MOST, MemoryDisk};
