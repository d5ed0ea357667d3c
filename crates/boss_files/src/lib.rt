//! The files that a program is given, each under its name: read whole, or kept open as a disk. The two files of a journal, that of
//! its name and that of its name followed by `.b`, are opened as disks together and given back together.
#![tactic(auto)]

mod files;
mod memory;
mod names;
mod stores;

pub use files::{FileBytes, FileFault, Files};
pub use memory::MemoryFiles;
pub use names::second_name;
pub use stores::{close_stores, open_stores};
