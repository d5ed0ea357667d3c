//! The real things: the standard input and output, the files of this machine, read whole or kept open as disks, the system's
//! clock, a TCP listener and its connections, a waiter that sleeps until it is rung, what rings it, and threads. They count their faults, and tell nothing of
//! what they hold, gave, took or did. Why a file, a disk or an address failed is said on the standard error.
#![tactic(auto)]

mod ahead;
mod aside;
mod connection;
mod console;
mod door;
mod holder;
mod patience;
mod peers;
mod readings;
mod real_clock;
mod real_disk;
mod real_files;
mod real_host;
mod real_ringer;
mod real_spawner;
mod real_waiter;
mod running;
mod shared;
mod showing;
mod signals;

pub use aside::say_aside;
pub use connection::{RealSink, RealSource};
pub use console::{StdSink, StdSource};
pub use door::Door;
pub use real_clock::RealClock;
pub use real_disk::RealDisk;
pub use real_files::RealFiles;
pub use real_host::RealHost;
pub use real_ringer::RealRinger;
pub use real_spawner::RealSpawner;
pub use real_waiter::RealWaiter;
pub use signals::read_past_signals;
