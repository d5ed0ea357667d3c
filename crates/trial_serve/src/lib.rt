//! Trials of a server, `serve_in_memory` and `serve_on_disks`: over hosts, clocks, waiters and spawners in memory, over threads, and over a socket. Each says
//! what the connections were answered, how the workers paused, what a device was told, and the line and the status at the end.
#![tactic(auto)]

#[cfg(test)]
mod at_once;
#[cfg(test)]
mod clocks;
#[cfg(test)]
mod connections;
#[cfg(test)]
mod door;
#[cfg(test)]
mod held;
#[cfg(test)]
mod journals;
#[cfg(test)]
mod listening;
#[cfg(test)]
mod longest;
#[cfg(test)]
mod rows;
#[cfg(test)]
mod socket;
#[cfg(test)]
mod stage;
#[cfg(test)]
mod texts;
#[cfg(test)]
mod threads;
