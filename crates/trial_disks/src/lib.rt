//! Tests of disks and files, in memory and of this machine.
#![tactic(auto)]

#[cfg(test)]
mod ahead;
#[cfg(test)]
mod calls;
#[cfg(test)]
mod files;
#[cfg(test)]
mod images;
#[cfg(test)]
mod real;
