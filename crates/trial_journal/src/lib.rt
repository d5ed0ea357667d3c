//! Trials of the journal over a disk in memory: the bytes that a format spells by its places, what is read of bytes that
//! were cut or changed, and a disk that stops or fails at each of its calls.
#![tactic(auto)]

#[cfg(test)]
mod bytes;
#[cfg(test)]
mod expected;
#[cfg(test)]
mod faults;
#[cfg(test)]
mod reading;
