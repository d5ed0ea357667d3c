//! Trials of journals on a pair of disks in memory: what scripts leave there and go on from, disks that stop or fail at each of their
//! calls, or die where they are only asked, pairs that are refused, what one caller or two ask for as one record, a log that is begun
//! anew, a catalogue that is adopted, and moments that are taken back.
#![tactic(auto)]

#[cfg(test)]
mod adoption_stops;
#[cfg(test)]
mod bytes;
#[cfg(test)]
mod confirming;
#[cfg(test)]
mod faults;
#[cfg(test)]
mod hearing;
#[cfg(test)]
mod limited;
#[cfg(test)]
mod outside;
#[cfg(test)]
mod records;
#[cfg(test)]
mod refusals;
#[cfg(test)]
mod rotation;
#[cfg(test)]
mod rotation_stops;
#[cfg(test)]
mod shift_stops;
#[cfg(test)]
mod stops;
#[cfg(test)]
mod sums;
#[cfg(test)]
mod together;
#[cfg(test)]
mod turns;
