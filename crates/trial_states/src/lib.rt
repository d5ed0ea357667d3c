//! Trials of kept states: over a disk in memory the bytes that the format spells by its table, a state read as it was written,
//! each refusal at its place, and a disk that fails or stops at each of its calls; states adopted under changed catalogues; and
//! states whose moments are moved back.
#![tactic(auto)]

#[cfg(test)]
mod adopting;
#[cfg(test)]
mod bytes;
#[cfg(test)]
mod disks;
#[cfg(test)]
mod refusals;
#[cfg(test)]
mod shifting;
#[cfg(test)]
mod stops;
#[cfg(test)]
mod texts;
#[cfg(test)]
mod writing;
