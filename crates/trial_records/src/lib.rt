//! Trials of the records of a journal: each kind of event, read and written, against bytes that were written out by hand from
//! the tables of the format.
#![tactic(auto)]

#[cfg(test)]
mod events;
#[cfg(test)]
mod items;
