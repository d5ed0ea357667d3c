//! Trials of the whole transaction manager: worked scripts, byte for byte, the statuses of runs that end early, plans, rules and keys that are refused, journals that are checked,
//! catalogues that are adopted, moments that are taken back, feeds that are told and followed, generated loads, and the bounds of what is kept.
#![tactic(auto)]

#[cfg(test)]
mod adoptions;
#[cfg(test)]
mod endings;
#[cfg(test)]
mod journals;
#[cfg(test)]
mod keys;
#[cfg(test)]
mod limits;
#[cfg(test)]
mod made;
#[cfg(test)]
mod outside;
#[cfg(test)]
mod plans;
#[cfg(test)]
mod rules;
#[cfg(test)]
mod runs;
#[cfg(test)]
mod scripts;
#[cfg(test)]
mod shifts;
#[cfg(test)]
mod shorter_lists;
#[cfg(test)]
mod standbys;
