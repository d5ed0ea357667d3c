//! Trials of the shared manager over a real engine, alone and behind access rules: callers in two threads, several commands at once,
//! what two callers ask for kept together, and a disk that fails.
#![tactic(auto)]

#[cfg(test)]
mod rules;
#[cfg(test)]
mod texts;
#[cfg(test)]
mod threads;
#[cfg(test)]
mod together;
#[cfg(test)]
mod trials;
