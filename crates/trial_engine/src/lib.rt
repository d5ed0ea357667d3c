//! Trials of the engine: that its events do the same again, that a run goes on from what was kept of it, which kept states are sound, and how many comparisons a timer takes.
#![tactic(auto)]

#[cfg(test)]
mod calls;
#[cfg(test)]
mod events;
#[cfg(test)]
mod plants;
#[cfg(test)]
mod runs;
#[cfg(test)]
mod sound;
#[cfg(test)]
mod timers;
