//! Trials of the clock that goes by a steady one: when leases end by it under wall clocks that are set, over minutes, hours and years.
#![tactic(auto)]

#[cfg(test)]
mod leases;
