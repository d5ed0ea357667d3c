//! Trials of a driver's worker: what the host of a Modbus device is sent, which of its points the machine then knows as written, and when
//! devices look after what they took.
#![tactic(auto)]

#[cfg(test)]
mod looks;
#[cfg(test)]
mod turns;
