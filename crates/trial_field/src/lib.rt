//! Tests of devices over Modbus TCP and over BACnet/IP: over a link and a socket in memory, and over one of this machine.
#![tactic(auto)]

#[cfg(test)]
mod datagrams;
#[cfg(test)]
mod frames;
#[cfg(test)]
mod lines;
#[cfg(test)]
mod looks;
#[cfg(test)]
mod plant;
#[cfg(test)]
mod socket;
