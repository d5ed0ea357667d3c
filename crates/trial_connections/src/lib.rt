//! Trials of the workers of a server, each over one machine in memory: connections that are served and watched, time that is let
//! pass, and devices that are driven. Each table says what is told of a row: what goes out, and how it ends.
#![tactic(auto)]

#[cfg(test)]
mod asking;
#[cfg(test)]
mod connection;
#[cfg(test)]
mod counting;
#[cfg(test)]
mod drives;
#[cfg(test)]
mod outside;
#[cfg(test)]
mod pieces;
#[cfg(test)]
mod talks;
#[cfg(test)]
mod texts;
#[cfg(test)]
mod ticks;
#[cfg(test)]
mod watches;
