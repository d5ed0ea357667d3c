//! A script over any keeper: lines that are answered one after another, and the writes to devices that they leave.
//!
//! The wants of the beginning are served, and then each line is answered, and what it leaves is served. Where the keeper's disk
//! fails the command is told `stopped`, and so is every line after it; no device is called any more, and the lines are read to
//! their end.
#![tactic(auto)]

mod broken;
mod devices;
mod draining;
mod script;

pub use broken::Broken;
pub use script::run_script;
