//! Trials of the parts of the transaction manager, each by its public calls: that they succeed where there is memory, and
//! what no contract says of them, as what a format means by its words, or how a text is printed.
#![tactic(auto)]

#[cfg(test)]
mod answers;
#[cfg(test)]
mod catalogues;
#[cfg(test)]
mod histories;
#[cfg(test)]
mod lines;
#[cfg(test)]
mod marks;
#[cfg(test)]
mod names;
#[cfg(test)]
mod notices;
#[cfg(test)]
mod outside;
#[cfg(test)]
mod policies;
#[cfg(test)]
mod requests;
#[cfg(test)]
mod transactions;
#[cfg(test)]
mod words;

/// A file that spells a damper, a lamp and a fan with three speeds, on one driver.
pub const THREE_POINTS: &str = "drivers = [\"field\"]

[[point]]
name = \"ahu1.damper\"
driver = \"field\"
kind = \"analog\"
min = 0
max = 100000
default = 20000

[[point]]
name = \"lamp\"
driver = \"field\"
kind = \"binary\"
default = 0

[[point]]
name = \"fan\"
driver = \"field\"
kind = \"multi\"
states = 3
default = 1
";
