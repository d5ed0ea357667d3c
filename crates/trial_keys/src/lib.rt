//! Trials of keys: which key is right for which name, and each refusal of a file with its line.
#![tactic(auto)]

#[cfg(test)]
mod keys;
