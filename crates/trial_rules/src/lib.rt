//! Trials of access rules: what files of them deny, and each refusal of a file with its line.
#![tactic(auto)]

#[cfg(test)]
mod rules;
