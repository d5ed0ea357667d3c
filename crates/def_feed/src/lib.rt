//! The feed of a journal, in definitions: no code of this crate runs. `specs/Items` says what a line of a feed is, `specs/Feeds`
//! which lines tell a journal's state and its events, `specs/Followers` what a second journal makes of lines, and
//! `specs/Histories` what two journals of one history have to do with each other. `proofs/` computes worked lines from them.
#![tactic(auto)]
