//! What a catalogue is told from another by, in definitions: no code of this crate runs. `specs/Canonical` has its canonical text,
//! and the digest of that. `proofs/` computes worked lines from it.
#![tactic(auto)]
