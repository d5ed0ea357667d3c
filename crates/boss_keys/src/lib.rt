//! Keys: who shows that it is which control process, as a file spells it. The file has no key, only digests of keys.
//! `specs/Admission.antt` says which key is right for a name, and `specs/Reading.antt` has the tests that a file has to pass.
#![tactic(auto)]

mod entry;
mod file;
mod keys;
mod limits;
mod line;
mod refusal;
mod shown;
mod table;

pub use entry::Entry;
pub use file::KeyFile;
pub use keys::Keys;
pub use limits::{DIGEST_LENGTH, LONGEST_KEY, MOST_ENTRIES, MOST_RESERVE, SHORTEST_KEY};
pub use line::refusal_line;
pub use refusal::KeysRefusal;
