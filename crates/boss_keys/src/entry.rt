ghost use Rattle.std.specs.Prelude.{◌≡◌};
ghost use Rattle.toml.specs.View.{view};
ghost use Rattle.boss_keys.specs.Admission.{is_right};
ghost use Rattle.boss_keys.specs.Tables.{entry_in, entry_of};

use crate::DIGEST_LENGTH;
use crate::table::{digest_at, has_entry_keys, pattern_at};
use boss_access::Pattern;
use boss_model::Name;
use toml::Value;

/// One entry of a file: whoever has the key with this digest may be any of these processes.
#[derive(Debug, Drop)]
pub struct Entry {
    /// Which processes, by their names.
    pub process: Pattern,
    /// SHA-256 of the key's characters: 64 of `0-9a-f`.
    pub sha256: [u8; DIGEST_LENGTH],
}

impl Entry {
    /// Whether the entry is for this name, and this is the digest that it has.
    pub(crate) fn is_right(&self, name: &Name, digest: &[u8; DIGEST_LENGTH]) -> bool
        ensures { result ≡ is_right name.now digest.now self.now }
    {
        self.process.matches(name) && self.sha256 == *digest
    }

    /// The entry that a table spells. One with a key that nothing reads spells none.
    pub(crate) fn spelled(table: &Value) -> Option<Entry>
        ensures { result ≡ entry_of (view table.now) }
    {
        if has_entry_keys(table) {
            Entry::read(table)
        } else {
            None
        }
    }

    /// The entry that the keys of a table spell.
    fn read(table: &Value) -> Option<Entry>
        ensures { result ≡ entry_in (view table.now) }
    {
        let process = pattern_at(table, "process")?;
        let sha256 = digest_at(table, "sha256")?;
        Some(Entry { process, sha256 })
    }
}
