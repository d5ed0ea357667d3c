ghost use Rattle.std.specs.Prelude.{◌≡◌, ◌≤◌, [], length, IfOk, OnOk};
ghost use Rattle.std.specs.List.{list_any};
ghost use Rattle.toml.specs.View.{view};
ghost use Rattle.boss_points.specs.Seen.{views};
ghost use Rattle.boss_keys.specs.Admission.{admits, is_right};
ghost use Rattle.boss_keys.specs.Limits.{most_entries};
ghost use Rattle.boss_keys.specs.Reading.{Gives, entries_in, entries_from, at_most};

use crate::shown::{digest_of, is_key};
use crate::table::array_at;
use crate::{DIGEST_LENGTH, Entry, KeysRefusal, MOST_ENTRIES};
use boss_model::Name;
use std::alloc::Global;
use std::marker::Model;
use toml::Value;

/// The entries of a file of keys, in its order: at most 512. A contract sees them as the list of these.
#[derive(Debug, Drop)]
pub struct Keys {
    entries: Vec<Entry>,
}

impl Model for Keys {
    ghost use Rattle.std.specs.Prelude.{◌≤◌, List, length};
    ghost use Rattle.boss_keys.specs.Limits.{most_entries};
    ghost use Rattle.boss_keys.specs.declared.entry.Entry.{Entry as One};

    ghost Value = { List One };

    ghost view = { λ k. k.entries.items };

    ghost invariant = { λ k. length k.entries.items ≤ most_entries };
}

impl Keys {
    /// The entries that a file's table spells.
    pub(crate) fn in_file(alloc: Global, file: &Value) -> Result<Keys, KeysRefusal>
        ensures { Gives (λ keys. keys) result (entries_in (view file.now)) }
    {
        let tables = array_at(file, "key").ok_or(KeysRefusal::Missing)?;
        at_most(MOST_ENTRIES, tables)?;
        let entries = all_entries(alloc, tables)?;
        Ok(Keys { entries })
    }

    /// Whether this key shows that somebody is the process of this name. What has fewer than 32 characters or more than
    /// 128, or other ones than `A-Za-z0-9_-`, is no key, whatever digest it has.
    pub fn admits(&self, name: &Name, key: &[u8]) -> bool
        ensures { result ≡ admits self.now name.now key.now }
    {
        if !is_key(key) {
            return false;
        }
        one_is_right(&self.entries, name, &digest_of(key))
    }
}

/// Whether one of the entries is for this name and has this digest.
fn one_is_right(entries: &[Entry], name: &Name, digest: &[u8; DIGEST_LENGTH]) -> bool
    ensures { result ≡ list_any (is_right name.now digest.now) entries.now }
{
    entries.iter().any(|entry| entry.is_right(name, digest))
}

/// Refuses more tables than this.
#[tactic(auto, using(boss_points::proofs::Views::length_views))]
fn at_most(most: usize, tables: &[Value]) -> Result<(), KeysRefusal>
    ensures refusal { Gives (λ done. done) result (at_most most (views tables.now)) }
    ensures few { OnOk result (length tables.now ≤ most) }
{
    if tables.len() > most {
        let count = tables.len() as u64;
        return Err(KeysRefusal::TooMany { count });
    }
    Ok(())
}

/// The entries of these tables, in their order.
fn all_entries(alloc: Global, tables: &[Value]) -> Result<Vec<Entry>, KeysRefusal>
    requires { length tables.now ≤ most_entries }
    ensures entries { Gives (λ entries. entries.items) result (entries_from 1 [] (views tables.now)) }
    ensures few { IfOk result (λ entries. length entries.items ≤ most_entries) }
{
    let mut entries = Vec::with_capacity(alloc, tables.len())?;
    for (at, table) in tables.iter().enumerate() {
        let place = at as u64 + 1;
        let entry = Entry::spelled(table).ok_or(KeysRefusal::BadKey { place })?;
        entries.push(entry)?;
    }
    Ok(entries)
}
