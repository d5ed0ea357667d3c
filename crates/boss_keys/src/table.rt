//! What the tables of a file of keys spell. `table_of`, `array_at` and `text_at` look up what those of boss_points do, and
//! `pattern_at` what that of boss_access does, which give them to no other crate; their definitions are their own.

ghost use Rattle.std.specs.Prelude.{◌≡◌, ◌==◌, option_map, option_copied, length};
ghost use Rattle.std.specs.List.{list_all, list_any};
ghost use Rattle.std.specs.Option.{ok_or};
ghost use Rattle.std.specs.Str.{bytes_eq};
ghost use Rattle.toml.specs.View.{view, table_view};
ghost use Rattle.boss_points.specs.Keys.{array_at, if_true, text_at};
ghost use Rattle.boss_points.specs.Reading.{table_of};
ghost use Rattle.boss_points.specs.Seen.{views};
ghost use Rattle.boss_access.specs.Keys.{all_among, has_only, pattern_at};
ghost use Rattle.boss_keys.specs.declared.refusal.KeysRefusal.TheVariants.{NotToml};
ghost use Rattle.boss_keys.specs.Limits.{digest_length};
ghost use Rattle.boss_keys.specs.Reading.{Gives};
ghost use Rattle.boss_keys.specs.Tables.{digest_at, entry_keys, is_digest, is_digit};

use crate::{DIGEST_LENGTH, KeysRefusal};
use boss_access::Pattern;
use std::alloc::Global;
use toml::{Table, Value};

/// The table that a file writes.
pub(crate) fn table_of(alloc: Global, bytes: &[u8]) -> Result<Value, KeysRefusal>
    ensures { Gives view result (ok_or (table_of bytes.now) NotToml) }
{
    let Ok(text) = str::from_utf8(bytes) else {
        return Err(KeysRefusal::NotToml);
    };
    match toml::table_from_str(alloc, text) {
        Ok(table) => Ok(Value::Table(table)),
        Err(error) if error.is_memory() => Err(KeysRefusal::NoMemory),
        Err(_) => Err(KeysRefusal::NotToml),
    }
}

/// The array under a key.
#[tactic(auto, using(boss_points::proofs::Views::list_of_views))]
pub(crate) fn array_at<'a>(file: &'a Value, key: &str) -> Option<&'a [Value]>
    ensures { option_map (λ items. views items.now) result ≡ array_at key.now (view file.now) }
{
    let items = file.get(key)?.as_array()?;
    Some(items.as_slice())
}

/// The text under a key.
fn text_at<'a>(table: &'a Value, key: &str) -> Option<&'a str>
    ensures { option_copied result ≡ text_at key.now (view table.now) }
{
    table.get(key)?.as_str()
}

/// The pattern under a key of an entry.
pub(crate) fn pattern_at(entry: &Value, key: &str) -> Option<Pattern>
    ensures { result ≡ pattern_at key.now (view entry.now) }
{
    let text = text_at(entry, key)?;
    Pattern::spelled(text.as_bytes())
}

/// The digest under a key of an entry.
pub(crate) fn digest_at(entry: &Value, key: &str) -> Option<[u8; DIGEST_LENGTH]>
    ensures { result ≡ digest_at key.now (view entry.now) }
{
    let text = text_at(entry, key)?;
    digest_spelled(text.as_bytes())
}

/// The digest that a text spells.
fn digest_spelled(text: &[u8]) -> Option<[u8; DIGEST_LENGTH]>
    ensures { result ≡ if_true is_digest text.now }
{
    if text.len() == DIGEST_LENGTH && are_digits(text) {
        Some(kept(text))
    } else {
        None
    }
}

/// Whether each of these bytes is a digit.
fn are_digits(text: &[u8]) -> bool
    ensures { result ≡ list_all is_digit text.now }
{
    text.iter().all(|byte| is_digit(*byte))
}

/// Whether this is a digit, in lower case.
fn is_digit(byte: u8) -> bool
    ensures { result ≡ is_digit byte }
{
    matches!(byte, b'0'..=b'9' | b'a'..=b'f')
}

/// A text of so many digits.
fn kept(text: &[u8]) -> [u8; DIGEST_LENGTH]
    requires { length text.now ≡ digest_length }
    ensures { result ≡ text.now }
{
    let mut digits = [0; DIGEST_LENGTH];
    digits.copy_from_slice(text);
    digits
}

/// Whether this is a table that has no key but those of an entry.
pub(crate) fn has_entry_keys(entry: &Value) -> bool
    ensures { result ≡ has_only entry_keys (view entry.now) }
{
    match entry.as_table() {
        Some(table) => are_entry_keys(table),
        None => false,
    }
}

/// Whether each key of a table is one of an entry.
fn are_entry_keys(table: &Table) -> bool
    ensures { result ≡ all_among entry_keys (table_view table.now) }
{
    for (key, _value) in table {
        if !is_entry_key(key.as_str()) {
            return false;
        }
    }
    true
}

/// Whether an entry may have this key.
fn is_entry_key(key: &str) -> bool
    ensures { result ≡ list_any (bytes_eq key.now) entry_keys }
{
    matches!(key, "process" | "sha256")
}
