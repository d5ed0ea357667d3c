//! What the keys of a file of rules spell. `table_of`, `array_at` and `text_at` look up what those of boss_points do, which
//! gives them to no other crate; their definitions are its own.

ghost use Rattle.std.specs.Prelude.{◌≡◌, option_map, option_copied};
ghost use Rattle.std.specs.List.{list_any};
ghost use Rattle.std.specs.Option.{ok_or};
ghost use Rattle.std.specs.Str.{bytes_eq};
ghost use Rattle.toml.specs.View.{view, table_view};
ghost use Rattle.boss_access.specs.declared.refusal.RulesRefusal.TheVariants.{NotToml};
ghost use Rattle.boss_points.specs.Keys.{array_at, text_at};
ghost use Rattle.boss_points.specs.Reading.{table_of};
ghost use Rattle.boss_points.specs.Seen.{views};
ghost use Rattle.boss_access.specs.Keys.{pattern_at, level_of, level_in, highest_of, allow_of, all_among, has_only, rule_keys};
ghost use Rattle.boss_access.specs.Reading.{Gives};

use crate::{Pattern, RulesRefusal};
use boss_model::{LEVELS, Priority};
use std::alloc::Global;
use toml::{Table, Value};

/// The table that a file writes.
pub(crate) fn table_of(alloc: Global, bytes: &[u8]) -> Result<Value, RulesRefusal>
    ensures { Gives view result (ok_or (table_of bytes.now) NotToml) }
{
    let Ok(text) = str::from_utf8(bytes) else {
        return Err(RulesRefusal::NotToml);
    };
    match toml::table_from_str(alloc, text) {
        Ok(table) => Ok(Value::Table(table)),
        Err(error) if error.is_memory() => Err(RulesRefusal::NoMemory),
        Err(_) => Err(RulesRefusal::NotToml),
    }
}

/// The array under a key.
#[tactic(auto, using(boss_points::proofs::Views::list_of_views))]
pub(crate) fn array_at<'a>(file: &'a Value, key: &str) -> Option<&'a [Value]>
    ensures { option_map (λ items. views items.now) result ≡ array_at key.now (view file.now) }
{
    let items = file.get(key)?.as_array()?;
    Some(items.as_slice())
}

/// The text under a key.
fn text_at<'a>(table: &'a Value, key: &str) -> Option<&'a str>
    ensures { option_copied result ≡ text_at key.now (view table.now) }
{
    table.get(key)?.as_str()
}

/// The pattern under a key of a rule.
pub(crate) fn pattern_at(rule: &Value, key: &str) -> Option<Pattern>
    ensures { result ≡ pattern_at key.now (view rule.now) }
{
    let text = text_at(rule, key)?;
    Pattern::spelled(text.as_bytes())
}

/// The level of this number.
fn level_of(number: i64) -> Option<Priority>
    ensures { result ≡ level_of number }
{
    if 1 <= number && number <= i64::from(LEVELS) {
        Some(Priority(number as u8))
    } else {
        None
    }
}

/// The level that a value spells.
fn level_in(value: &Value) -> Option<Priority>
    ensures { result ≡ level_in (view value.now) }
{
    level_of(value.as_integer()?)
}

/// The highest level of a rule: 1 where the key is missing.
pub(crate) fn highest_of(rule: &Value) -> Option<Priority>
    ensures { result ≡ highest_of (view rule.now) }
{
    match rule.get("highest") {
        Some(value) => level_in(value),
        None => Some(Priority(1)),
    }
}

/// Whether a rule allows: it does where the key is missing.
pub(crate) fn allow_of(rule: &Value) -> Option<bool>
    ensures { result ≡ allow_of (view rule.now) }
{
    match rule.get("allow") {
        Some(value) => value.as_bool(),
        None => Some(true),
    }
}

/// Whether this is a table that has no key but those of a rule.
pub(crate) fn has_rule_keys(rule: &Value) -> bool
    ensures { result ≡ has_only rule_keys (view rule.now) }
{
    match rule.as_table() {
        Some(table) => are_rule_keys(table),
        None => false,
    }
}

/// Whether each key of a table is one of a rule.
fn are_rule_keys(table: &Table) -> bool
    ensures { result ≡ all_among rule_keys (table_view table.now) }
{
    for (key, _value) in table {
        if !is_rule_key(key.as_str()) {
            return false;
        }
    }
    true
}

/// Whether a rule may have this key.
fn is_rule_key(key: &str) -> bool
    ensures { result ≡ list_any (bytes_eq key.now) rule_keys }
{
    matches!(key, "process" | "point" | "highest" | "allow")
}
