ghost use Rattle.std.specs.Prelude.{◌≡◌, codes, option_copied};
ghost use Rattle.serde_json.specs.Find.{as_str};
ghost use Rattle.def_wire.specs.Keys.{name, under};
ghost use Rattle.boss_json.specs.Trees.{view};
ghost use Rattle.boss_callers.specs.Shown.{is_object, name_in};

use boss_json::JsonValue;
use boss_model::Name;
use json::Value;

/// Whether a value is an object.
pub(crate) fn is_object(value: &Value) -> bool
    ensures { result ≡ is_object (view value.now) }
{
    matches!(value, Value::Object(_))
}

/// The key that an object shows.
pub(crate) fn key_in<'v>(object: &'v Value) -> Option<&'v [u8]>
    ensures { option_copied result ≡ under (codes "key") as_str (view object.now) }
{
    object.under("key")?.text()
}

/// The name that an object gives: the one under `as`, and where there is nothing under it that of its process.
pub(crate) fn name_in(object: &Value) -> Option<Name>
    ensures { result ≡ name_in (view object.now) }
{
    match object.under("as") {
        Some(given) => name_spelled(given),
        None => name_spelled(object.under("process")?),
    }
}

/// The name that a value spells.
fn name_spelled(value: &Value) -> Option<Name>
    ensures { result ≡ name (view value.now) }
{
    Name::new(value.text()?)
}
