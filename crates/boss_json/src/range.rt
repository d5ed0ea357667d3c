ghost use Rattle.std.specs.Prelude.{◌≡◌};
ghost use Rattle.json.specs.Value.{items_view, members_view, value_view};
ghost use Rattle.boss_json.specs.Trees.{in_range, items_in_range, members_in_range};

use crate::number::is_in_range;
use json::Value;

/// Whether each number in a value is not too large for a float.
#[cycle(all_in_range)]
pub(crate) fn all_in_range(value: &Value<'_>) -> bool
    ensures { result ≡ in_range (value_view value.now) }
{
    match value {
        Value::Number(text) => is_in_range(text),
        Value::Array(items) => items_in_range(items),
        Value::Object(members) => members_in_range(members),
        Value::Null | Value::Bool(_) | Value::String(_) => true,
    }
}

/// Whether each number in the items of an array is.
#[cycle(all_in_range)]
fn items_in_range(items: &[Value<'_>]) -> bool
    ensures { result ≡ items_in_range (items_view items.now) }
{
    for item in items {
        if !all_in_range(item) {
            return false;
        }
    }
    true
}

/// Whether each number in the members of an object is.
#[cycle(all_in_range)]
fn members_in_range(members: &[(&str, Value<'_>)]) -> bool
    ensures { result ≡ members_in_range (members_view members.now) }
{
    for member in members {
        if !all_in_range(&member.1) {
            return false;
        }
    }
    true
}
