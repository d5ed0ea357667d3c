ghost use Rattle.std.specs.Prelude.{◌≡◌, IfOk};
ghost use Rattle.serde_json.specs.Data.{Data};
ghost use Rattle.boss_json.specs.Trees.{view};
ghost use Rattle.boss_callers.specs.Shown.{shown_at, shown_by, shown_of};

use crate::value::{is_object, key_in, name_in};
use boss_json::{Unread, ValueReader};
use boss_keys::Keys;
use boss_model::{Name, NoMemory};
use json::Value;
use std::alloc::Global;

/// What a line shows of who calls.
#[derive(Debug, Drop)]
pub enum Shown {
    /// Nothing: it is no JSON object.
    NoObject,
    /// The key of this name.
    Key(Name),
    /// No key that is right for the name that it gives: it has none, or gives no name, or the key is another's.
    WrongKey,
}

/// Whose key a line shows. It is read once more by whoever wants to know what it asks: this happens once a connection.
#[tactic(auto, unfolding(crate::specs::Shown::shown_by))]
pub fn shown_by(alloc: Global, keys: &Keys, line: &[u8]) -> Result<Shown, NoMemory>
    ensures { IfOk result (λ shown. shown ≡ shown_by keys.now line.now) }
{
    let mut reader = ValueReader::new(alloc);
    match reader.read(alloc, line) {
        Ok(value) => Ok(shown_of(keys, &value)),
        Err(Unread::Malformed) => Ok(Shown::NoObject),
        Err(Unread::NoMemory) => Err(NoMemory),
    }
}

/// Whose key a value shows.
fn shown_of(keys: &Keys, value: &Value) -> Shown
    ensures { result ≡ shown_of keys.now (view value.now) }
{
    if is_object(value) {
        shown_at(keys, value)
    } else {
        Shown::NoObject
    }
}

/// Whose key an object shows.
fn shown_at(keys: &Keys, object: &Value) -> Shown
    ensures { result ≡ shown_at keys.now (view object.now) }
{
    let (Some(name), Some(key)) = (name_in(object), key_in(object)) else {
        return Shown::WrongKey;
    };
    if keys.admits(&name, key) {
        Shown::Key(name)
    } else {
        Shown::WrongKey
    }
}
