ghost use Rattle.std.specs.Prelude.{◌≡◌, true, Some, option_map, IfOk, IfSome};
ghost use Rattle.std.specs.Char.{is_ascii_digit};
ghost use Rattle.std.specs.List.{list_all};
ghost use Rattle.json.specs.Json.{document};
ghost use Rattle.json.specs.Value.{value_view};
ghost use Rattle.boss_etcd.specs.Says.{is_revision, revision_of};
ghost use Rattle.boss_etcd_opening.specs.Answers.{first_in, text_in, SaysHead};
ghost use Rattle.boss_etcd_opening.specs.Values.{TellsIn};

use crate::encoded::decoded;
use crate::value::length_of;
use boss_model::{Items, NoMemory};
use json::{Error, Scratch, Value};
use std::alloc::Global;

/// What the answer to a read of a head says.
#[derive(Debug, Drop)]
pub enum Found {
    /// There was none at this revision.
    Nothing {
        at: Items<u8>,
    },
    /// It had this revision at that one, and there are so many bytes.
    Head {
        length: u64,
        revision: Items<u8>,
        at: Items<u8>,
    },
    /// Something else stands under its key.
    Foreign,
    /// Neither of these.
    Unclear,
}

/// What the body of an answer to a read of a head says.
pub fn read_head(alloc: Global, scratch: &mut Scratch, body: &[u8]) -> Result<Found, NoMemory>
    ensures { IfOk result (SaysHead body.now) }
{
    match Value::from_slice(alloc, body, scratch) {
        Ok(value) => found_in(alloc, body, &value),
        Err(Error::OutOfMemory) => Err(NoMemory),
        Err(Error::Invalid) | Err(Error::TooLong) | Err(Error::DuplicateKey) => Ok(Found::Unclear),
    }
}

/// What a value says that these bytes write.
fn found_in(alloc: Global, body: &[u8], value: &Value<'_>) -> Result<Found, NoMemory>
    requires { document body.now ≡ Some (value_view value.now) }
    ensures { IfOk result (SaysHead body.now) }
{
    let _length = body.len();
    let Some(at) = numbered(revision(value)) else {
        return Ok(Found::Unclear);
    };
    match value.get("kvs") {
        Some(_) => head_in(alloc, body, value, at),
        None => Ok(Found::Nothing {
            at: copy_of(alloc, at)?,
        }),
    }
}

/// What a value says that has keys.
fn head_in(alloc: Global, body: &[u8], value: &Value<'_>, at: &str) -> Result<Found, NoMemory>
    requires is { document body.now ≡ Some (value_view value.now) }
    requires when { revision_of (value_view value.now) ≡ Some at.now }
    requires digits { is_revision at.now ≡ true }
    ensures { IfOk result (SaysHead body.now) }
{
    let _length = body.len();
    let Some(first) = first_in(value) else {
        return Ok(Found::Unclear);
    };
    let Some(revision) = numbered(text_in(first, "mod_revision")) else {
        return Ok(Found::Unclear);
    };
    let Some(text) = text_in(first, "value") else {
        return Ok(Found::Foreign);
    };
    let Some(length) = length_in(alloc, text)? else {
        return Ok(Found::Foreign);
    };
    Ok(Found::Head {
        length,
        revision: copy_of(alloc, revision)?,
        at: copy_of(alloc, at)?,
    })
}

/// The first key of an answer, with its value.
fn first_in<'v, 'a>(value: &'v Value<'a>) -> Option<&'v Value<'a>>
    ensures { option_map (λ first. value_view first.now) result ≡ first_in (value_view value.now) }
{
    value.get("kvs")?.at(0)
}

/// A text under a key.
pub fn text_in<'a>(value: &Value<'a>, key: &str) -> Option<&'a str>
    ensures { option_map (λ text. text.now) result ≡ text_in key.now (value_view value.now) }
{
    value.get(key)?.as_str()
}

/// The revision of an answer.
fn revision<'a>(value: &Value<'a>) -> Option<&'a str>
    ensures { option_map (λ text. text.now) result ≡ revision_of (value_view value.now) }
{
    value.get("header")?.get("revision")?.as_str()
}

/// Whether a text is a revision: 1 to 19 decimal digits.
fn is_revision(text: &str) -> bool
    ensures { result ≡ is_revision text.now }
{
    match text.len() {
        1..=19 => all_digits(text),
        _ => false,
    }
}

/// Whether a text is decimal digits alone.
fn all_digits(text: &str) -> bool
    ensures { result ≡ list_all is_ascii_digit text.now }
{
    text.as_bytes().iter().all(|byte| byte.is_ascii_digit())
}

/// A text that is a revision.
fn numbered<'a>(text: Option<&'a str>) -> Option<&'a str>
    ensures same { IfSome result (λ revision. option_map (λ text. text.now) text.entry ≡ Some revision.now) }
    ensures digits { IfSome result (λ revision. is_revision revision.now ≡ true) }
{
    match text {
        Some(text) if is_revision(text) => Some(text),
        Some(_) | None => None,
    }
}

/// How many bytes there are by the value of a head, in base64.
fn length_in(alloc: Global, text: &str) -> Result<Option<u64>, NoMemory>
    ensures { IfOk result (λ length. IfSome length (TellsIn text.now)) }
{
    match decoded(alloc, text)? {
        Some(value) => Ok(length_of(value.as_slice())),
        None => Ok(None),
    }
}

/// The bytes of a text.
fn copy_of(alloc: Global, text: &str) -> Result<Items<u8>, NoMemory>
    ensures { IfOk result (λ copy. copy ≡ text.now) }
{
    Ok(Items::from_vec(text.as_bytes().to_vec(alloc)?))
}
