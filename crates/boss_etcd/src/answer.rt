ghost use Rattle.std.specs.Prelude.{◌≡◌, Some, None, option_map, IfOk};
ghost use Rattle.std.specs.Char.{is_ascii_digit};
ghost use Rattle.std.specs.List.{list_all};
ghost use Rattle.std.specs.Str.{IsUtf8};
ghost use Rattle.json.specs.Json.{document};
ghost use Rattle.json.specs.Value.{value_view};
ghost use Rattle.boss_etcd.specs.Says.{Says, is_revision, revision_of, succeeded_of, found_text};

use crate::Said;
use boss_model::{Items, NoMemory};
use json::{Error, Scratch, Value};
use std::alloc::Global;

/// What the body of an answer says. It is told as done exactly where it says so, and as refused where it says that.
#[tactic(auto, using(crate::proofs::Unclear::none_is_unclear))]
pub fn read_answer(alloc: Global, scratch: &mut Scratch, body: &[u8]) -> Result<Said, NoMemory>
    ensures { IfOk result (Says body.now) }
{
    match Value::from_slice(alloc, body, scratch) {
        Ok(value) => said_by(alloc, body, &value),
        Err(Error::OutOfMemory) => Err(NoMemory),
        Err(Error::Invalid) => Ok(Said::Unclear),
        Err(Error::TooLong) => Ok(Said::Unclear),
        Err(Error::DuplicateKey) => Ok(Said::Unclear),
    }
}

/// What a value says that these bytes write.
#[tactic(auto, using(crate::proofs::Unclear::false_is_unclear, crate::proofs::Unclear::unnumbered_is_unclear, crate::proofs::Unclear::no_number_is_unclear))]
fn said_by(alloc: Global, body: &[u8], value: &Value<'_>) -> Result<Said, NoMemory>
    requires text { IsUtf8 body.now }
    requires is { document body.now ≡ Some (value_view value.now) }
    ensures { IfOk result (Says body.now) }
{
    let _length = body.len();
    match succeeded(value) {
        Some(true) => match revision(value) {
            Some(revision) if is_revision(revision) => Ok(Said::Done {
                revision: copy_of(alloc, revision)?,
            }),
            Some(_) | None => Ok(Said::Unclear),
        },
        Some(false) => Ok(Said::Unclear),
        None => refused_by(alloc, body, value),
    }
}

/// What a value says of a transaction that was not done.
#[tactic(auto, using(crate::proofs::Unclear::valueless_is_unclear, crate::proofs::Unclear::headless_is_unclear, crate::proofs::Unclear::wrong_head_is_unclear))]
fn refused_by(alloc: Global, body: &[u8], json: &Value<'_>) -> Result<Said, NoMemory>
    requires text { IsUtf8 body.now }
    requires is { document body.now ≡ Some (value_view json.now) }
    requires not_done { succeeded_of (value_view json.now) ≡ None }
    ensures { IfOk result (Says body.now) }
{
    let _length = body.len();
    let Some(value) = found(json, "value") else {
        return Ok(Said::Unclear);
    };
    let Some(revision) = found(json, "mod_revision") else {
        return Ok(Said::Unclear);
    };
    if !is_revision(revision) {
        return Ok(Said::Unclear);
    }
    Ok(Said::Refused {
        value: copy_of(alloc, value)?,
        revision: copy_of(alloc, revision)?,
    })
}

/// The bytes of a text.
fn copy_of(alloc: Global, text: &str) -> Result<Items<u8>, NoMemory>
    ensures { IfOk result (λ copy. copy ≡ text.now) }
{
    Ok(Items::from_vec(text.as_bytes().to_vec(alloc)?))
}

/// Whether a text is 1 to 19 decimal digits.
fn is_revision(text: &str) -> bool
    ensures { result ≡ is_revision text.now }
{
    match text.len() {
        1..=19 => all_digits(text),
        _ => false,
    }
}

/// Whether a text is decimal digits alone.
fn all_digits(text: &str) -> bool
    ensures { result ≡ list_all is_ascii_digit text.now }
{
    text.as_bytes().iter().all(|byte| byte.is_ascii_digit())
}

/// The revision of an answer.
fn revision<'a>(value: &Value<'a>) -> Option<&'a str>
    ensures { option_map (λ text. text.now) result ≡ revision_of (value_view value.now) }
{
    value.get("header")?.get("revision")?.as_str()
}

/// Whether the transaction was done.
fn succeeded(value: &Value<'_>) -> Option<bool>
    ensures { result ≡ succeeded_of (value_view value.now) }
{
    value.get("succeeded")?.as_bool()
}

/// A text of the head that a refusal found.
fn found<'a>(value: &Value<'a>, name: &str) -> Option<&'a str>
    ensures { option_map (λ text. text.now) result ≡ found_text name.now (value_view value.now) }
{
    let responses = value.get("responses")?;
    let range = responses.at(0)?.get("response_range")?;
    range.get("kvs")?.at(0)?.get(name)?.as_str()
}
