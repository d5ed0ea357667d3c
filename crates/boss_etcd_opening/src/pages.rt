ghost use Rattle.std.specs.Prelude.{◌≡◌, true, List, map, length, codes, Some, IfOk, IfSome};
ghost use Rattle.json.specs.Find.{get};
ghost use Rattle.json.specs.Json.{Json, document};
ghost use Rattle.json.specs.Value.{value_view};
ghost use Rattle.boss_etcd.specs.Requests.{page_key};
ghost use Rattle.boss_etcd_opening.specs.Answers.{ArePages, HasBytes, HasPages, IsNext, IsPage, KeysOf};

use crate::encoded::{decoded, encoded};
use crate::found::text_in;
use boss_model::NoMemory;
use json::{Error, Scratch, Value};
use std::alloc::Global;

/// The bytes of a page.
const PAGE: usize = 1_024;

/// Puts the pages that the body of an answer has behind these bytes, which are full pages of this name, and gives how many they are;
/// nothing where it has other keys than those of the next pages, or others between them.
pub fn read_pages(
    alloc: Global,
    scratch: &mut Scratch,
    body: &[u8],
    name: &[u8],
    held: &mut Vec<u8>,
) -> Result<Option<usize>, NoMemory>
    ensures { IfOk result (λ count. IfSome count (HasPages name.now body.now held.old.items held.new.items)) }
{
    match Value::from_slice(alloc, body, scratch) {
        Ok(value) => take_pages(alloc, &value, name, held),
        Err(Error::OutOfMemory) => Err(NoMemory),
        Err(Error::Invalid) | Err(Error::TooLong) | Err(Error::DuplicateKey) => Ok(None),
    }
}

/// Puts the pages of an answer behind these bytes.
fn take_pages(
    alloc: Global,
    value: &Value<'_>,
    name: &[u8],
    held: &mut Vec<u8>,
) -> Result<Option<usize>, NoMemory>
    ensures { IfOk result (λ count. IfSome count (λ count. (pages : List Json) × KeysOf (get (codes "kvs") (value_view value.now)) pages
        × (count ≡ length pages) × ArePages name.now pages held.old.items held.new.items)) }
{
    match value.get("kvs") {
        Some(Value::Array(pages)) => take_all(alloc, pages.as_slice(), name, held),
        Some(_) => Ok(None),
        None => Ok(Some(0)),
    }
}

/// Puts these pages behind these bytes.
#[tactic(auto, using(crate::proofs::InOrder::pages_on))]
fn take_all(
    alloc: Global,
    pages: &[Value<'_>],
    name: &[u8],
    held: &mut Vec<u8>,
) -> Result<Option<usize>, NoMemory>
    ensures { IfOk result (λ count. IfSome count (λ count. (count ≡ length pages.now)
        × ArePages name.now (map (λ page. value_view page) pages.now) held.old.items held.new.items)) }
{
    let mut at = 0;
    while at < pages.len() {
        if !take_page(alloc, &pages[at], name, held)? {
            return Ok(None);
        }
        at += 1;
    }
    Ok(Some(pages.len()))
}

/// Puts a page behind these bytes, where it is the next one.
#[tactic(auto, using(crate::proofs::InOrder::next_page))]
fn take_page(
    alloc: Global,
    page: &Value<'_>,
    name: &[u8],
    held: &mut Vec<u8>,
) -> Result<bool, NoMemory>
    ensures { IfOk result (λ taken. taken ≡ true → IsPage name.now (value_view page.now) held.old.items held.new.items) }
{
    if !is_next(alloc, page, name, held.len())? {
        return Ok(false);
    }
    match bytes_in(alloc, page)? {
        Some(bytes) => {
            held.extend_from_slice(bytes.as_slice())?;
            Ok(true)
        }
        None => Ok(false),
    }
}

/// Whether a key is that of the page behind so many bytes.
#[tactic(auto, using(crate::proofs::Keys::is_wanted))]
fn is_next(alloc: Global, page: &Value<'_>, name: &[u8], length: usize) -> Result<bool, NoMemory>
    ensures { IfOk result (λ next. next ≡ true → IsNext name.now (value_view page.now) length) }
{
    if length % PAGE != 0 {
        return Ok(false);
    }
    let Ok(number) = u32::try_from(length / PAGE) else {
        return Ok(false);
    };
    let key = key_of(alloc, name, number)?;
    let wanted = encoded(alloc, key.as_slice())?;
    match text_in(page, "key") {
        Some(text) => Ok(text == wanted.as_str()),
        None => Ok(false),
    }
}

/// The key of a page.
#[tactic(auto, unfolding(boss_etcd::specs::Requests::page_key))]
fn key_of(alloc: Global, name: &[u8], page: u32) -> Result<Vec<u8>, NoMemory>
    ensures { IfOk result (λ key. key.items ≡ page_key name.now page) }
{
    let mut digits = [0u8; 8];
    let written = hex::encode_to_slice(page.to_be_bytes(), &mut digits);
    let Ok(()) = written else { unreachable!() };
    let mut key = name.to_vec(alloc)?;
    key.extend_from_slice(b"/p/")?;
    key.extend_from_slice(&digits)?;
    Ok(key)
}

/// The bytes of a page, where there are 1 to 1,024.
fn bytes_in(alloc: Global, page: &Value<'_>) -> Result<Option<Vec<u8>>, NoMemory>
    ensures { IfOk result (λ bytes. IfSome bytes (λ bytes. HasBytes (value_view page.now) bytes.items)) }
{
    let Some(text) = text_in(page, "value") else {
        return Ok(None);
    };
    match decoded(alloc, text)? {
        Some(bytes) if !bytes.is_empty() && bytes.len() <= PAGE => Ok(Some(bytes)),
        Some(_) | None => Ok(None),
    }
}
