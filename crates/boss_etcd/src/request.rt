ghost use Rattle.std.specs.Prelude.{◌≡◌, ◌+◌, ◌^◌, ◌<◌, ◌++◌, codes, length, OnOk, IfOk, string_bytes};
ghost use Rattle.boss_etcd.specs.Requests.{encoded, page_key, put_text, pages_text, pages_of, drop_text, dropped_text, compare_text, failure_text, commit_text, check_text};

use base64::engine::general_purpose::STANDARD;
use boss_model::NoMemory;
use std::alloc::Global;

/// The bytes of a page.
const PAGE: usize = 1_024;

/// Writes bytes as a text of a request.
#[tactic(auto, unfolding(crate::specs::Requests::encoded))]
pub fn put_encoded(text: &mut String, bytes: &[u8]) -> Result<(), NoMemory>
    ensures { OnOk result (string_bytes text.new ≡ string_bytes text.old ++ encoded bytes.now) }
{
    text.push_str("\"")?;
    STANDARD.encode_string(bytes, text)?;
    text.push_str("\"")?;
    Ok(())
}

/// Writes a text behind another.
pub fn push(text: &mut String, part: &str) -> Result<(), NoMemory>
    ensures { OnOk result (string_bytes text.new ≡ string_bytes text.old ++ part.now) }
{
    text.push_str(part)?;
    Ok(())
}

/// Writes what is put under a key.
#[tactic(auto, using(crate::proofs::Texts::put_chain))]
fn put_put(text: &mut String, key: &[u8], value: &[u8]) -> Result<(), NoMemory>
    ensures { OnOk result (string_bytes text.new ≡ string_bytes text.old ++ put_text key.now value.now) }
{
    push(text, "{\"request_put\":{\"key\":")?;
    put_encoded(text, key)?;
    push(text, ",\"value\":")?;
    put_encoded(text, value)?;
    push(text, "}}")
}

/// Writes the key of a page behind a name.
#[tactic(auto, unfolding(crate::specs::Requests::page_key))]
pub fn key_of(alloc: Global, name: &[u8], page: u32) -> Result<Vec<u8>, NoMemory>
    ensures { IfOk result (λ key. key.items ≡ page_key name.now page) }
{
    let mut digits = [0u8; 8];
    let written = hex::encode_to_slice(page.to_be_bytes(), &mut digits);
    let Ok(()) = written else { unreachable!() };
    let mut key = name.to_vec(alloc)?;
    key.extend_from_slice(b"/p/")?;
    key.extend_from_slice(&digits)?;
    Ok(key)
}

/// Writes a page behind a comma.
fn put_page(
    alloc: Global,
    text: &mut String,
    name: &[u8],
    page: u32,
    bytes: &[u8],
) -> Result<(), NoMemory>
    ensures { OnOk result (string_bytes text.new ≡ string_bytes text.old ++ codes "," ++ put_text (page_key name.now page) bytes.now) }
{
    let key = key_of(alloc, name, page)?;
    push(text, ",")?;
    put_put(text, key.as_slice(), bytes)
}

/// Writes pages, each behind a comma, the first with this number. The last one may be short.
fn put_pages(
    alloc: Global,
    text: &mut String,
    name: &[u8],
    first: u32,
    bytes: &[u8],
) -> Result<(), NoMemory>
    requires { first + length bytes.now < 2 ^ 32 }
    ensures { OnOk result (string_bytes text.new ≡ string_bytes text.old ++ pages_text name.now first (pages_of (length bytes.now)) bytes.now) }
{
    let mut page = first;
    let mut rest = bytes;
    while !rest.is_empty() {
        let size = PAGE.min(rest.len());
        put_page(alloc, text, name, page, &rest[..size])?;
        rest = &rest[size..];
        page += 1;
    }
    Ok(())
}

/// A name with these bytes behind it.
pub fn named(alloc: Global, name: &[u8], behind: &[u8]) -> Result<Vec<u8>, NoMemory>
    ensures { IfOk result (λ key. key.items ≡ name.now ++ behind.now) }
{
    let mut key = name.to_vec(alloc)?;
    key.extend_from_slice(behind)?;
    Ok(key)
}

/// Writes that the pages from this one on are dropped.
fn put_dropped(alloc: Global, text: &mut String, name: &[u8], page: u32) -> Result<(), NoMemory>
    ensures { OnOk result (string_bytes text.new ≡ string_bytes text.old ++ dropped_text name.now page) }
{
    let key = key_of(alloc, name, page)?;
    let end = named(alloc, name, b"/p0")?;
    push(text, ",{\"request_delete_range\":{\"key\":")?;
    put_encoded(text, key.as_slice())?;
    push(text, ",\"range_end\":")?;
    put_encoded(text, end.as_slice())?;
    push(text, "}}")
}

/// Writes which pages are dropped, if any.
fn put_drop(
    alloc: Global,
    text: &mut String,
    name: &[u8],
    dropped: Option<u32>,
) -> Result<(), NoMemory>
    ensures { OnOk result (string_bytes text.new ≡ string_bytes text.old ++ drop_text name.now dropped) }
{
    match dropped {
        Some(page) => put_dropped(alloc, text, name, page),
        None => Ok(()),
    }
}

/// Writes which revision the head is to have.
fn put_compare(
    alloc: Global,
    text: &mut String,
    name: &[u8],
    revision: &str,
) -> Result<(), NoMemory>
    ensures { OnOk result (string_bytes text.new ≡ string_bytes text.old ++ compare_text name.now revision.now) }
{
    let head = named(alloc, name, b"/head")?;
    push(text, "{\"compare\":[{\"target\":\"MOD\",\"key\":")?;
    put_encoded(text, head.as_slice())?;
    push(text, ",\"mod_revision\":\"")?;
    push(text, revision)?;
    push(text, "\"}],\"success\":[")
}

/// Writes what is read where it has another.
fn put_failure(alloc: Global, text: &mut String, name: &[u8]) -> Result<(), NoMemory>
    ensures { OnOk result (string_bytes text.new ≡ string_bytes text.old ++ failure_text name.now) }
{
    let head = named(alloc, name, b"/head")?;
    push(text, "],\"failure\":[{\"request_range\":{\"key\":")?;
    put_encoded(text, head.as_slice())?;
    push(text, "}}]}")
}

/// A commit: where the head of this name has this revision it gets this value, the pages from the first on get these bytes, and
/// the dropped ones go.
#[derive(Drop)]
pub struct Commit<'a> {
    pub name: &'a [u8],
    pub revision: &'a str,
    pub value: &'a [u8],
    pub first: u32,
    pub bytes: &'a [u8],
    pub dropped: Option<u32>,
}

/// Writes the body of a commit.
pub fn put_commit(alloc: Global, text: &mut String, commit: &Commit<'_>) -> Result<(), NoMemory>
    requires { commit.now.first + length commit.now.bytes.now < 2 ^ 32 }
    ensures { OnOk result (string_bytes text.new ≡ string_bytes text.old
        ++ commit_text commit.now.name.now commit.now.revision.now commit.now.value.now commit.now.first commit.now.bytes.now commit.now.dropped) }
{
    let head = named(alloc, commit.name, b"/head")?;
    put_compare(alloc, text, commit.name, commit.revision)?;
    put_put(text, head.as_slice(), commit.value)?;
    put_pages(alloc, text, commit.name, commit.first, commit.bytes)?;
    put_drop(alloc, text, commit.name, commit.dropped)?;
    put_failure(alloc, text, commit.name)
}

/// Writes the body of a sync without changes.
pub fn put_check(
    alloc: Global,
    text: &mut String,
    name: &[u8],
    revision: &str,
) -> Result<(), NoMemory>
    ensures { OnOk result (string_bytes text.new ≡ string_bytes text.old ++ check_text name.now revision.now) }
{
    put_compare(alloc, text, name, revision)?;
    put_failure(alloc, text, name)
}
