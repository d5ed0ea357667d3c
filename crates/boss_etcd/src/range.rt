ghost use Rattle.std.specs.Prelude.{◌≡◌, ◌++◌, OnOk, string_bytes};
ghost use Rattle.boss_etcd.specs.Ranges.{head_range_text, keys_text, pages_range_text};

use crate::request::{key_of, named, push, put_encoded};
use boss_model::NoMemory;
use std::alloc::Global;

/// Writes the body that reads the head of this name.
pub fn put_head_range(alloc: Global, text: &mut String, name: &[u8]) -> Result<(), NoMemory>
    ensures { OnOk result (string_bytes text.new ≡ string_bytes text.old ++ head_range_text name.now) }
{
    let head = named(alloc, name, b"/head")?;
    push(text, "{\"key\":")?;
    put_encoded(text, head.as_slice())?;
    push(text, "}")
}

/// Writes the body that reads pages of this name as they were at a revision: 256 of them at most, from this one on.
pub fn put_pages_range(
    alloc: Global,
    text: &mut String,
    name: &[u8],
    page: u32,
    revision: &str,
) -> Result<(), NoMemory>
    ensures { OnOk result (string_bytes text.new ≡ string_bytes text.old ++ pages_range_text name.now page revision.now) }
{
    put_keys(alloc, text, name, page)?;
    push(text, ",\"limit\":\"256\",\"revision\":\"")?;
    push(text, revision)?;
    push(text, "\"}")
}

/// Writes which keys are read: those of pages from this one on.
fn put_keys(alloc: Global, text: &mut String, name: &[u8], page: u32) -> Result<(), NoMemory>
    ensures { OnOk result (string_bytes text.new ≡ string_bytes text.old ++ keys_text name.now page) }
{
    let key = key_of(alloc, name, page)?;
    let end = named(alloc, name, b"/p0")?;
    push(text, "{\"key\":")?;
    put_encoded(text, key.as_slice())?;
    push(text, ",\"range_end\":")?;
    put_encoded(text, end.as_slice())
}
