ghost use Rattle.std.specs.Prelude.{◌≡◌, ◌+◌, ◌/◌, ◌^◌, ◌≤◌, ◌<◌, IfOk, IfSome};
ghost use Rattle.boss_etcd.specs.Heads.{changes_nothing, dropped_of, head_text, next_length};

use boss_model::{Items, NoMemory};
use std::alloc::Global;

/// The head of a chain, as its owner found it or left it.
#[derive(Debug, Drop)]
pub struct Head {
    /// The revision that it has, in decimal digits: 0 where there is none.
    pub revision: Items<u8>,
    /// The revision that it had as its owner found it.
    pub owner: Items<u8>,
    /// How many commits its owner made.
    pub number: u64,
    /// How many bytes there are.
    pub length: u64,
}

/// The value of a head.
pub fn head_text(alloc: Global, owner: &[u8], number: u64, length: u64) -> Result<Vec<u8>, NoMemory>
    ensures { IfOk result (λ text. text.items ≡ head_text owner.now number length) }
{
    let mut text = Vec::from_slice(alloc, b"bossd1 ")?;
    text.extend_from_slice(owner)?;
    text.extend_from_slice(b" ")?;
    text.extend_from_slice(itoa::Buffer::new().format(number).as_bytes())?;
    text.extend_from_slice(b" ")?;
    text.extend_from_slice(itoa::Buffer::new().format(length).as_bytes())?;
    Ok(text)
}

/// How many bytes there are after a commit that ends at this place.
fn next_length(length: u64, end: u64, last: bool) -> u64
    ensures { result ≡ next_length length end last }
{
    if last { end } else { length.max(end) }
}

/// The first page that a commit drops, if it drops any.
fn dropped_of(length: u64, end: u64, last: bool) -> Option<u32>
    requires { end ≤ 2 ^ 40 }
    ensures { result ≡ dropped_of length end last }
{
    if last && end < length {
        Some(((end + 1_023) / 1_024) as u32)
    } else {
        None
    }
}

/// Where a commit puts pages and drops some, and how many bytes there are then.
#[derive(Clone, Copy, Debug, PartialEq, Eq)]
pub struct Place {
    pub first: u32,
    pub dropped: Option<u32>,
    pub length: u64,
}

/// The end of the last page that has a number here.
const MOST: u64 = 1_099_511_627_776;

/// Where a commit of so many bytes puts its pages. Past the last page that has a number there is no place.
pub fn place_of(length: u64, at: u64, count: usize, last: bool) -> Option<Place>
    requires { count ≤ 65536 }
    ensures first { IfSome result (λ place. place.first ≡ at / 1024) }
    ensures room { IfSome result (λ place. place.first + count < 2 ^ 32) }
    ensures dropped { IfSome result (λ place. place.dropped ≡ dropped_of length (at + count) last) }
    ensures length { IfSome result (λ place. place.length ≡ next_length length (at + count) last) }
{
    let end = at.checked_add(count as u64)?;
    if end > MOST {
        return None;
    }
    Some(Place {
        first: (at / 1_024) as u32,
        dropped: dropped_of(length, end, last),
        length: next_length(length, end, last),
    })
}

/// Whether a commit changes nothing, so that the head has only to be compared.
pub fn changes_nothing(head: &Head, at: u64, bytes: &[u8], last: bool) -> bool
    ensures { result ≡ changes_nothing head.now at bytes.now last }
{
    head.number > 0 && bytes.is_empty() && !(last && at < head.length)
}
