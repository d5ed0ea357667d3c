ghost use Rattle.std.specs.Prelude.{◌≡◌, ◌≤◌, length, IfOk, IsTrue, option_map};
ghost use Rattle.boss_places.specs.Words.{first_of, is_member, is_name, is_place, is_second, key_of, members_from, name_in, place_of, place_with};

use crate::cutting::cut_at;
use crate::member::{all_host_bytes, is_member};
use boss_model::{Items, NoMemory};
use std::alloc::Global;

/// How such a word begins.
const SCHEME: &[u8] = b"etcd:";

/// What stands behind the name of a journal's second file.
const SECOND: &[u8] = b".b";

/// How many members a word may have.
const MOST_MEMBERS: usize = 9;

/// Where one of a journal's two files is kept in etcd.
#[derive(Debug, Drop)]
pub struct Place {
    /// The members of the cluster, each a host, a colon and a port, in the order in which they are asked.
    pub members: Items<Items<u8>>,
    /// The journal's name.
    pub name: Items<u8>,
    /// Whether it is the second one.
    pub is_second: bool,
}

impl Place {
    /// The keys of this file begin with this, and those of no other: the journal's name, and `/a` or `/b`.
    pub fn key(&self, alloc: Global) -> Result<Items<u8>, NoMemory>
        ensures { IfOk result (λ key. key ≡ key_of self.now) }
    {
        let mut key = self.name.slice().to_vec(alloc)?;
        key.extend_from_slice(if self.is_second { b"/b" } else { b"/a" })?;
        Ok(Items::from_vec(key))
    }
}

/// Whether this word means a place in etcd, rightly or wrongly, and no file.
pub fn is_place(word: &[u8]) -> bool
    ensures place { result ≡ is_place word.now }
    ensures long { IsTrue result → 5 ≤ length word.now }
{
    word.starts_with(SCHEME)
}

/// The place that a word means, or nothing where it means none: `etcd:`, one to nine members with commas between them, a slash, and the
/// journal's name, with `.b` behind it for its second file.
pub fn read_place(alloc: Global, word: &[u8]) -> Result<Option<Place>, NoMemory>
    ensures { IfOk result (λ place. place ≡ place_of word.now) }
{
    if !is_place(word) {
        return Ok(None);
    }
    match cut_at(&word[SCHEME.len()..], b'/') {
        Some((members, file)) => place_with(alloc, members, file),
        None => Ok(None),
    }
}

/// The place that these members have under this name of a file.
fn place_with(alloc: Global, members: &[u8], file: &[u8]) -> Result<Option<Place>, NoMemory>
    ensures { IfOk result (λ place. place ≡ place_with members.now file.now) }
{
    let name = name_in(file);
    if !is_name(name) {
        return Ok(None);
    }
    let Some(members) = read_members(alloc, members, MOST_MEMBERS)? else {
        return Ok(None);
    };
    Ok(Some(Place {
        members,
        name: Items::from_vec(name.to_vec(alloc)?),
        is_second: is_second(file),
    }))
}

/// Whether this is the name of a journal's second file.
fn is_second(file: &[u8]) -> bool
    ensures second { result ≡ is_second file.now }
    ensures long { IsTrue result → 2 ≤ length file.now }
{
    file.ends_with(SECOND)
}

/// The journal's name.
fn name_in(file: &[u8]) -> &[u8]
    ensures { result.now ≡ name_in file.now }
{
    if is_second(file) {
        &file[..file.len() - SECOND.len()]
    } else {
        file
    }
}

/// Whether these bytes name a journal: 1 to 64 of `A-Z a-z 0-9 . _ -`, and `.b` not behind all others.
fn is_name(name: &[u8]) -> bool
    ensures { result ≡ is_name name.now }
{
    match name.len() {
        1..=64 => !is_second(name) && all_host_bytes(name),
        _ => false,
    }
}

/// The members that a text names, with commas between them, where there are at most so many.
#[tactic(auto, using(crate::proofs::Members::no_member, crate::proofs::Members::last_member, crate::proofs::Members::one_member))]
fn read_members(
    alloc: Global,
    text: &[u8],
    most: usize,
) -> Result<Option<Items<Items<u8>>>, NoMemory>
    ensures { IfOk result (λ members. members ≡ members_from most text.now) }
{
    let mut members = Items::new(alloc);
    let mut rest = text;
    let mut left = most;
    while left > 0 {
        let (member, behind) = first_of(rest);
        if !is_member(member) {
            return Ok(None);
        }
        members.try_push(Items::from_vec(member.to_vec(alloc)?))?;
        let Some(behind) = behind else {
            return Ok(Some(members));
        };
        rest = behind;
        left -= 1;
    }
    Ok(None)
}

/// What stands before the first comma, and what behind it, if there is one.
fn first_of(text: &[u8]) -> (&[u8], Option<&[u8]>)
    ensures first { result.0.now ≡ (first_of text.now).0 }
    ensures behind { option_map (λ behind. behind.now) result.1 ≡ (first_of text.now).1 }
{
    match cut_at(text, b',') {
        Some((first, behind)) => (first, Some(behind)),
        None => (text, None),
    }
}
