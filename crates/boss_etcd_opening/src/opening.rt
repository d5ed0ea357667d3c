ghost use Rattle.std.specs.Prelude.{◌≡◌, ◌≤◌, ◌^◌, IfOk, length};

use crate::found::{Found, read_head};
use crate::pages::read_pages;
use boss_etcd::{Head, Members, put_head_range, put_pages_range};
use boss_model::{Items, NoMemory};
use boss_outside::Link;
use json::Scratch;
use std::alloc::{AllocError, Global};
use std::str;

/// Where a read is posted to.
const RANGE: &[u8] = b"/v3/kv/range";

/// How often a read is asked for, at most, until an answer says something.
const TIMES: usize = 8;

/// The bytes of a page.
const PAGE: usize = 1_024;

/// How many pages one read gives at most.
const MOST_PAGES: usize = 256;

/// How many reads give all pages that have numbers, at most.
const MOST_READS: usize = 4_194_305;

/// The most bytes that there may be, which is as many as pages have numbers for.
const MOST: u64 = 1_099_511_627_776;

/// What was found: the head for whoever is to own it next, and the bytes.
#[derive(Debug, Drop)]
pub struct Opened {
    pub head: Head,
    pub bytes: Vec<u8>,
}

/// Why nothing was opened.
#[derive(Clone, Copy, Debug, PartialEq, Eq)]
pub enum OpenFault {
    /// No member answered, or none said anything that is an answer.
    Unanswered,
    /// What stands under the name is no journal's.
    Foreign,
    /// Pages are missing, or are not what they should be.
    Damaged,
    /// No memory was to be had.
    NoMemory,
}

impl From<NoMemory> for OpenFault {
    ghost use Rattle.boss_etcd_opening.specs.declared.opening.OpenFault.TheVariants.{NoMemory};

    ghost from_gives = { λ _ fault. fault ≡ NoMemory };

    fn from(_error: NoMemory) -> Self {
        OpenFault::NoMemory
    }
}

impl From<AllocError> for OpenFault {
    ghost use Rattle.boss_etcd_opening.specs.declared.opening.OpenFault.TheVariants.{NoMemory};

    ghost from_gives = { λ _ fault. fault ≡ NoMemory };

    fn from(_error: AllocError) -> Self {
        OpenFault::NoMemory
    }
}

/// Reads the head of a name, and its pages as they were then. Where there is neither, there are no bytes.
pub fn open<L: Link>(
    alloc: Global,
    members: &mut Members<L>,
    name: &[u8],
) -> Result<Opened, OpenFault>
    ensures { IfOk result (λ opened. length opened.bytes.items ≤ 2 ^ 40) }
{
    match find_head(alloc, members, name)? {
        Found::Nothing { at } => open_empty(alloc, members, name, &at),
        Found::Head {
            length,
            revision,
            at,
        } => open_full(alloc, members, name, length, revision, &at),
        Found::Foreign => Err(OpenFault::Foreign),
        Found::Unclear => Err(OpenFault::Unanswered),
    }
}

/// What is found where there is no head: nothing, if there are no pages either.
fn open_empty<L: Link>(
    alloc: Global,
    members: &mut Members<L>,
    name: &[u8],
    at: &Items<u8>,
) -> Result<Opened, OpenFault>
    ensures { IfOk result (λ opened. length opened.bytes.items ≤ 2 ^ 40) }
{
    match find_pages(alloc, members, name, at.slice(), 0) {
        Ok(bytes) => Ok(Opened {
            head: Head {
                revision: digit_zero(alloc)?,
                owner: digit_zero(alloc)?,
                number: 0,
                length: 0,
            },
            bytes,
        }),
        Err(OpenFault::Damaged) => Err(OpenFault::Foreign),
        Err(fault) => Err(fault),
    }
}

/// What is found where the head has this revision and tells this size.
fn open_full<L: Link>(
    alloc: Global,
    members: &mut Members<L>,
    name: &[u8],
    size: u64,
    revision: Items<u8>,
    at: &Items<u8>,
) -> Result<Opened, OpenFault>
    ensures { IfOk result (λ opened. length opened.bytes.items ≤ 2 ^ 40) }
{
    let owner = Items::from_vec(revision.slice().to_vec(alloc)?);
    let bytes = find_pages(alloc, members, name, at.slice(), size)?;
    Ok(Opened {
        head: Head {
            revision,
            owner,
            number: 0,
            length: size,
        },
        bytes,
    })
}

/// The revision of a key that is not there.
fn digit_zero(alloc: Global) -> Result<Items<u8>, NoMemory> {
    let mut digits = Items::new(alloc);
    digits.try_push(b'0')?;
    Ok(digits)
}

/// What the first answer says that says anything of the head.
fn find_head<L: Link>(
    alloc: Global,
    members: &mut Members<L>,
    name: &[u8],
) -> Result<Found, OpenFault> {
    let mut body = String::new(alloc);
    put_head_range(alloc, &mut body, name)?;
    for _ in 0..TIMES {
        match ask_head(alloc, members, body.as_bytes())? {
            Found::Unclear => {}
            found => return Ok(found),
        }
    }
    Ok(Found::Unclear)
}

/// Asks for the head once.
fn ask_head<L: Link>(
    alloc: Global,
    members: &mut Members<L>,
    body: &[u8],
) -> Result<Found, NoMemory> {
    if !members.ask(RANGE, body) {
        return Ok(Found::Unclear);
    }
    let mut scratch = Scratch::new(alloc);
    let found = read_head(alloc, &mut scratch, members.content());
    if let Ok(Found::Unclear) = &found {
        members.leave();
    }
    found
}

/// All pages of a name at this revision, where they come to this size.
fn find_pages<L: Link>(
    alloc: Global,
    members: &mut Members<L>,
    name: &[u8],
    at: &[u8],
    size: u64,
) -> Result<Vec<u8>, OpenFault>
    ensures { IfOk result (λ bytes. length bytes.items ≤ 2 ^ 40) }
{
    let mut bytes = Vec::new(alloc);
    if size > MOST {
        return Err(OpenFault::Damaged);
    }
    for _ in 0..MOST_READS {
        let count = find_more(alloc, members, name, at, &mut bytes)?;
        if count < MOST_PAGES || bytes.len() as u64 > size {
            break;
        }
    }
    if bytes.len() as u64 != size {
        return Err(OpenFault::Damaged);
    }
    Ok(bytes)
}

/// Puts the next pages at this revision behind these bytes, and gives how many they are.
fn find_more<L: Link>(
    alloc: Global,
    members: &mut Members<L>,
    name: &[u8],
    at: &[u8],
    bytes: &mut Vec<u8>,
) -> Result<usize, OpenFault> {
    let body = pages_body(alloc, name, at, bytes.len())?;
    for _ in 0..TIMES {
        if members.ask(RANGE, body.as_bytes()) {
            let mut scratch = Scratch::new(alloc);
            let read = read_pages(alloc, &mut scratch, members.content(), name, bytes)?;
            return read.ok_or(OpenFault::Damaged);
        }
    }
    Err(OpenFault::Unanswered)
}

/// The body that reads the pages behind so many bytes.
fn pages_body(alloc: Global, name: &[u8], at: &[u8], length: usize) -> Result<String, OpenFault> {
    let Ok(page) = u32::try_from(length / PAGE) else {
        return Err(OpenFault::Damaged);
    };
    let Ok(revision) = str::from_utf8(at) else {
        return Err(OpenFault::Damaged);
    };
    let mut body = String::new(alloc);
    put_pages_range(alloc, &mut body, name, page, revision)?;
    Ok(body)
}
