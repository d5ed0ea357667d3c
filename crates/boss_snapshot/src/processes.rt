ghost use Rattle.std.specs.Prelude.{◌≡◌, ◌≢◌, ◌+◌, ◌-◌, ◌<◌, ◌^◌, ◌≤◌, ℕ, length, map};
ghost use Rattle.def_bytes.specs.Fields.{items_at};
ghost use Rattle.std.specs.Int.{w16};
ghost use Rattle.def_bytes.specs.Parts.{listed};
ghost use Rattle.def_bytes.specs.States.{process, told};
ghost use Rattle.boss_model.specs.Seen.{seen_process};
ghost use Rattle.boss_records.specs.Given.{Gives};
ghost use Rattle.boss_snapshot.specs.Numbered.{numbered, sent_at};

use boss_model::{Items, KeptProcess, NOTICES_KEPT, Notice};
use boss_records::{NoSpelling, Spelled, Unread, read_name, read_reply, read_u16, read_u64};
use std::alloc::Global;

/// So many notices, one behind the other, numbered from the one behind this number on.
fn read_notices(
    alloc: Global,
    before: u64,
    count: u16,
    bytes: &[u8],
) -> Result<(Vec<Notice>, &[u8]), Unread>
    requires { before + count < 2 ^ 64 }
    ensures { Gives (λ x. (x.0.items, x.1.now)) result (numbered (before + 1) (items_at told count bytes.now)) }
{
    let mut notices = Vec::new(alloc);
    let mut rest = bytes;
    for place in 0..count {
        let (told, behind) = match Notice::read(alloc, rest) {
            Ok(found) => found,
            Err(unread) => return Err(unread),
        };
        let notice = Notice {
            number: before + 1 + u64::from(place),
            at: told.at,
            txn: told.txn,
            what: told.what,
        };
        notices.push(notice)?;
        rest = behind;
    }
    Ok((notices, rest))
}

/// How many notices were before the last so many.
fn before_last(count: u64, many: u16) -> u64
    requires { many ≤ count }
    ensures { result + many ≡ count }
{
    count - u64::from(many)
}

/// The number of notices so far, how many of them are kept, and these.
fn read_sent(alloc: Global, bytes: &[u8]) -> Result<(u64, Vec<Notice>, &[u8]), Unread>
    ensures { Gives (λ x. ((x.0, x.1.items), x.2.now)) result (sent_at bytes.now) }
{
    let (count, rest) = read_u64(bytes)?;
    let (many, rest) = read_u16(rest)?;
    if usize::from(many) > NOTICES_KEPT {
        return Err(Unread::NoSpelling);
    }
    if u64::from(many) > count {
        return Err(Unread::NoSpelling);
    }
    let before = before_last(count, many);
    match read_notices(alloc, before, many, rest) {
        Ok((notices, rest)) => Ok((count, notices, rest)),
        Err(unread) => Err(unread),
    }
}

/// A process: its name, its notices, and in version 2 its kept reply.
fn read_process(alloc: Global, version: u8, bytes: &[u8]) -> Result<(KeptProcess, &[u8]), Unread>
    ensures { Gives (λ x. (seen_process x.0, x.1.now)) result ((process version).at bytes.now) }
{
    let (name, rest) = read_name(bytes)?;
    match read_sent(alloc, rest) {
        Ok((count, notices, rest)) => match read_reply(version, rest) {
            Ok((reply, rest)) => {
                let process = KeptProcess {
                    name,
                    count,
                    notices: Items::from_vec(notices),
                    reply,
                };
                Ok((process, rest))
            }
            Err(NoSpelling) => Err(Unread::NoSpelling),
        },
        Err(unread) => Err(unread),
    }
}

/// So many processes, one behind the other.
fn read_so_many(
    alloc: Global,
    version: u8,
    count: u16,
    bytes: &[u8],
) -> Result<(Vec<KeptProcess>, &[u8]), Unread>
    ensures { Gives (λ x. (map seen_process x.0.items, x.1.now)) result (items_at (process version) count bytes.now) }
{
    let mut processes = Vec::new(alloc);
    let mut rest = bytes;
    for _ in 0..count {
        let (process, behind) = read_process(alloc, version, rest)?;
        processes.push(process)?;
        rest = behind;
    }
    Ok((processes, rest))
}

/// A list of processes with their number in 16 bits.
pub fn read_processes(
    alloc: Global,
    version: u8,
    bytes: &[u8],
) -> Result<(Vec<KeptProcess>, &[u8]), Unread>
    ensures { Gives (λ x. (map seen_process x.0.items, x.1.now)) result ((listed w16 (process version)).at bytes.now) }
{
    let (count, rest) = read_u16(bytes)?;
    read_so_many(alloc, version, count, rest)
}
