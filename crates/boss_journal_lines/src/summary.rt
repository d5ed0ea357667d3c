ghost use Rattle.std.specs.Prelude.{◌≡◌, ◌+◌, ◌≤◌, [], ◌++◌, decimal, length, IfOk, vec_len, vec_capacity};
ghost use Rattle.boss_journal_lines.specs.Reports.{longest_summary, new_line, summary_line};

use boss_model::NoMemory;
use std::alloc::Global;

/// How many bytes a summary has at most: its words, its end, and four numbers of 20 digits.
pub const LONGEST_SUMMARY: usize = 110;

/// The line that tells of a journal that is new.
pub fn new_line() -> &'static [u8]
    ensures { result.now ≡ new_line }
{
    b"journal new\n"
}

/// The line that tells what a journal stands for: how many events, the moment of the last change in milliseconds, how many leases
/// are live and how many reversions are under way.
pub fn summary_line(
    alloc: Global,
    events: u64,
    now: u64,
    leases: u64,
    pending: u64,
) -> Result<Vec<u8>, NoMemory>
    ensures { IfOk result (λ line. line.items ≡ summary_line events now leases pending) }
{
    let mut line = Vec::new(alloc);
    line.reserve(LONGEST_SUMMARY)?;
    summary_in_room(&mut line, events, now, leases, pending);
    Ok(line)
}

/// The same in a line that is empty and has room for it: no memory is taken.
pub fn summary_in_room(line: &mut Vec<u8>, events: u64, now: u64, leases: u64, pending: u64)
    requires empty { line.old.items ≡ [] }
    requires room { longest_summary ≤ vec_capacity line.old }
    ensures { line.new.items ≡ summary_line events now leases pending }
{
    put(line, b"events ", events);
    put(line, b" now ", now);
    put(line, b" leases ", leases);
    put(line, b" pending ", pending);
    put_bytes(line, b"\n");
}

/// Puts a word and a number behind what is there.
pub(crate) fn put(line: &mut Vec<u8>, word: &[u8], number: u64)
    requires room { vec_len line.old + length word.now + 20 ≤ vec_capacity line.old }
    ensures items { line.new.items ≡ line.old.items ++ word.now ++ decimal number }
    ensures short { vec_len line.new ≤ vec_len line.old + length word.now + 20 }
    ensures room { vec_capacity line.old ≤ vec_capacity line.new }
{
    put_bytes(line, word);
    put_bytes(line, itoa::Buffer::new().format(number).as_bytes());
}

/// Puts bytes behind what is there, for which there is room.
pub(crate) fn put_bytes(line: &mut Vec<u8>, bytes: &[u8])
    requires room { vec_len line.old + length bytes.now ≤ vec_capacity line.old }
    ensures items { line.new.items ≡ line.old.items ++ bytes.now }
    ensures room { vec_capacity line.old ≤ vec_capacity line.new }
{
    let put = line.extend_from_slice(bytes);
    let Ok(()) = put else { unreachable!() };
}
