ghost use Rattle.std.specs.Prelude.{◌≡◌, ◌↔◌, IsTrue, ℕ, ◌+◌, ◌-◌, ◌≤◌, List, length, take, drop, min, bytes_eq, IfOk};
ghost use Rattle.boss_outside.specs.Counts.{HasCause};
ghost use Rattle.def_log.specs.Kinds.{kind_of, mark_is, is_seeded, generation_of};
ghost use Rattle.boss_snapshot.specs.Firsts.{first_bytes, kind_by};

use boss_disk::Disk;
use boss_outside::Failed;
use boss_seal::{has_sums, seed_of};
use def_log::DiskKind;

/// The bytes 1 to 7 of a journal whose events begin at the first state.
pub const PLAIN_MARK: [u8; 7] = *b"OSSJRNL";

/// The bytes 1 to 7 of a kept state.
pub const STATE_MARK: [u8; 7] = *b"OSSSNAP";

/// What a disk holds, by its length and its first 73 bytes. The disk stays as it is.
pub fn kind<D: Disk>(disk: &mut D) -> Result<DiskKind, Failed>
    ensures kind { D.tells → IfOk result (λ k. k ≡ kind_of (D.reads disk.old)) }
    ensures reads { D.tells → D.reads disk.new ≡ D.reads disk.old }
    ensures windows { D.tells → D.story disk.new ≡ D.story disk.old }
    ensures cause { HasCause (D.faults disk.old) (D.faults disk.new) result }
{
    let end = disk.length()?;
    let mut first = [0u8; 73];
    let count = read_some(disk, end, &mut first)?;
    Ok(kind_by_first(end, &first[..count]))
}

/// Fills the slice with the first bytes of a disk of this length, or with as many as there are, and tells how many.
fn read_some<D: Disk>(disk: &mut D, end: u64, into: &mut [u8]) -> Result<usize, Failed>
    requires { D.tells → end ≡ length (D.reads disk.old) }
    ensures count { IfOk result (λ count. count ≡ min end (length into.old)) }
    ensures long { length into.new ≡ length into.old }
    ensures given { D.tells → IfOk result (λ count. take count into.new ≡ take (length into.old) (D.reads disk.old)) }
    ensures reads { D.tells → D.reads disk.new ≡ D.reads disk.old }
    ensures windows { D.tells → D.story disk.new ≡ D.story disk.old }
    ensures cause { HasCause (D.faults disk.old) (D.faults disk.new) result }
{
    let count = end.min(into.len() as u64) as usize;
    if count == 0 {
        return Ok(0);
    }
    disk.read_at(0, &mut into[..count])?;
    Ok(count)
}

/// What so many bytes are, by the first 73 of them.
fn kind_by_first(size: u64, first: &[u8]) -> DiskKind
    requires { length first.now ≡ min size first_bytes }
    ensures { result ≡ kind_by size first.now }
{
    if size <= 1 || first[0] == 0 {
        return DiskKind::Idle;
    }
    if size >= 42 && has_mark(first, &PLAIN_MARK) {
        return DiskKind::Plain;
    }
    if size >= 66 && has_mark(first, &STATE_MARK) && is_seeded(first) {
        let generation = generation(first);
        return DiskKind::State { generation };
    }
    DiskKind::Other
}

/// Whether the bytes 1 to 7 are these.
fn has_mark(first: &[u8], mark: &[u8; 7]) -> bool
    requires { 8 ≤ length first.now }
    ensures { result ≡ mark_is first.now mark.now }
{
    are_same(&first[1..8], mark)
}

/// Whether a kept state of a version with sums has their seed at 65, as its bytes 1 to 64 give it.
fn is_seeded(first: &[u8]) -> bool
    requires { 66 ≤ length first.now }
    ensures { result ≡ is_seeded first.now }
{
    if !has_sums(first[8]) {
        return true;
    }
    first.len() >= 73 && are_same(&first[65..73], &seed_of(&first[1..65]))
}

/// Whether these are the same bytes.
fn are_same(some: &[u8], other: &[u8]) -> bool
    ensures { result ≡ bytes_eq some.now other.now }
{
    some == other
}

/// The generation of a kept state, by its first 73 bytes.
fn generation(first: &[u8]) -> u64
    requires { 49 ≤ length first.now }
    ensures { result ≡ generation_of first.now }
{
    let mut bytes = [0u8; 8];
    bytes.copy_from_slice(&first[41..49]);
    u64::from_be_bytes(bytes)
}

/// Whether these are the same bytes.
pub fn is_same(some: &[u8], other: &[u8]) -> bool
    ensures { IsTrue result ↔ (some.now ≡ other.now) }
{
    some == other
}
