ghost use Rattle.std.specs.Prelude.{◌≡◌, ◌↔◌, ℕ, ◌+◌, ◌≤◌, List, length, take, slice_index, codes, IsTrue, MatchOption, MatchResult, IfErr, IfOk};
ghost use Rattle.boss_journal.specs.Fronts.{fresh_rest, IsFresh};
ghost use Rattle.def_log.specs.Versions.{IsKnown};
ghost use Rattle.boss_journal.specs.Opens.{IsFront, Refuses, OpenCause, IsStart};

use crate::OpenRefusal;
use crate::heading::read_some;
use boss_disk::Disk;
use def_log::is_known;

/// The first bytes of a journal but for the first of all.
const MARK: [u8; 8] = *b"BOSSJRNL";

/// What a disk holds that may be a journal.
#[derive(Clone, Copy, Debug, PartialEq, Eq)]
pub enum Start {
    /// At most one byte.
    Short,
    /// A first byte of 0, and at most 42 bytes in all.
    Begun,
    /// A journal of this version without records, but for its first byte.
    Fresh { version: u8 },
    /// A journal of this version.
    Old { version: u8 },
}

/// What a disk holds, or why it is no journal of the catalogue with this digest.
pub fn find_start<D: Disk>(disk: &mut D, digest: &[u8; 32]) -> Result<Start, OpenRefusal>
    ensures start { D.tells → IsStart digest.now (D.reads disk.old) result }
    ensures reads { D.tells → D.reads disk.new ≡ D.reads disk.old }
    ensures windows { D.tells → D.story disk.new ≡ D.story disk.old }
    ensures fine { IfOk result (λ _. D.faults disk.new ≡ D.faults disk.old) }
    ensures cause { IfErr result (OpenCause (D.faults disk.old) (D.faults disk.new)) }
{
    let end = disk.length()?;
    let mut first = [0u8; 43];
    let count = read_some(disk, 0, end, &mut first)?;
    start_of(&first[..count], digest)
}

/// What bytes are that begin with these, which are all or the first 43.
fn start_of(first: &[u8], digest: &[u8; 32]) -> Result<Start, OpenRefusal>
    ensures start { (bytes : List ℕ) → first.now ≡ take 43 bytes → IsStart digest.now bytes result }
    ensures cause { (count : ℕ) → IfErr result (OpenCause count count) }
{
    if first.is_empty() {
        return Ok(Start::Short);
    }
    if let Some(version) = fresh_version(first, digest) {
        return Ok(Start::Fresh { version });
    }
    if is_begun(first) {
        return Ok(Start::Begun);
    }
    if first.len() == 1 {
        return Ok(Start::Short);
    }
    match front_version(first, digest) {
        Ok(version) => Ok(Start::Old { version }),
        Err(refusal) => Err(refusal),
    }
}

/// Whether these bytes begin with 0 and are all that a journal without records has at most.
fn is_begun(first: &[u8]) -> bool
    requires { 1 ≤ length first.now }
    ensures { IsTrue result ↔ ((length first.now ≤ 42) × (slice_index first.now 0 ≡ 0)) }
{
    first.len() <= 42 && first[0] == 0
}

/// The version of a journal without records, whatever its first byte is.
fn fresh_version(first: &[u8], digest: &[u8; 32]) -> Option<u8>
    ensures { (bytes : List ℕ) → first.now ≡ take 43 bytes
        → MatchOption result ((v : ℕ) → IsFresh v digest.now bytes → ⊥) (λ v. IsFresh v digest.now bytes) }
{
    if first.len() != 42 {
        return None;
    }
    let version = first[8];
    if !is_known(version) {
        return None;
    }
    let rest = fresh_head(version, digest);
    if !are_same(&first[1..], &rest) {
        return None;
    }
    Some(version)
}

/// The version of a journal by its front, or why it is none of this catalogue.
fn front_version(first: &[u8], digest: &[u8; 32]) -> Result<u8, OpenRefusal>
    ensures front { (bytes : List ℕ) → first.now ≡ take 43 bytes → IsFront digest.now bytes result }
    ensures cause { (count : ℕ) → IfErr result (OpenCause count count) }
{
    if !is_marked(first) {
        return Err(OpenRefusal::NotAJournal);
    }
    let version = first[8];
    if !is_known(version) {
        return Err(OpenRefusal::Version { found: version });
    }
    let mut kept = [0u8; 32];
    kept.copy_from_slice(&first[9..41]);
    if !are_same(&kept, digest) {
        return Err(OpenRefusal::Catalogue {
            kept,
            found: *digest,
        });
    }
    Ok(version)
}

/// Whether these begin with the mark, and are as many as a journal has at least.
fn is_marked(first: &[u8]) -> bool
    ensures { IsTrue result ↔ ((42 ≤ length first.now) × (take 8 first.now ≡ codes "BOSSJRNL")) }
{
    first.len() >= 42 && are_same(&first[..8], &MARK)
}

/// Whether these are the same bytes.
fn are_same(some: &[u8], other: &[u8]) -> bool
    ensures { IsTrue result ↔ (some.now ≡ other.now) }
{
    some == other
}

/// Bytes 1 to 41 of a journal without records.
pub fn fresh_head(version: u8, digest: &[u8; 32]) -> [u8; 41]
    ensures { result ≡ fresh_rest version digest.now }
{
    let mut rest = [0u8; 41];
    rest[..7].copy_from_slice(b"OSSJRNL");
    rest[7] = version;
    rest[8..40].copy_from_slice(digest);
    rest
}
