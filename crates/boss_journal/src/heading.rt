ghost use Rattle.std.specs.Prelude.{◌≡◌, ◌↔◌, IsTrue, ℕ, ◌+◌, ◌-◌, ◌^◌, ◌≤◌, ◌<◌, List, length, take, drop, min, IfOk};
ghost use Rattle.std.specs.Int.{w32, to_be_bytes};
ghost use Rattle.boss_outside.specs.Counts.{HasCause};
ghost use Rattle.boss_journal.specs.Headings.{IsHeading, Within};

use boss_disk::Disk;
use boss_model::LONGEST_RECORD;
use boss_outside::Failed;

/// What stands at a place of a journal.
#[derive(Clone, Copy, Debug, PartialEq, Eq)]
pub enum Heading {
    /// No open gate.
    Shut,
    /// An open gate, and no record with a next gate behind it.
    Broken,
    /// An open gate, a record of so many bytes behind it, and a next gate.
    Whole { size: u32 },
}

/// What stands at a place of a disk.
pub fn read_heading<D: Disk>(disk: &mut D, place: u64) -> Result<Heading, Failed>
    requires { place ≤ 2 ^ 62 }
    ensures heading { D.tells → IfOk result (IsHeading (drop place (D.reads disk.old))) }
    ensures inside { D.tells → IfOk result (Within (length (D.reads disk.old) - place)) }
    ensures low { IfOk result (Within (2 ^ 62 - place)) }
    ensures reads { D.tells → D.reads disk.new ≡ D.reads disk.old }
    ensures windows { D.tells → D.story disk.new ≡ D.story disk.old }
    ensures cause { HasCause (D.faults disk.old) (D.faults disk.new) result }
{
    let end = disk.length()?;
    let mut head = [0u8; 5];
    let count = read_some(disk, place, end, &mut head)?;
    Ok(heading_of(&head[..count], end.saturating_sub(place)))
}

/// What stands at the head of so many bytes, by the first five of them.
fn heading_of(head: &[u8], left: u64) -> Heading
    ensures heading { (bytes : List ℕ) → head.now ≡ take 5 bytes → left ≡ length bytes → IsHeading bytes result }
    ensures inside { Within left result }
{
    if head.is_empty() || !is_open(head[0]) {
        return Heading::Shut;
    }
    if head.len() < 5 {
        return Heading::Broken;
    }
    let size = size_of(&head[1..5]);
    if size > LONGEST_RECORD {
        return Heading::Broken;
    }
    if left <= u64::from(size) + 5 {
        return Heading::Broken;
    }
    Heading::Whole { size }
}

/// Whether a gate is open.
fn is_open(gate: u8) -> bool
    ensures { IsTrue result ↔ (gate ≡ 1) }
{
    gate == 1
}

/// The number that four bytes spell.
fn size_of(bytes: &[u8]) -> u32
    requires { length bytes.now ≡ 4 }
    ensures { to_be_bytes w32 result ≡ bytes.now }
{
    u32::from_be_bytes([bytes[0], bytes[1], bytes[2], bytes[3]])
}

/// Fills the slice with the bytes of a disk of this length from a place on, or with as many as there are, and tells how many.
pub fn read_some<D: Disk>(disk: &mut D, at: u64, end: u64, into: &mut [u8]) -> Result<usize, Failed>
    requires { D.tells → end ≡ length (D.reads disk.old) }
    ensures count { IfOk result (λ count. count ≡ min (end - at) (length into.old)) }
    ensures given { D.tells → IfOk result (λ count. take count into.new ≡ take (length into.old) (drop at (D.reads disk.old))) }
    ensures reads { D.tells → D.reads disk.new ≡ D.reads disk.old }
    ensures windows { D.tells → D.story disk.new ≡ D.story disk.old }
    ensures cause { HasCause (D.faults disk.old) (D.faults disk.new) result }
{
    let count = end.saturating_sub(at).min(into.len() as u64) as usize;
    if count == 0 {
        return Ok(0);
    }
    disk.read_at(at, &mut into[..count])?;
    Ok(count)
}
