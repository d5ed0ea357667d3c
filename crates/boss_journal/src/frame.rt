ghost use Rattle.std.specs.Prelude.{◌≡◌, ℕ, ◌+◌, ◌≤◌, ◌^◌, ◌<◌, ◌∷◌, [], ◌++◌, List, length, OnOk};
ghost use Rattle.boss_model.specs.Limits.{longest_record};
ghost use Rattle.boss_outside.specs.Counts.{HasCause};
ghost use Rattle.boss_disk.specs.Runs.{WritesThrough};
ghost use Rattle.boss_disk.specs.Window.{overwritten};
ghost use Rattle.boss_journal.specs.Appends.{Puts};
ghost use Rattle.def_log.specs.Log.{framed};

use boss_disk::{Disk, write_through};
use boss_outside::Failed;

/// What stands around a record: its gate and four bytes of length before it, and the next gate behind it.
const AROUND: usize = 6;

/// The room for usual records. A room is cleared before it is filled, so it is to be of about the record's own size. The event
/// of a write to one point has 31 bytes, and a record has at most sixteen events: 502 bytes with what is around them.
const USUAL: usize = 512;

/// The room for one event of any length: one has at most 3,669 bytes.
const LONG: usize = 4_096;

/// The room for all others: the longest record has 65,535 bytes.
const LONGEST: usize = 65_541;

/// Puts a record behind the gate at this place, and opens the gate: at once where the disk writes that whole, and else once the
/// record is synced.
pub fn put_framed<D: Disk>(disk: &mut D, place: u64, bytes: &[u8]) -> Result<(), Failed>
    requires low { place ≤ 2 ^ 62 }
    requires at_gate { D.tells → place < length (D.reads disk.old) }
    requires within { length bytes.now ≤ longest_record }
    ensures limit { OnOk result (place + length bytes.now + 6 ≤ 2 ^ 62) }
    ensures puts { D.tells → Puts bytes.now place (D.reads disk.old) (D.reads disk.new) (D.story disk.old) (D.story disk.new) result }
    ensures cause { HasCause (D.faults disk.old) (D.faults disk.new) result }
{
    let needed = bytes.len() + AROUND;
    if needed <= USUAL {
        put_in_room::<D, USUAL>(disk, place, bytes)
    } else if needed <= LONG {
        put_in_room::<D, LONG>(disk, place, bytes)
    } else {
        put_in_room::<D, LONGEST>(disk, place, bytes)
    }
}

/// The same as `put_framed`, in a room of this many bytes. It is a function of its own for each size, since a function pays for the
/// pages of its largest room as it begins, whichever it takes.
#[inline(never)]
fn put_in_room<D: Disk, const ROOM: usize>(
    disk: &mut D,
    place: u64,
    bytes: &[u8],
) -> Result<(), Failed>
    requires low { place ≤ 2 ^ 62 }
    requires at_gate { D.tells → place < length (D.reads disk.old) }
    requires within { length bytes.now ≤ longest_record }
    requires room { length bytes.now + 6 ≤ ROOM }
    requires small { ROOM < 2 ^ 63 }
    ensures limit { OnOk result (place + length bytes.now + 6 ≤ 2 ^ 62) }
    ensures puts { D.tells → Puts bytes.now place (D.reads disk.old) (D.reads disk.new) (D.story disk.old) (D.story disk.new) result }
    ensures cause { HasCause (D.faults disk.old) (D.faults disk.new) result }
{
    let mut room = [0u8; ROOM];
    let gated = &mut room[..bytes.len() + AROUND];
    gated[0] = 1;
    frame(bytes, &mut gated[1..]);
    put_gated(disk, place, gated)
}

/// Writes an open gate, a record and a shut gate at this place, and syncs the disk: all at once where the disk writes that whole, and
/// else the open gate last.
fn put_gated<D: Disk>(disk: &mut D, place: u64, gated: &[u8]) -> Result<(), Failed>
    requires some { 1 ≤ length gated.now }
    requires low { place ≤ 2 ^ 62 }
    requires at_gate { D.tells → place < length (D.reads disk.old) }
    ensures limit { OnOk result (place + length gated.now ≤ 2 ^ 62) }
    ensures puts { D.tells → (record_bytes : List ℕ) → length record_bytes ≤ longest_record
        → gated.now ≡ 1 ∷ (framed record_bytes ++ 0 ∷ [])
        → Puts record_bytes place (D.reads disk.old) (D.reads disk.new) (D.story disk.old) (D.story disk.new) result }
    ensures cause { HasCause (D.faults disk.old) (D.faults disk.new) result }
{
    if disk.write_whole(place, gated)? {
        return Ok(());
    }
    write_through(disk, place + 1, &gated[1..])?;
    open_gate(disk, place)
}

/// Opens the gate at this place, and syncs the disk.
fn open_gate<D: Disk>(disk: &mut D, place: u64) -> Result<(), Failed>
    requires { D.tells → place ≤ length (D.reads disk.old) }
    ensures reads { D.tells → OnOk result (D.reads disk.new ≡ overwritten place (1 ∷ []) (D.reads disk.old)) }
    ensures windows { D.tells → WritesThrough place (1 ∷ []) (D.reads disk.old) (D.story disk.old) (D.story disk.new) result }
    ensures cause { HasCause (D.faults disk.old) (D.faults disk.new) result }
{
    write_through(disk, place, &[1])
}

/// Fills the slice with the length, the record and a shut gate.
fn frame(bytes: &[u8], into: &mut [u8])
    requires within { length bytes.now ≤ longest_record }
    requires room { length into.old ≡ length bytes.now + 5 }
    ensures { into.new ≡ framed bytes.now ++ 0 ∷ [] }
{
    let count = bytes.len();
    into[..4].copy_from_slice(&(count as u32).to_be_bytes());
    into[4..4 + count].copy_from_slice(bytes);
    into[4 + count] = 0;
}
