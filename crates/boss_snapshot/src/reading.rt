ghost use Rattle.std.specs.Prelude.{◌≡◌, ℕ, ◌+◌, ◌^◌, ◌≤◌, ◌<◌, List, length, take, drop, IfOk, IfErr, IfSome, None};
ghost use Rattle.def_log.specs.Kinds.{kind_of};
ghost use Rattle.boss_model.specs.Seen.{seen};
ghost use Rattle.boss_model.specs.State.{Persistent};
ghost use Rattle.boss_snapshot.specs.Fronts.{IsStateHead, text_place};
ghost use Rattle.boss_snapshot.specs.Spells.{SpellsSealed};
ghost use Rattle.boss_snapshot.specs.Refusals.{IsKeptState, IsState, ReadCause, Refuses};

use crate::fronts::{HEAD, StateHead, front_of, text_place};
use crate::{SnapshotRefusal, read_kept};
use boss_disk::Disk;
use boss_model::{Kept, NoMemory};
use boss_seal::{has_sums, unsealed};
use std::alloc::Global;

/// The kept state of a disk, the number of events before it, and the place of its first gate. The disk, whose kind is that
/// of a kept state, stays as it is. Memory is taken for no more bytes than the disk has.
pub fn read_state<D: Disk>(
    alloc: Global,
    disk: &mut D,
    digest: &[u8; 32],
) -> Result<(Kept, u64, u64), SnapshotRefusal>
    requires { D.tells → IsState (kind_of (D.reads disk.old)) }
    ensures finds { D.tells → IfOk result (λ x. IsKeptState digest.now (D.reads disk.old) (seen x.0) x.1 x.2) }
    ensures refuses { D.tells → IfErr result (Refuses digest.now (D.reads disk.old)) }
    ensures reads { D.tells → D.reads disk.new ≡ D.reads disk.old }
    ensures windows { D.tells → D.story disk.new ≡ D.story disk.old }
    ensures fine { IfOk result (λ _. D.faults disk.new ≡ D.faults disk.old) }
    ensures cause { IfErr result (ReadCause (D.faults disk.old) (D.faults disk.new)) }
{
    let head = read_head(disk, digest)?;
    read_spelled(alloc, disk, &head)
}

/// What stands before the state of a disk.
fn read_head<D: Disk>(disk: &mut D, digest: &[u8; 32]) -> Result<StateHead, SnapshotRefusal>
    requires { D.tells → 66 ≤ length (D.reads disk.old) }
    ensures finds { D.tells → IfOk result (λ head. IsStateHead digest.now (D.reads disk.old) head.version head.events head.size head.seed) }
    ensures refuses { D.tells → IfErr result (Refuses digest.now (D.reads disk.old)) }
    ensures low { IfOk result (λ head. text_place head.version + head.size < 2 ^ 62) }
    ensures reads { D.tells → D.reads disk.new ≡ D.reads disk.old }
    ensures windows { D.tells → D.story disk.new ≡ D.story disk.old }
    ensures fine { IfOk result (λ _. D.faults disk.new ≡ D.faults disk.old) }
    ensures cause { IfErr result (ReadCause (D.faults disk.old) (D.faults disk.new)) }
{
    let end = disk.length()?;
    let mut first = [0u8; 65];
    disk.read_at(0, &mut first)?;
    front_of(&first, end, digest)
}

/// The state behind this head.
fn read_spelled<D: Disk>(
    alloc: Global,
    disk: &mut D,
    head: &StateHead,
) -> Result<(Kept, u64, u64), SnapshotRefusal>
    requires low { text_place head.now.version + head.now.size < 2 ^ 62 }
    requires inside { D.tells → text_place head.now.version + head.now.size ≤ length (D.reads disk.old) }
    ensures finds { D.tells → (digest : List ℕ) → IsStateHead digest (D.reads disk.old) head.now.version head.now.events head.now.size head.now.seed →
        IfOk result (λ x. IsKeptState digest (D.reads disk.old) (seen x.0) x.1 x.2) }
    ensures refuses { D.tells → (digest : List ℕ) → IsStateHead digest (D.reads disk.old) head.now.version head.now.events head.now.size head.now.seed →
        IfErr result (Refuses digest (D.reads disk.old)) }
    ensures reads { D.tells → D.reads disk.new ≡ D.reads disk.old }
    ensures windows { D.tells → D.story disk.new ≡ D.story disk.old }
    ensures fine { IfOk result (λ _. D.faults disk.new ≡ D.faults disk.old) }
    ensures cause { IfErr result (ReadCause (D.faults disk.old) (D.faults disk.new)) }
{
    let place = text_place(head.version);
    let bytes = read_text(alloc, disk, place, head.size)?;
    match read_sealed(alloc, head, bytes.as_slice()) {
        Ok(Some(kept)) => Ok((kept, head.events, place + head.size)),
        Ok(None) => Err(SnapshotRefusal::Damaged { place: HEAD }),
        Err(NoMemory) => Err(SnapshotRefusal::NoMemory),
    }
}

/// The state that these bytes spell, with its sum where it has one.
fn read_sealed(alloc: Global, head: &StateHead, bytes: &[u8]) -> Result<Option<Kept>, NoMemory>
    ensures found { IfOk result (λ found. IfSome found (λ kept. SpellsSealed head.now.version head.now.seed (seen kept) bytes.now)) }
    ensures only { IfOk result (λ found. found ≡ None → (d : Persistent) → SpellsSealed head.now.version head.now.seed d bytes.now → ⊥) }
{
    if !has_sums(head.version) {
        return read_kept(alloc, head.version, bytes);
    }
    match unsealed(&head.seed, HEAD, bytes) {
        Some(size) => read_kept(alloc, head.version, &bytes[..size]),
        None => Ok(None),
    }
}

/// So many bytes of a disk from this place on.
fn read_text<D: Disk>(
    alloc: Global,
    disk: &mut D,
    place: u64,
    size: u64,
) -> Result<Vec<u8>, SnapshotRefusal>
    requires { D.tells → place + size ≤ length (D.reads disk.old) }
    ensures given { D.tells → IfOk result (λ bytes. bytes.items ≡ take size (drop place (D.reads disk.old))) }
    ensures told { (digest bytes : List ℕ) → IfErr result (Refuses digest bytes) }
    ensures reads { D.tells → D.reads disk.new ≡ D.reads disk.old }
    ensures windows { D.tells → D.story disk.new ≡ D.story disk.old }
    ensures fine { IfOk result (λ _. D.faults disk.new ≡ D.faults disk.old) }
    ensures cause { IfErr result (ReadCause (D.faults disk.old) (D.faults disk.new)) }
{
    let mut bytes = vec![in alloc; 0; size as usize]?;
    disk.read_at(place, bytes.as_mut_slice())?;
    Ok(bytes)
}
