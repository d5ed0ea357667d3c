ghost use Rattle.std.specs.Prelude.{◌≡◌, ◌↔◌, IsTrue, ℕ, ◌+◌, ◌≤◌, ◌<◌, List, length, take, drop, IfOk, IfErr};
ghost use Rattle.std.specs.Int.{w64, from_be_bytes};
ghost use Rattle.def_log.specs.Versions.{IsKnown};
ghost use Rattle.boss_snapshot.specs.Fronts.{text_place};
ghost use Rattle.boss_snapshot.specs.Refusals.{ReadCause, TellsHead};

use crate::SnapshotRefusal;
use crate::kinds::is_same;
use boss_model::LAST_NUMBER;
use boss_seal::{has_sums, seed_of};
use def_log::is_known;

/// How many bytes stand before a state, or before the seed of its sums.
pub const HEAD: u64 = 65;

/// What stands before a state.
#[derive(Clone, Copy, Debug, PartialEq, Eq)]
pub struct StateHead {
    /// 1 to 3.
    pub version: u8,
    /// How many events were before the state.
    pub events: u64,
    /// How many bytes the state has, with its sum where it has one.
    pub size: u64,
    /// The seed of its sums.
    pub seed: [u8; 8],
}

/// What stands before the state of a disk of this length, by its first bytes; or why it is no state of the catalogue with
/// this digest.
pub fn front_of(head: &[u8; 65], end: u64, digest: &[u8; 32]) -> Result<StateHead, SnapshotRefusal>
    ensures tells { (bytes : List ℕ) → head.now ≡ take 65 bytes → end ≡ length bytes → TellsHead digest.now bytes result }
    ensures inside { IfOk result (λ found. text_place found.version + found.size < end) }
    ensures cause { (count : ℕ) → IfErr result (ReadCause count count) }
{
    let version = head[8];
    if !is_known(version) {
        return Err(SnapshotRefusal::Version { found: version });
    }
    let mut kept = [0u8; 32];
    kept.copy_from_slice(&head[9..41]);
    if !is_same(&kept, digest) {
        return Err(SnapshotRefusal::Catalogue {
            kept,
            found: *digest,
        });
    }
    let events = number_at(head, 49);
    if events > LAST_NUMBER {
        return Err(SnapshotRefusal::Damaged { place: 49 });
    }
    let size = number_at(head, 57);
    if !has_place(version, size, end) {
        return Err(SnapshotRefusal::Damaged { place: 57 });
    }
    Ok(StateHead {
        version,
        events,
        size,
        seed: seed_of(&head[1..]),
    })
}

/// Whether a state of so many bytes and a gate have their place on a disk of this version and length.
fn has_place(version: u8, size: u64, end: u64) -> bool
    ensures { IsTrue result ↔ (text_place version + size < end) }
{
    let place = text_place(version);
    end > place && size < end - place
}

/// Where a state begins on a disk of this version: behind the seed of its sums, where it has some.
pub fn text_place(version: u8) -> u64
    ensures is { result ≡ text_place version }
    ensures few { result ≤ 73 }
{
    if has_sums(version) { HEAD + 8 } else { HEAD }
}

/// The number of 64 bits at this place, the highest byte first.
fn number_at(head: &[u8; 65], place: usize) -> u64
    requires { place + 8 ≤ 65 }
    ensures { result ≡ from_be_bytes w64 (take 8 (drop place head.now)) }
{
    let mut bytes = [0u8; 8];
    bytes.copy_from_slice(&head[place..place + 8]);
    u64::from_be_bytes(bytes)
}
