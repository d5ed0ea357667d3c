ghost use Rattle.std.specs.Prelude.{◌≡◌, ℕ, ◌+◌, ◌-◌, ◌^◌, ◌≤◌, true, List, [], ◌∷◌, ◌++◌, length, take, drop, OnOk, IfOk};
ghost use Rattle.std.specs.Int.{w64};
ghost use Rattle.def_bytes.specs.States.{state};
ghost use Rattle.boss_disk.specs.Fronts.{KeepsFront};
ghost use Rattle.boss_disk.specs.Runs.{Since};
ghost use Rattle.boss_disk.specs.Story.{Steps};
ghost use Rattle.boss_disk.specs.Window.{overwritten, settled};
ghost use Rattle.def_bytes.specs.Fields.{number_text};
ghost use Rattle.boss_model.specs.Limits.{last_number};
ghost use Rattle.boss_model.specs.Seen.{seen};
ghost use Rattle.boss_outside.specs.Counts.{HasCause};
ghost use Rattle.boss_seal.specs.Taken.{Took};
ghost use Rattle.def_seal.specs.Seals.{seed_of, sum_of};
ghost use Rattle.boss_snapshot.specs.Drafts.{Goes, so_far};
ghost use Rattle.boss_snapshot.specs.Writes.{IsWritten, Marking, WhileWriting, state_front, state_opening, state_text};

use crate::block::Block;
use crate::clearing::clear;
use crate::draft::Draft;
use crate::drafting::{make_room, spill};
use crate::fronts::{HEAD, text_place};
use crate::keeping::spill_kept;
use crate::kinds::STATE_MARK;
use boss_disk::{Disk, write_through};
use boss_model::Kept;
use boss_outside::Failed;
use boss_records::{Room, put_u64};
use boss_seal::{Summing, seed_of};
use def_log::NEWEST_VERSION;

/// Where the length of a state stands, and the seed of the sums behind it.
const SIZE: u64 = 57;

/// How many bytes of a state are summed up at once.
const PIECE: u64 = 4_096;

/// Writes a kept state over what a disk holds, and tells the place of its first gate, which is shut and the last byte. The
/// state is of the newest version, and its byte 0 is written last, once all else is sure to outlast a crash.
pub fn write_state<D: Disk>(
    kept: &Kept,
    disk: &mut D,
    digest: &[u8; 32],
    generation: u64,
    events: u64,
) -> Result<u64, Failed>
    requires fits { (state 2).fits (seen kept.now) ≡ true }
    requires few { events ≤ last_number }
    ensures done { D.tells → IfOk result (λ place.
        IsWritten digest.now generation events (seen kept.entry.now) place (D.reads disk.new) (D.story disk.new).window) }
    ensures low { IfOk result (λ place. place ≤ 2 ^ 62) }
    // What a crash leaves, where the disk was synced as the call began.
    ensures images { D.tells → (D.story disk.old).window ≡ settled (D.reads disk.old)
        → Since (WhileWriting (D.reads disk.old) digest.now generation events (seen kept.entry.now)) (D.story disk.old) (D.story disk.new) }
    ensures cause { HasCause (D.faults disk.old) (D.faults disk.new) result }
{
    clear(disk)?;
    let gate = write_rest(disk, kept, digest, generation, events)?;
    put_mark(disk)?;
    Ok(gate)
}

/// Syncs the disk, writes byte 0 of a state, and syncs it again.
fn put_mark<D: Disk>(disk: &mut D) -> Result<(), Failed>
    ensures made { D.tells → (tail : List ℕ) → D.reads disk.old ≡ 0 ∷ tail → OnOk result
        ((D.reads disk.new ≡ 66 ∷ tail) × ((D.story disk.new).window ≡ settled (D.reads disk.new))) }
    ensures images { D.tells → (tail : List ℕ) → D.reads disk.old ≡ 0 ∷ tail → KeepsFront (0 ∷ []) (D.story disk.old).window
        → Since (Marking tail) (D.story disk.old) (D.story disk.new) }
    ensures cause { HasCause (D.faults disk.old) (D.faults disk.new) result }
{
    settle(disk)?;
    write_through(disk, 0, b"B")
}

/// Makes all that was written so far outlast a crash.
fn settle<D: Disk>(disk: &mut D) -> Result<(), Failed>
    ensures reads { D.tells → D.reads disk.new ≡ D.reads disk.old }
    ensures windows { D.tells → Steps (settled (D.reads disk.old)) (D.story disk.old).window (D.story disk.old) (D.story disk.new) result }
    ensures cause { HasCause (D.faults disk.old) (D.faults disk.new) result }
{
    disk.sync()
}

/// Writes all of a state behind byte 0, and a closed gate, and tells the place of the gate.
#[tactic(auto, using(crate::proofs::Drafts::then_goes))]
fn write_rest<D: Disk>(
    disk: &mut D,
    kept: &Kept,
    digest: &[u8; 32],
    generation: u64,
    events: u64,
) -> Result<u64, Failed>
    requires fits { (state 2).fits (seen kept.now) ≡ true }
    requires alone { D.tells → D.reads disk.old ≡ 0 ∷ [] }
    ensures text { D.tells → OnOk result (D.reads disk.new ≡ state_front 0 digest.now generation events (seen kept.entry.now) ++ 0 ∷ []) }
    ensures place { D.tells → IfOk result (λ place. place ≡ length (state_front 0 digest.now generation events (seen kept.entry.now))) }
    ensures low { IfOk result (λ place. place ≤ 2 ^ 62) }
    ensures goes { D.tells → Goes (D.story disk.old) (D.story disk.new) }
    ensures cause { HasCause (D.faults disk.old) (D.faults disk.new) result }
{
    let end = write_all(disk, kept, digest, generation, events)?;
    let gate = end - 1;
    write_size(disk, gate.saturating_sub(text_place(NEWEST_VERSION)))?;
    let seed = write_seed(disk)?;
    write_sum(disk, &seed, gate.saturating_sub(8))?;
    Ok(gate)
}

/// Writes all of a state behind byte 0, with 0 for its length, the seed and the sum, and a closed gate, and tells the end.
#[tactic(auto, using(crate::proofs::Drafts::then_goes))]
fn write_all<D: Disk>(
    disk: &mut D,
    kept: &Kept,
    digest: &[u8; 32],
    generation: u64,
    events: u64,
) -> Result<u64, Failed>
    requires fits { (state 2).fits (seen kept.now) ≡ true }
    requires alone { D.tells → D.reads disk.old ≡ 0 ∷ [] }
    ensures text { D.tells → OnOk result (D.reads disk.new
        ≡ (0 ∷ []) ++ (state_opening digest.now generation events ++ ((number_text w64 0 ++ number_text w64 0) ++ (state_text (seen kept.entry.now) ++ (number_text w64 0 ++ 0 ∷ []))))) }
    ensures end { D.tells → IfOk result (λ end. end ≡ length (D.reads disk.new)) }
    ensures behind { IfOk result (λ end. 1 ≤ end) }
    ensures low { IfOk result (λ end. end ≤ 2 ^ 62) }
    ensures goes { D.tells → Goes (D.story disk.old) (D.story disk.new) }
    ensures cause { HasCause (D.faults disk.old) (D.faults disk.new) result }
{
    let mut draft = Draft {
        place: 1,
        block: Block::new(),
    };
    put_opening(&mut draft.block, digest, generation, events);
    put_u64(&mut draft.block, 0);
    put_u64(&mut draft.block, 0);
    spill_kept(disk, &mut draft, kept)?;
    make_room(disk, &mut draft)?;
    put_u64(&mut draft.block, 0);
    draft.block.put(0);
    spill(disk, &mut draft)?;
    Ok(draft.place)
}

/// What stands in front of a state's length, behind byte 0.
fn put_opening(block: &mut Block, digest: &[u8; 32], generation: u64, events: u64)
    requires { block.old ≡ [] }
    ensures text { block.new ≡ state_opening digest.now generation events }
    ensures long { length block.new ≡ 56 }
{
    block.put_all(&STATE_MARK);
    block.put(NEWEST_VERSION);
    block.put_all(digest);
    put_u64(block, generation);
    put_u64(block, events);
}

/// Writes the length of a state.
#[tactic(auto, unfolding(def_bytes::specs::Fields::number_text), using(crate::proofs::Drafts::goes_on))]
fn write_size<D: Disk>(disk: &mut D, size: u64) -> Result<(), Failed>
    requires { D.tells → 65 ≤ length (D.reads disk.old) }
    ensures text { D.tells → OnOk result (D.reads disk.new ≡ overwritten 57 (number_text w64 size) (D.reads disk.old)) }
    ensures goes { D.tells → Goes (D.story disk.old) (D.story disk.new) }
    ensures cause { HasCause (D.faults disk.old) (D.faults disk.new) result }
{
    disk.write_at(SIZE, &size.to_be_bytes())
}

/// Writes the seed of the sums, which the bytes before it give, behind the length.
#[tactic(auto, using(crate::proofs::Drafts::goes_on, crate::proofs::Drafts::goes_still))]
fn write_seed<D: Disk>(disk: &mut D) -> Result<[u8; 8], Failed>
    requires { D.tells → 73 ≤ length (D.reads disk.old) }
    ensures seed { D.tells → IfOk result (λ seed. seed ≡ seed_of (D.reads disk.old)) }
    ensures text { D.tells → IfOk result (λ seed. D.reads disk.new ≡ overwritten 65 seed (D.reads disk.old)) }
    ensures goes { D.tells → Goes (D.story disk.old) (D.story disk.new) }
    ensures cause { HasCause (D.faults disk.old) (D.faults disk.new) result }
{
    let mut head = [0u8; 65];
    disk.read_at(0, &mut head)?;
    let seed = seed_of(&head[1..]);
    disk.write_at(HEAD, &seed)?;
    Ok(seed)
}

/// Writes the sum of a state at this place behind it.
#[tactic(auto, using(crate::proofs::Drafts::goes_on, crate::proofs::Drafts::goes_still))]
fn write_sum<D: Disk>(disk: &mut D, seed: &[u8; 8], at: u64) -> Result<(), Failed>
    requires low { at ≤ 2 ^ 62 }
    requires there { D.tells → (73 ≤ at) × (at + 8 ≤ length (D.reads disk.old)) }
    ensures text { D.tells → OnOk result (D.reads disk.new
        ≡ overwritten at (sum_of seed.now 65 (take (at - 73) (drop 73 (D.reads disk.old)))) (D.reads disk.old)) }
    ensures goes { D.tells → Goes (D.story disk.old) (D.story disk.new) }
    ensures cause { HasCause (D.faults disk.old) (D.faults disk.new) result }
{
    let sum = sum_on(disk, seed, at.saturating_sub(text_place(NEWEST_VERSION)))?;
    disk.write_at(at, &sum)
}

/// The sum of so many bytes of a disk, where a state stands.
fn sum_on<D: Disk>(disk: &mut D, seed: &[u8; 8], count: u64) -> Result<[u8; 8], Failed>
    requires low { count ≤ 2 ^ 62 }
    requires there { D.tells → 73 + count ≤ length (D.reads disk.old) }
    ensures sum { D.tells → IfOk result (λ sum. sum ≡ sum_of seed.now 65 (take count (drop 73 (D.reads disk.old)))) }
    ensures reads { D.tells → D.reads disk.new ≡ D.reads disk.old }
    ensures windows { D.tells → D.story disk.new ≡ D.story disk.old }
    ensures cause { HasCause (D.faults disk.old) (D.faults disk.new) result }
{
    let mut summing = Summing::begin(seed, HEAD);
    let mut done = 0;
    while done < count {
        let size = PIECE.min(count - done);
        take_piece(
            disk,
            &mut summing,
            text_place(NEWEST_VERSION) + done,
            size as usize,
        )?;
        done += size;
    }
    Ok(summing.finish())
}

/// Takes so many bytes of a disk from this place on.
fn take_piece<D: Disk>(
    disk: &mut D,
    summing: &mut Summing,
    at: u64,
    count: usize,
) -> Result<(), Failed>
    requires piece { count ≤ 4096 }
    requires there { D.tells → at + count ≤ length (D.reads disk.old) }
    ensures took { D.tells → (seed taken : List ℕ) (place : ℕ) → Took summing.old seed place taken
        → OnOk result (Took summing.new seed place (taken ++ take count (drop at (D.reads disk.old)))) }
    ensures reads { D.tells → D.reads disk.new ≡ D.reads disk.old }
    ensures windows { D.tells → D.story disk.new ≡ D.story disk.old }
    ensures cause { HasCause (D.faults disk.old) (D.faults disk.new) result }
{
    let mut piece = [0u8; 4096];
    let bytes = &mut piece[..count];
    disk.read_at(at, bytes)?;
    summing.take(bytes);
    Ok(())
}
