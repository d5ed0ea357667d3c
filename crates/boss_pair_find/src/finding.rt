ghost use Rattle.std.specs.Prelude.{◌≡◌, ◌↔◌, IsTrue, false, ℕ, List, Some, IfOk, IfErr};
ghost use Rattle.boss_disk.specs.Window.{settled};
ghost use Rattle.boss_pair_find.specs.Finds.{Finds, Starts, IsSettled, IsClean, first_back, second_back};
ghost use Rattle.boss_pair_find.specs.Holds.{IsPlain};
ghost use Rattle.boss_pair_find.specs.Refusals.{FindRefuses, PairCause, AnswerCause};
ghost use Rattle.boss_pair_find.specs.Two.{counts};
ghost use Rattle.def_log.specs.declared.kind.DiskKind.TheVariants as disk_kind;
ghost use Rattle.def_log.specs.InForce.{Neither};
ghost use Rattle.def_log.specs.Kinds.{kind_of, in_force};
ghost use Rattle.boss_model.specs.declared.state.Actuator.{Actuator};
ghost use Rattle.boss_model.specs.Seen.{seen};
ghost use Rattle.boss_model.specs.State.{Persistent};
ghost use Rattle.boss_outside.specs.Counts.{HasCause};
ghost use Rattle.def_disk_pair.specs.Pairs.{IsNew, OpensCleanly};
ghost use Rattle.boss_snapshot.specs.Refusals.{IsKeptState};
ghost use Rattle.boss_disk_pair.specs.Forces.{TellsForce};
ghost use Rattle.boss_disk_pair.specs.Orders.{InOrder, first_of, second_of};
ghost use Rattle.boss_disk_pair.specs.Rests.{IsInForce};

use crate::DurableRefusal;
use crate::front::check_front;
use boss_disk::Disk;
use boss_disk_pair::{Force, TwoDisks, force_of};
use boss_journal::Journal;
use boss_model::{FIRST_GATE, Kept, LAST_NUMBER};
use boss_outside::Failed;
use boss_snapshot::{kind, read_state};
use std::alloc::Global;

/// What a pair of disks holds.
#[derive(Drop)]
pub enum Found<D: Disk> {
    /// Nothing that counts was written yet, on the first disk and the second.
    New { first: D, second: D },
    /// A journal from the first state on, at its first gate.
    Plain { pair: TwoDisks<D> },
    /// A journal from this state on, at its first gate. It was not tested whether the state is sound.
    State { pair: TwoDisks<D>, kept: Kept },
}

/// What a pair of disks holds under the catalogue with this digest. The disks stay as they are. Memory is taken for a kept state
/// alone, and for no more bytes than its disk has.
pub fn find<D: Disk>(
    alloc: Global,
    first: D,
    second: D,
    digest: &[u8; 32],
) -> Result<Found<D>, ((D, D), DurableRefusal)>
    ensures finds { D.tells → IfOk result (Finds digest.now (D.reads first) (D.reads second)) }
    ensures starts { IfOk result (Starts digest.now) }
    ensures refuses { D.tells → IfErr result (λ refused. FindRefuses digest.now (D.reads first) (D.reads second) refused.1) }
    // What a caller that synced both disks, or knows what they stand for, has to know of the pair.
    ensures settled { D.tells → (D.story first).window ≡ settled (D.reads first) → (D.story second).window ≡ settled (D.reads second)
        → IfOk result IsSettled }
    ensures clean { D.tells → (plant : List Actuator) (d : Persistent) (count : ℕ) → OpensCleanly plant digest.now d count (D.reads first) (D.reads second)
        → IfOk result (IsClean plant d count) }
    ensures first_reads { D.tells → D.reads (first_back result) ≡ D.reads first }
    ensures second_reads { D.tells → D.reads (second_back result) ≡ D.reads second }
    ensures first_windows { D.tells → D.story (first_back result) ≡ D.story first }
    ensures second_windows { D.tells → D.story (second_back result) ≡ D.story second }
    ensures cause { AnswerCause (counts (D.faults first) (D.faults second)) (counts (D.faults (first_back result)) (D.faults (second_back result))) result }
{
    let mut first = first;
    let mut second = second;
    match find_force(&mut first, &mut second) {
        Ok(force) => find_forced(alloc, first, second, force, digest),
        Err(refusal) => Err(((first, second), refusal)),
    }
}

/// The same of a pair whose disk in force was found.
fn find_forced<D: Disk>(
    alloc: Global,
    first: D,
    second: D,
    force: Force,
    digest: &[u8; 32],
) -> Result<Found<D>, ((D, D), DurableRefusal)>
    requires { D.tells → TellsForce (kind_of (D.reads first)) (kind_of (D.reads second)) (Some force) }
    ensures finds { D.tells → IfOk result (Finds digest.now (D.reads first) (D.reads second)) }
    ensures starts { IfOk result (Starts digest.now) }
    ensures refuses { D.tells → IfErr result (λ refused. FindRefuses digest.now (D.reads first) (D.reads second) refused.1) }
    ensures first_reads { D.tells → D.reads (first_back result) ≡ D.reads first }
    ensures second_reads { D.tells → D.reads (second_back result) ≡ D.reads second }
    ensures first_windows { D.tells → D.story (first_back result) ≡ D.story first }
    ensures second_windows { D.tells → D.story (second_back result) ≡ D.story second }
    ensures cause { AnswerCause (counts (D.faults first) (D.faults second)) (counts (D.faults (first_back result)) (D.faults (second_back result))) result }
{
    match force {
        Force::Neither => find_new(first, second),
        Force::Plain => find_plain(first, second, digest),
        Force::State {
            second: is_second,
            generation,
        } => {
            let ordered = in_order(is_second, first, second);
            find_state(alloc, ordered.0, ordered.1, is_second, generation, digest)
        }
    }
}

/// Which disk is in force, by the kinds of both.
fn find_force<D: Disk>(first: &mut D, second: &mut D) -> Result<Force, DurableRefusal>
    ensures force { D.tells → IfOk result (λ force. TellsForce (kind_of (D.reads first.old)) (kind_of (D.reads second.old)) (Some force)) }
    ensures refuses { D.tells → (digest : List ℕ) → IfErr result (FindRefuses digest (D.reads first.old) (D.reads second.old)) }
    ensures first_reads { D.tells → D.reads first.new ≡ D.reads first.old }
    ensures second_reads { D.tells → D.reads second.new ≡ D.reads second.old }
    ensures first_windows { D.tells → D.story first.new ≡ D.story first.old }
    ensures second_windows { D.tells → D.story second.new ≡ D.story second.old }
    ensures fine { IfOk result (λ _. counts (D.faults first.new) (D.faults second.new) ≡ counts (D.faults first.old) (D.faults second.old)) }
    ensures cause { IfErr result (PairCause (counts (D.faults first.old) (D.faults second.old)) (counts (D.faults first.new) (D.faults second.new))) }
{
    let one = kind(first)?;
    let other = kind(second)?;
    match force_of(one, other) {
        Some(force) => Ok(force),
        None => Err(DurableRefusal::NotAJournal),
    }
}

/// The same of a pair that has no disk in force.
fn find_new<D: Disk>(first: D, second: D) -> Result<Found<D>, ((D, D), DurableRefusal)>
    requires { D.tells → in_force (kind_of (D.reads first)) (kind_of (D.reads second)) ≡ Neither }
    ensures finds { D.tells → (digest : List ℕ) → IfOk result (Finds digest (D.reads first) (D.reads second)) }
    ensures starts { (digest : List ℕ) → IfOk result (Starts digest) }
    ensures refuses { D.tells → (digest : List ℕ) → IfErr result (λ refused. FindRefuses digest (D.reads first) (D.reads second) refused.1) }
    ensures first_reads { D.tells → D.reads (first_back result) ≡ D.reads first }
    ensures second_reads { D.tells → D.reads (second_back result) ≡ D.reads second }
    ensures first_windows { D.tells → D.story (first_back result) ≡ D.story first }
    ensures second_windows { D.tells → D.story (second_back result) ≡ D.story second }
    ensures cause { AnswerCause (counts (D.faults first) (D.faults second)) (counts (D.faults (first_back result)) (D.faults (second_back result))) result }
{
    let mut first = first;
    match is_new(&mut first) {
        Ok(new) => {
            if new {
                Ok(Found::New { first, second })
            } else {
                Err(((first, second), DurableRefusal::NotAJournal))
            }
        }
        Err(failed) => Err(((first, second), DurableRefusal::from(failed))),
    }
}

/// Whether a disk that holds nothing that counts has no more bytes than a new journal.
fn is_new<D: Disk>(disk: &mut D) -> Result<bool, Failed>
    requires { D.tells → kind_of (D.reads disk.old) ≡ disk_kind.Idle }
    ensures new { D.tells → IfOk result (λ new. IsTrue new ↔ IsNew (D.reads disk.old)) }
    ensures reads { D.tells → D.reads disk.new ≡ D.reads disk.old }
    ensures windows { D.tells → D.story disk.new ≡ D.story disk.old }
    ensures cause { HasCause (D.faults disk.old) (D.faults disk.new) result }
{
    Ok(disk.length()? <= FIRST_GATE + 1)
}

/// The pair whose first disk, a journal from the first state on, is in force.
fn find_plain<D: Disk>(
    first: D,
    second: D,
    digest: &[u8; 32],
) -> Result<Found<D>, ((D, D), DurableRefusal)>
    requires here { D.tells → IsInForce false (D.reads first) (D.reads second) }
    requires kind { D.tells → kind_of (D.reads first) ≡ disk_kind.Plain }
    ensures finds { D.tells → IfOk result (Finds digest.now (D.reads first) (D.reads second)) }
    ensures starts { IfOk result (Starts digest.now) }
    ensures refuses { D.tells → IfErr result (λ refused. FindRefuses digest.now (D.reads first) (D.reads second) refused.1) }
    ensures first_reads { D.tells → D.reads (first_back result) ≡ D.reads first }
    ensures second_reads { D.tells → D.reads (second_back result) ≡ D.reads second }
    ensures first_windows { D.tells → D.story (first_back result) ≡ D.story first }
    ensures second_windows { D.tells → D.story (second_back result) ≡ D.story second }
    ensures cause { AnswerCause (counts (D.faults first) (D.faults second)) (counts (D.faults (first_back result)) (D.faults (second_back result))) result }
{
    let mut first = first;
    match check_front(&mut first, digest) {
        Ok(()) => begin_plain(first, second, digest),
        Err(refusal) => Err(((first, second), refusal)),
    }
}

/// The same, where the journal is of a known version and of the catalogue with this digest.
fn begin_plain<D: Disk>(
    first: D,
    second: D,
    digest: &[u8; 32],
) -> Result<Found<D>, ((D, D), DurableRefusal)>
    requires here { D.tells → IsInForce false (D.reads first) (D.reads second) }
    requires plain { D.tells → IsPlain digest.now (D.reads first) }
    ensures finds { D.tells → IfOk result (Finds digest.now (D.reads first) (D.reads second)) }
    ensures starts { IfOk result (Starts digest.now) }
    ensures refuses { IfErr result (λ refused. refused.1 ≡ DurableRefusal.DiskFault) }
    ensures first_reads { D.tells → D.reads (first_back result) ≡ D.reads first }
    ensures second_reads { D.tells → D.reads (second_back result) ≡ D.reads second }
    ensures first_windows { D.tells → D.story (first_back result) ≡ D.story first }
    ensures second_windows { D.tells → D.story (second_back result) ≡ D.story second }
    ensures cause { AnswerCause (counts (D.faults first) (D.faults second)) (counts (D.faults (first_back result)) (D.faults (second_back result))) result }
{
    match Journal::open_after(first, FIRST_GATE) {
        Ok(journal) => {
            let pair = TwoDisks::begin(journal, second, false, 0, 0, digest);
            Ok(Found::Plain { pair })
        }
        Err((first, refusal)) => Err(((first, second), DurableRefusal::from(refusal))),
    }
}

/// The pair whose active disk, a kept state of this generation, is in force; whether it is the second is told.
fn find_state<D: Disk>(
    alloc: Global,
    active: D,
    spare: D,
    second: bool,
    generation: u64,
    digest: &[u8; 32],
) -> Result<Found<D>, ((D, D), DurableRefusal)>
    requires here { D.tells → InOrder (IsInForce second) second (D.reads active) (D.reads spare) }
    requires kind { D.tells → kind_of (D.reads active) ≡ disk_kind.State generation }
    ensures finds { D.tells → IfOk result (Finds digest.now (D.reads (first_of second active spare)) (D.reads (second_of second active spare))) }
    ensures starts { IfOk result (Starts digest.now) }
    ensures refuses { D.tells → IfErr result
        (λ refused. FindRefuses digest.now (D.reads (first_of second active spare)) (D.reads (second_of second active spare)) refused.1) }
    ensures first_reads { D.tells → D.reads (first_back result) ≡ D.reads (first_of second active spare) }
    ensures second_reads { D.tells → D.reads (second_back result) ≡ D.reads (second_of second active spare) }
    ensures first_windows { D.tells → D.story (first_back result) ≡ D.story (first_of second active spare) }
    ensures second_windows { D.tells → D.story (second_back result) ≡ D.story (second_of second active spare) }
    ensures cause { AnswerCause (counts (D.faults (first_of second active spare)) (D.faults (second_of second active spare)))
        (counts (D.faults (first_back result)) (D.faults (second_back result))) result }
{
    let mut active = active;
    match read_state(alloc, &mut active, digest) {
        Ok(read) => begin_state(active, spare, second, generation, read, digest),
        Err(refusal) => Err((
            in_order(second, active, spare),
            DurableRefusal::from(refusal),
        )),
    }
}

/// The same, where this state, so many events before it and the place of its first gate were read.
fn begin_state<D: Disk>(
    active: D,
    spare: D,
    second: bool,
    generation: u64,
    read: (Kept, u64, u64),
    digest: &[u8; 32],
) -> Result<Found<D>, ((D, D), DurableRefusal)>
    requires here { D.tells → InOrder (IsInForce second) second (D.reads active) (D.reads spare) }
    requires kind { D.tells → kind_of (D.reads active) ≡ disk_kind.State generation }
    requires kept { D.tells → IsKeptState digest.now (D.reads active) (seen read.0) read.1 read.2 }
    ensures finds { D.tells → IfOk result (Finds digest.now (D.reads (first_of second active spare)) (D.reads (second_of second active spare))) }
    ensures starts { IfOk result (Starts digest.now) }
    ensures refuses { IfErr result (λ refused. refused.1 ≡ DurableRefusal.DiskFault) }
    ensures first_reads { D.tells → D.reads (first_back result) ≡ D.reads (first_of second active spare) }
    ensures second_reads { D.tells → D.reads (second_back result) ≡ D.reads (second_of second active spare) }
    ensures first_windows { D.tells → D.story (first_back result) ≡ D.story (first_of second active spare) }
    ensures second_windows { D.tells → D.story (second_back result) ≡ D.story (second_of second active spare) }
    ensures cause { AnswerCause (counts (D.faults (first_of second active spare)) (D.faults (second_of second active spare)))
        (counts (D.faults (first_back result)) (D.faults (second_back result))) result }
{
    let (kept, events, place) = read;
    match Journal::open_after(active, place) {
        Ok(journal) => {
            // No state was read with more events before it; a disk that tells nothing does not promise that.
            let events = events.min(LAST_NUMBER);
            let pair = TwoDisks::begin(journal, spare, second, generation, events, digest);
            Ok(Found::State { pair, kept })
        }
        Err((active, refusal)) => Err((
            in_order(second, active, spare),
            DurableRefusal::from(refusal),
        )),
    }
}

/// The first disk and the second, by the active one, the other, and whether the active one is the second; and the other way round.
fn in_order<D>(second: bool, active: D, spare: D) -> (D, D)
    ensures { (result.0 ≡ first_of second active spare) × (result.1 ≡ second_of second active spare) }
{
    if second {
        (spare, active)
    } else {
        (active, spare)
    }
}
