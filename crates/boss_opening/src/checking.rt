ghost use Rattle.std.specs.Prelude.{◌≡◌, ℕ, [], IfErr, IfOk, false};
ghost use Rattle.boss_pair_find.specs.declared.refusal.DurableRefusal.TheVariants.{Damaged};
ghost use Rattle.boss_pair_find.specs.Finds.{Finds, IsAtFirst, IsAtStart, Starts, found_first, found_second};
ghost use Rattle.boss_pair_find.specs.Holds.{IsNewPair, IsPlainPair, IsStatePair};
ghost use Rattle.boss_pair_find.specs.Refusals.{PairCause};
ghost use Rattle.boss_pair_find.specs.Two.{counts};
ghost use Rattle.boss_model.specs.Catalogue.{actuators};
ghost use Rattle.boss_model.specs.Seen.{seen};
ghost use Rattle.boss_model.specs.Sound.{IsSound, IsSoundPersistent};
ghost use Rattle.boss_model.specs.State.{first_persistent};
ghost use Rattle.boss_opening.specs.Checks.{CheckCause, ChecksLog, ChecksPair, IsCheck};
ghost use Rattle.boss_opening.specs.Opens.{OpenRefuses, digest_of};
ghost use Rattle.boss_opening.specs.Reading.{IsOfLog, IsReadOn};
ghost use Rattle.boss_disk_pair.specs.Causes.{counts_of, first_disk, second_disk};
ghost use Rattle.boss_disk_pair.specs.Reads.{is_damaged_at, reads_to};

use crate::opening::STATE_PLACE;
use crate::reading::read_log;
use boss_disk::Disk;
use boss_disk_pair::TwoDisks;
use boss_engine::{Engine, RestoreRefusal};
use boss_model::{Kept, LAST_NUMBER, NoMemory};
use boss_pair_find::{DurableRefusal, Found, find};
use boss_points::Catalogue;
use std::alloc::Global;

/// What a check finds on a pair of disks.
#[derive(Clone, Copy, Debug, PartialEq, Eq)]
pub enum Checked {
    /// Nothing that counts was written yet.
    New,
    /// So many events, up to `2 ^ 62`, where the number stands still; and of what they lead to the moment of the last change, in
    /// milliseconds, how many leases are live, and how many reversions are under way.
    Found {
        events: u64,
        now: u64,
        leases: u64,
        pending: u64,
    },
}

/// Looks what a pair of disks holds, without a write, a cut or a sync: both come back as they were. A pair is refused as an opening
/// refuses it.
pub fn check<D: Disk>(
    alloc: Global,
    catalogue: &Catalogue,
    first: D,
    second: D,
) -> ((D, D), Result<Checked, DurableRefusal>)
    ensures tells { D.tells → IfOk result.1 (ChecksPair (actuators catalogue.now) (digest_of catalogue.now) (D.reads first) (D.reads second)) }
    ensures refuses { D.tells → IfErr result.1 (OpenRefuses (actuators catalogue.now) (digest_of catalogue.now) (D.reads first) (D.reads second)) }
    ensures first_reads { D.tells → D.reads result.0.0 ≡ D.reads first }
    ensures second_reads { D.tells → D.reads result.0.1 ≡ D.reads second }
    ensures first_story { D.tells → D.story result.0.0 ≡ D.story first }
    ensures second_story { D.tells → D.story result.0.1 ≡ D.story second }
    ensures cause { CheckCause (counts (D.faults first) (D.faults second)) (counts (D.faults result.0.0) (D.faults result.0.1)) result.1 }
{
    match find(alloc, first, second, &catalogue.digest()) {
        Ok(found) => check_found(alloc, catalogue, found),
        Err((disks, refusal)) => (disks, Err(refusal)),
    }
}

/// The same of what was found.
fn check_found<D: Disk>(
    alloc: Global,
    catalogue: &Catalogue,
    found: Found<D>,
) -> ((D, D), Result<Checked, DurableRefusal>)
    requires finds { D.tells → Finds (digest_of catalogue.now) (D.reads (found_first found)) (D.reads (found_second found)) found }
    requires starts { Starts (digest_of catalogue.now) found }
    ensures { IsCheck D.Disk (actuators catalogue.now) (digest_of catalogue.now) (found_first found) (found_second found) result }
{
    match found {
        Found::New { first, second } => ((first, second), Ok(Checked::New)),
        Found::Plain { pair } => check_plain(alloc, catalogue, pair),
        Found::State { pair, kept } => check_state(alloc, catalogue, pair, &kept),
    }
}

/// A pair with a journal from the first state on.
fn check_plain<D: Disk>(
    alloc: Global,
    catalogue: &Catalogue,
    pair: TwoDisks<D>,
) -> ((D, D), Result<Checked, DurableRefusal>)
    requires starts { IsAtStart (digest_of catalogue.now) pair }
    requires found { D.tells → IsPlainPair (digest_of catalogue.now) (D.reads (first_disk pair)) (D.reads (second_disk pair)) }
    requires reads { reads_to pair (actuators catalogue.now) first_persistent 0 [] first_persistent }
    ensures { IsCheck D.Disk (actuators catalogue.now) (digest_of catalogue.now) (first_disk pair) (second_disk pair) result }
{
    match Engine::new(alloc, catalogue) {
        Ok(engine) => check_pair(alloc, pair, engine),
        Err(NoMemory) => (pair.close(), Err(DurableRefusal::NoMemory)),
    }
}

/// A pair with a journal from this state on.
fn check_state<D: Disk>(
    alloc: Global,
    catalogue: &Catalogue,
    pair: TwoDisks<D>,
    kept: &Kept,
) -> ((D, D), Result<Checked, DurableRefusal>)
    requires starts { IsAtFirst (digest_of catalogue.now) pair }
    requires found { D.tells → IsStatePair (digest_of catalogue.now) (seen kept.now) pair.events pair.journal.place
        (D.reads (first_disk pair)) (D.reads (second_disk pair)) }
    requires reads { IsSoundPersistent (actuators catalogue.now) (seen kept.now)
        → reads_to pair (actuators catalogue.now) (seen kept.now) pair.events [] (seen kept.now) }
    ensures { IsCheck D.Disk (actuators catalogue.now) (digest_of catalogue.now) (first_disk pair) (second_disk pair) result }
{
    match Engine::restore(alloc, catalogue, kept) {
        Ok(engine) => check_pair(alloc, pair, engine),
        Err(RestoreRefusal::NotSound) => {
            let place = STATE_PLACE;
            (pair.close(), Err(DurableRefusal::Damaged { place }))
        }
        Err(RestoreRefusal::NoMemory) => (pair.close(), Err(DurableRefusal::NoMemory)),
    }
}

/// A pair and the engine of the state that its log begins with.
fn check_pair<D: Disk>(
    alloc: Global,
    pair: TwoDisks<D>,
    engine: Engine,
) -> ((D, D), Result<Checked, DurableRefusal>)
    requires going { pair.stopped ≡ false }
    requires sound { IsSound engine.plant engine.state }
    requires begins { reads_to pair engine.plant engine.state.persistent pair.events [] engine.state.persistent }
    requires not_new { D.tells → IsNewPair (D.reads (first_disk pair)) (D.reads (second_disk pair)) → ⊥ }
    ensures { IsCheck D.Disk engine.plant pair.digest (first_disk pair) (second_disk pair) result }
{
    let mut pair = pair;
    let checked = check_log(alloc, &mut pair, engine);
    (pair.close(), checked)
}

/// What the log of a pair leads to.
fn check_log<D: Disk>(
    alloc: Global,
    pair: &mut TwoDisks<D>,
    engine: Engine,
) -> Result<Checked, DurableRefusal>
    requires going { pair.old.stopped ≡ false }
    requires sound { IsSound engine.plant engine.state }
    requires begins { reads_to pair.old engine.plant engine.state.persistent pair.old.events [] engine.state.persistent }
    ensures tells { IfOk result (ChecksLog pair.old engine.plant engine.state.persistent) }
    ensures damaged { IfErr result (λ why. (place : ℕ) → why ≡ Damaged place → is_damaged_at pair.old engine.plant place) }
    ensures refuses { IfErr result IsOfLog }
    ensures same { IsReadOn pair.old pair.new }
    ensures fine { IfOk result (λ _. counts_of pair.new ≡ counts_of pair.old) }
    ensures cause { IfErr result (PairCause (counts_of pair.old) (counts_of pair.new)) }
{
    let mut engine = engine;
    match read_log(alloc, pair, &mut engine) {
        Ok(more) => Ok(Checked::Found {
            events: pair.events().saturating_add(more).min(LAST_NUMBER),
            now: engine.now(),
            leases: engine.leases(),
            pending: engine.pending(),
        }),
        Err(refusal) => Err(refusal),
    }
}
