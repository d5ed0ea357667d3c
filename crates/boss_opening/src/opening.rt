ghost use Rattle.std.specs.Prelude.{◌≡◌, ◌≤◌, ℕ, List, [], length, IfOk, IfErr, false};
ghost use Rattle.boss_disk.specs.Window.{settled};
ghost use Rattle.boss_durable.specs.Words.{keeps, lasting, leaves};
ghost use Rattle.boss_pair_find.specs.Finds.{Finds, IsAtFirst, IsAtStart, IsSettled, Starts, found_first, found_second};
ghost use Rattle.boss_pair_find.specs.Holds.{IsNewPair, IsStatePair};
ghost use Rattle.boss_pair_find.specs.Refusals.{AnswerCause, IsOfBytes};
ghost use Rattle.boss_pair_find.specs.Two.{counts, two};
ghost use Rattle.boss_model.specs.Catalogue.{actuators};
ghost use Rattle.boss_model.specs.declared.event.Event.{Event};
ghost use Rattle.boss_model.specs.Plants.{IsPlant};
ghost use Rattle.boss_model.specs.Seen.{seen};
ghost use Rattle.boss_model.specs.Sound.{IsSound, IsSoundPersistent};
ghost use Rattle.boss_model.specs.State.{Persistent, first_persistent};
ghost use Rattle.boss_opening.specs.Opens.{IsUntouched, Meanwhile, OpenedAt, OpenRefuses, Opening, Stays, WhileLooked, digest_of, first_left, second_left};
ghost use Rattle.boss_opening.specs.UnderWay.{MayComeTo};
ghost use Rattle.def_disk_pair.specs.Pairs.{OpensCleanly};
ghost use Rattle.boss_disk_pair.specs.Causes.{first_disk, second_disk};
ghost use Rattle.boss_disk_pair.specs.Reads.{is_settled, reads_to};
ghost use Rattle.boss_disk_pair.specs.Rests.{counted};

use crate::going_on::{finish, go_on};
use boss_disk::Disk;
use boss_disk_pair::TwoDisks;
use boss_durable::Durable;
use boss_engine::{Engine, RestoreRefusal};
use boss_model::{Kept, NoMemory};
use boss_outside::Failed;
use boss_pair_find::{DurableRefusal, Found, find, make, sync_both};
use boss_points::Catalogue;
use std::alloc::Global;

/// Where a kept state that is not sound is told as damaged: its first byte.
pub const STATE_PLACE: u64 = 65;

/// Opens an engine of a catalogue's points on a pair of disks, whose logs may have `log_limit` bytes: at least 131,072. All points are
/// open: nobody is attached, and every point wants its target.
///
/// A pair that is refused for what it holds comes back as it was. Where a disk fails or no memory is to be had both come back too,
/// and still stand for what they stood for; a fault is told exactly where a call of one of them failed.
pub fn open<D: Disk>(
    alloc: Global,
    catalogue: &Catalogue,
    first: D,
    second: D,
    log_limit: u64,
) -> Result<Durable<D>, ((D, D), DurableRefusal)>
    requires { 131072 ≤ log_limit }
    ensures refuses { D.tells → IfErr result
        (λ refused. OpenRefuses (actuators catalogue.now) (digest_of catalogue.now) (D.reads first) (D.reads second) refused.1) }
    // A pair that is refused for what it holds comes back as it was.
    ensures unchanged { D.tells → IfErr result
        (λ refused. IsOfBytes refused.1 → (D.reads refused.0.0 ≡ D.reads first) × (D.reads refused.0.1 ≡ D.reads second)) }
    // A crash meanwhile leaves nothing of it that it might not have left before.
    ensures looked { D.tells → IfErr result (λ refused. IsOfBytes refused.1
        → WhileLooked (two (D.story first) (D.story second)) (two (D.story refused.0.0) (D.story refused.0.1))) }
    ensures opens { D.tells → IfOk result (λ durable.
        OpenedAt (actuators catalogue.now) (digest_of catalogue.now) (D.reads first) (D.reads second) durable.engine.state durable.disks.events) }
    ensures keeps { (any : List Event) → IfOk result (λ durable. counted (length any) ≡ durable.disks.events → keeps durable any) }
    ensures leaves { IfOk result (λ durable. leaves durable (lasting durable) (lasting durable)) }
    ensures plant { IfOk result (λ durable. durable.engine.plant ≡ actuators catalogue.now) }
    ensures sound { IfOk result (λ durable. IsSound durable.engine.plant durable.engine.state) }
    ensures going { IfOk result (λ durable. durable.disks.stopped ≡ false) }
    ensures digest { IfOk result (λ durable. durable.disks.digest ≡ digest_of catalogue.now) }
    // Of a clean pair: a crash meanwhile, or after a fault, leaves what it stood for, or what the record under way makes of that.
    ensures images { D.tells → (d : Persistent) (count : ℕ)
        → OpensCleanly (actuators catalogue.now) (digest_of catalogue.now) d count (D.reads first) (D.reads second)
        → (after : Persistent) × MayComeTo (actuators catalogue.now) (digest_of catalogue.now) d count after (D.reads first) (D.reads second)
        × Meanwhile (actuators catalogue.now) (digest_of catalogue.now) d after
        (D.story first) (D.story second) (D.story (first_left result)) (D.story (second_left result)) }
    ensures cause { AnswerCause (counts (D.faults first) (D.faults second)) (counts (D.faults (first_left result)) (D.faults (second_left result))) result }
    ensures limit { IfOk result (λ durable. durable.log_limit ≡ log_limit) }
{
    let mut first = first;
    let mut second = second;
    match sync_both(&mut first, &mut second) {
        Ok(()) => open_synced(alloc, catalogue, first, second, log_limit),
        Err(Failed) => Err(((first, second), DurableRefusal::DiskFault)),
    }
}

/// The same of two disks of which all is synced.
fn open_synced<D: Disk>(
    alloc: Global,
    catalogue: &Catalogue,
    first: D,
    second: D,
    log_limit: u64,
) -> Result<Durable<D>, ((D, D), DurableRefusal)>
    requires limit { 131072 ≤ log_limit }
    requires synced { D.tells → ((D.story first).window ≡ settled (D.reads first)) × ((D.story second).window ≡ settled (D.reads second)) }
    ensures opening { Opening (actuators catalogue.now) (digest_of catalogue.now) log_limit first second result }
    ensures stays { D.tells → Stays (actuators catalogue.now) (digest_of catalogue.now) first second result }
    ensures untouched { D.tells → IsUntouched first second result }
{
    match find(alloc, first, second, &catalogue.digest()) {
        Ok(found) => open_found(alloc, catalogue, found, log_limit),
        Err(refused) => Err(refused),
    }
}

/// The same of what was found on them.
fn open_found<D: Disk>(
    alloc: Global,
    catalogue: &Catalogue,
    found: Found<D>,
    log_limit: u64,
) -> Result<Durable<D>, ((D, D), DurableRefusal)>
    requires limit { 131072 ≤ log_limit }
    requires finds { D.tells → Finds (digest_of catalogue.now) (D.reads (found_first found)) (D.reads (found_second found)) found }
    requires starts { Starts (digest_of catalogue.now) found }
    requires synced { D.tells → ((D.story (found_first found)).window ≡ settled (D.reads (found_first found)))
        × ((D.story (found_second found)).window ≡ settled (D.reads (found_second found))) }
    requires settled { D.tells → IsSettled found }
    ensures opening { Opening (actuators catalogue.now) (digest_of catalogue.now) log_limit (found_first found) (found_second found) result }
    ensures stays { D.tells → Stays (actuators catalogue.now) (digest_of catalogue.now) (found_first found) (found_second found) result }
    ensures untouched { D.tells → IsUntouched (found_first found) (found_second found) result }
{
    match found {
        Found::New { first, second } => open_new(alloc, catalogue, first, second, log_limit),
        Found::Plain { pair } => open_plain(alloc, catalogue, pair, log_limit),
        Found::State { pair, kept } => open_state(alloc, catalogue, pair, &kept, log_limit),
    }
}

/// A journal is made on a pair that holds nothing that counts.
fn open_new<D: Disk>(
    alloc: Global,
    catalogue: &Catalogue,
    first: D,
    second: D,
    log_limit: u64,
) -> Result<Durable<D>, ((D, D), DurableRefusal)>
    requires limit { 131072 ≤ log_limit }
    requires new { D.tells → IsNewPair (D.reads first) (D.reads second) }
    requires synced { D.tells → ((D.story first).window ≡ settled (D.reads first)) × ((D.story second).window ≡ settled (D.reads second)) }
    ensures opening { Opening (actuators catalogue.now) (digest_of catalogue.now) log_limit first second result }
    ensures stays { D.tells → Stays (actuators catalogue.now) (digest_of catalogue.now) first second result }
    ensures untouched { D.tells → IsUntouched first second result }
{
    points_are_a_plant(catalogue);
    match Engine::new(alloc, catalogue) {
        Ok(engine) => match make(first, second, &catalogue.digest()) {
            Ok(pair) => finish(alloc, pair, engine, log_limit),
            Err(refused) => Err(refused),
        },
        Err(NoMemory) => Err(((first, second), DurableRefusal::NoMemory)),
    }
}

/// A pair with a journal from the first state on.
fn open_plain<D: Disk>(
    alloc: Global,
    catalogue: &Catalogue,
    pair: TwoDisks<D>,
    log_limit: u64,
) -> Result<Durable<D>, ((D, D), DurableRefusal)>
    requires limit { 131072 ≤ log_limit }
    requires starts { IsAtStart (digest_of catalogue.now) pair }
    requires reads { reads_to pair (actuators catalogue.now) first_persistent 0 [] first_persistent }
    requires settled { is_settled pair }
    ensures opening { Opening (actuators catalogue.now) (digest_of catalogue.now) log_limit (first_disk pair) (second_disk pair) result }
    ensures stays { D.tells → Stays (actuators catalogue.now) (digest_of catalogue.now) (first_disk pair) (second_disk pair) result }
    ensures untouched { D.tells → IsUntouched (first_disk pair) (second_disk pair) result }
{
    points_are_a_plant(catalogue);
    match Engine::new(alloc, catalogue) {
        Ok(engine) => go_on(alloc, pair, engine, log_limit),
        Err(NoMemory) => Err((pair.close(), DurableRefusal::NoMemory)),
    }
}

/// A pair with a journal from this state on.
fn open_state<D: Disk>(
    alloc: Global,
    catalogue: &Catalogue,
    pair: TwoDisks<D>,
    kept: &Kept,
    log_limit: u64,
) -> Result<Durable<D>, ((D, D), DurableRefusal)>
    requires limit { 131072 ≤ log_limit }
    requires starts { IsAtFirst (digest_of catalogue.now) pair }
    requires found { D.tells → IsStatePair (digest_of catalogue.now) (seen kept.now) pair.events pair.journal.place
        (D.reads (first_disk pair)) (D.reads (second_disk pair)) }
    requires reads { IsSoundPersistent (actuators catalogue.now) (seen kept.now)
        → reads_to pair (actuators catalogue.now) (seen kept.now) pair.events [] (seen kept.now) }
    requires settled { is_settled pair }
    ensures opening { Opening (actuators catalogue.now) (digest_of catalogue.now) log_limit (first_disk pair) (second_disk pair) result }
    ensures stays { D.tells → Stays (actuators catalogue.now) (digest_of catalogue.now) (first_disk pair) (second_disk pair) result }
    ensures untouched { D.tells → IsUntouched (first_disk pair) (second_disk pair) result }
{
    points_are_a_plant(catalogue);
    match Engine::restore(alloc, catalogue, kept) {
        Ok(engine) => go_on(alloc, pair, engine, log_limit),
        Err(RestoreRefusal::NotSound) => {
            let place = STATE_PLACE;
            Err((pair.close(), DurableRefusal::Damaged { place }))
        }
        Err(RestoreRefusal::NoMemory) => Err((pair.close(), DurableRefusal::NoMemory)),
    }
}

/// The points of a catalogue are a plant.
pub fn points_are_a_plant(catalogue: &Catalogue)
    ensures { IsPlant (actuators catalogue.now) }
{
    catalogue.count();
}
