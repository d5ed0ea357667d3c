ghost use Rattle.std.specs.Prelude.{◌≡◌, ◌≤◌, ℕ, false, true, [], IfErr, IfOk, OnOk};
ghost use Rattle.boss_model.specs.Limits.{record_room};
ghost use Rattle.def_bytes.specs.States.{state};
ghost use Rattle.boss_pair_find.specs.declared.refusal.DurableRefusal.TheVariants.{Damaged};
ghost use Rattle.boss_pair_find.specs.Refusals.{PairCause};
ghost use Rattle.boss_model.specs.Plants.{IsPlant};
ghost use Rattle.boss_model.specs.Seen.{seen};
ghost use Rattle.boss_model.specs.Sound.{IsSound, IsSoundPersistent};
ghost use Rattle.boss_model.specs.State.{Persistent};
ghost use Rattle.boss_opening.specs.Opens.{Finishing, IsUntouched, Opening, Stays};
ghost use Rattle.boss_opening.specs.Reading.{GoesOn, IsOfLog, IsOfNoBytes, ShutsCleanly};
ghost use Rattle.boss_disk_pair.specs.Causes.{counts_of, first_disk, second_disk};
ghost use Rattle.boss_disk_pair.specs.Reads.{is_clean, is_damaged_at, is_settled, reads_to};
ghost use Rattle.boss_disk_pair.specs.Rests.{passes, rests};
ghost use Rattle.def_log.specs.Versions.{newest_version};

use crate::reading::read_log;
use boss_disk::Disk;
use boss_disk_pair::TwoDisks;
use boss_durable::Durable;
use boss_engine::Engine;
use boss_model::{Buffer, Kept, NoMemory, RECORD_ROOM};
use boss_outside::Failed;
use boss_pair_find::DurableRefusal;
use def_log::NEWEST_VERSION;
use std::alloc::Global;

/// The log of a pair is done again by the engine of the state that it begins with, and its last gate is shut.
pub fn go_on<D: Disk>(
    alloc: Global,
    pair: TwoDisks<D>,
    engine: Engine,
    log_limit: u64,
) -> Result<Durable<D>, ((D, D), DurableRefusal)>
    requires limit { 131072 ≤ log_limit }
    requires going { pair.stopped ≡ false }
    requires whole { IsPlant engine.plant }
    requires sound { IsSound engine.plant engine.state }
    requires begins { reads_to pair engine.plant engine.state.persistent pair.events [] engine.state.persistent }
    requires settled { is_settled pair }
    ensures opening { Opening engine.plant pair.digest log_limit (first_disk pair) (second_disk pair) result }
    ensures stays { D.tells → Stays engine.plant pair.digest (first_disk pair) (second_disk pair) result }
    ensures untouched { D.tells → IsUntouched (first_disk pair) (second_disk pair) result }
{
    let mut pair = pair;
    let mut engine = engine;
    match do_again(alloc, &mut pair, &mut engine) {
        Ok(()) => finish(alloc, pair, engine, log_limit),
        Err(refusal) => Err((pair.close(), refusal)),
    }
}

/// The same, of a pair and an engine that stay with the caller.
fn do_again<D: Disk>(
    alloc: Global,
    pair: &mut TwoDisks<D>,
    engine: &mut Engine,
) -> Result<(), DurableRefusal>
    requires going { pair.old.stopped ≡ false }
    requires sound { IsSound engine.old.plant engine.old.state }
    requires begins { reads_to pair.old engine.old.plant engine.old.state.persistent pair.old.events [] engine.old.state.persistent }
    requires settled { is_settled pair.old }
    ensures goes_on { OnOk result (GoesOn pair.old pair.new engine.old.plant engine.old.state.persistent engine.new.state.persistent) }
    ensures shuts { D.tells → (d : Persistent) (count : ℕ) → is_clean pair.old engine.old.plant d count
        → ShutsCleanly pair.old pair.new engine.old.plant d count engine.new.state.persistent result }
    ensures damaged { IfErr result (λ why. (place : ℕ) → why ≡ Damaged place → is_damaged_at pair.old engine.old.plant place) }
    ensures unchanged { D.tells → IfErr result (λ why. (place : ℕ) → why ≡ Damaged place → D.reads pair.new.journal.disk ≡ D.reads pair.old.journal.disk) }
    ensures still { D.tells → IfErr result (λ why. (place : ℕ) → why ≡ Damaged place → D.story pair.new.journal.disk ≡ D.story pair.old.journal.disk) }
    ensures refuses { IfErr result IsOfLog }
    ensures fine { OnOk result (counts_of pair.new ≡ counts_of pair.old) }
    ensures cause { IfErr result (PairCause (counts_of pair.old) (counts_of pair.new)) }
    ensures going { OnOk result (pair.new.stopped ≡ false) }
    ensures sound { IsSound engine.new.plant engine.new.state }
    ensures plant { engine.new.plant ≡ engine.old.plant }
    ensures digest { pair.new.digest ≡ pair.old.digest }
    ensures order { pair.new.second ≡ pair.old.second }
    ensures spare { pair.new.spare ≡ pair.old.spare }
{
    match read_log(alloc, pair, engine) {
        Ok(events) => match pair.ready(events) {
            Ok(()) => Ok(()),
            Err(Failed) => Err(DurableRefusal::DiskFault),
        },
        Err(refusal) => Err(refusal),
    }
}

/// A pair at rest at what lasts of an engine, and the engine, whose points are opened.
pub fn finish<D: Disk>(
    alloc: Global,
    pair: TwoDisks<D>,
    engine: Engine,
    log_limit: u64,
) -> Result<Durable<D>, ((D, D), DurableRefusal)>
    requires limit { 131072 ≤ log_limit }
    requires going { pair.stopped ≡ false }
    requires whole { IsPlant engine.plant }
    requires sound { IsSound engine.plant engine.state }
    requires rest { rests pair engine.plant engine.state.persistent pair.events }
    ensures { Finishing engine.plant engine.state log_limit pair result }
{
    let mut pair = pair;
    let mut engine = engine;
    match renew(alloc, &mut pair, &engine) {
        Ok(buffer) => {
            engine.open_points();
            Ok(Durable::resting(alloc, engine, pair, buffer, log_limit))
        }
        Err(refusal) => Err((pair.close(), refusal)),
    }
}

/// A pair goes on in the newest version, and room for records is taken.
fn renew<D: Disk>(
    alloc: Global,
    pair: &mut TwoDisks<D>,
    engine: &Engine,
) -> Result<Buffer, DurableRefusal>
    requires going { pair.old.stopped ≡ false }
    requires whole { IsPlant engine.now.plant }
    requires sound { IsSoundPersistent engine.now.plant engine.now.state.persistent }
    requires rest { rests pair.old engine.now.plant engine.now.state.persistent pair.old.events }
    ensures rest { IfOk result (λ _. rests pair.new engine.now.plant engine.now.state.persistent pair.new.events) }
    ensures passes { passes pair.old pair.new engine.now.plant engine.now.state.persistent engine.now.state.persistent }
    ensures version { IfOk result (λ _. pair.new.journal.version ≡ newest_version) }
    ensures going { IfOk result (λ _. pair.new.stopped ≡ false) }
    ensures events { pair.new.events ≡ pair.old.events }
    ensures digest { pair.new.digest ≡ pair.old.digest }
    ensures room { IfOk result (λ buffer. buffer.capacity ≡ record_room) }
    ensures refuses { IfErr result IsOfNoBytes }
    ensures fine { IfOk result (λ _. counts_of pair.new ≡ counts_of pair.old) }
    ensures cause { IfErr result (PairCause (counts_of pair.old) (counts_of pair.new)) }
{
    match Buffer::new(alloc, RECORD_ROOM) {
        Ok(buffer) => match migrate(alloc, pair, engine) {
            Ok(()) => Ok(buffer),
            Err(refusal) => Err(refusal),
        },
        Err(NoMemory) => Err(DurableRefusal::NoMemory),
    }
}

/// A pair of an older version goes on in the newest, behind a kept state.
fn migrate<D: Disk>(
    alloc: Global,
    pair: &mut TwoDisks<D>,
    engine: &Engine,
) -> Result<(), DurableRefusal>
    requires going { pair.old.stopped ≡ false }
    requires whole { IsPlant engine.now.plant }
    requires sound { IsSoundPersistent engine.now.plant engine.now.state.persistent }
    requires rest { rests pair.old engine.now.plant engine.now.state.persistent pair.old.events }
    ensures rest { OnOk result (rests pair.new engine.now.plant engine.now.state.persistent pair.new.events) }
    ensures passes { passes pair.old pair.new engine.now.plant engine.now.state.persistent engine.now.state.persistent }
    ensures version { OnOk result (pair.new.journal.version ≡ newest_version) }
    ensures going { OnOk result (pair.new.stopped ≡ false) }
    ensures events { pair.new.events ≡ pair.old.events }
    ensures digest { pair.new.digest ≡ pair.old.digest }
    ensures refuses { IfErr result IsOfNoBytes }
    ensures fine { OnOk result (counts_of pair.new ≡ counts_of pair.old) }
    ensures cause { IfErr result (PairCause (counts_of pair.old) (counts_of pair.new)) }
{
    if pair.version() == NEWEST_VERSION {
        return Ok(());
    }
    match engine.keep(alloc) {
        Ok(kept) => go_on_behind(pair, engine, &kept),
        Err(NoMemory) => Err(DurableRefusal::NoMemory),
    }
}

/// A pair goes on in the newest version behind this kept state, which is what lasts of the engine.
fn go_on_behind<D: Disk>(
    pair: &mut TwoDisks<D>,
    engine: &Engine,
    kept: &Kept,
) -> Result<(), DurableRefusal>
    requires going { pair.old.stopped ≡ false }
    requires kept { seen kept.now ≡ engine.now.state.persistent }
    requires fits { (state 2).fits (seen kept.now) ≡ true }
    requires sound { IsSoundPersistent engine.now.plant engine.now.state.persistent }
    requires rest { rests pair.old engine.now.plant engine.now.state.persistent pair.old.events }
    ensures rest { OnOk result (rests pair.new engine.now.plant engine.now.state.persistent pair.new.events) }
    ensures passes { passes pair.old pair.new engine.now.plant engine.now.state.persistent engine.now.state.persistent }
    ensures version { OnOk result (pair.new.journal.version ≡ newest_version) }
    ensures going { OnOk result (pair.new.stopped ≡ false) }
    ensures events { pair.new.events ≡ pair.old.events }
    ensures digest { pair.new.digest ≡ pair.old.digest }
    ensures refuses { IfErr result IsOfNoBytes }
    ensures fine { OnOk result (counts_of pair.new ≡ counts_of pair.old) }
    ensures cause { IfErr result (PairCause (counts_of pair.old) (counts_of pair.new)) }
{
    match pair.next_generation(kept) {
        Ok(()) => Ok(()),
        Err(Failed) => Err(DurableRefusal::DiskFault),
    }
}
