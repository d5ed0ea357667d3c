ghost use Rattle.std.specs.Prelude.{◌≡◌, ◌⊎◌, ◌+◌, ◌≤◌, ◌<◌, ℕ, true, List, length, IfErr, IfOk};
ghost use Rattle.boss_disk_pair.specs.Forces.{TellsForce};
ghost use Rattle.boss_feeding.specs.Faults.{ActiveCause, DisksCause, IsLate, SinkCause};
ghost use Rattle.boss_feeding.specs.Held.{HasLog, Stands};
ghost use Rattle.boss_feeding.specs.Lines.{lines_text};
ghost use Rattle.boss_feeding.specs.Refusals.{DiskRefuses, FeedRefuses, IsOfPair};
ghost use Rattle.boss_model.specs.Catalogue.{actuators};
ghost use Rattle.boss_model.specs.declared.event.Event.{Event};
ghost use Rattle.boss_model.specs.declared.state.Actuator.{Actuator};
ghost use Rattle.boss_model.specs.Limits.{last_number};
ghost use Rattle.boss_model.specs.Seen.{seen};
ghost use Rattle.boss_model.specs.State.{Persistent};
ghost use Rattle.boss_opening.specs.Opens.{digest_of};
ghost use Rattle.boss_outside.specs.Streams.{Writes};
ghost use Rattle.boss_pair_find.specs.Two.{counts};
ghost use Rattle.boss_snapshot.specs.Refusals.{IsKeptState, IsState};
ghost use Rattle.def_bytes.specs.States.{state};
ghost use Rattle.def_disk_pair.specs.Pairs.{HasEvents, StandsFor};
ghost use Rattle.def_feed.specs.Feeds.{event_items, feed_text};
ghost use Rattle.def_log.specs.Kinds.{kind_of};
ghost use Rattle.def_log.specs.declared.kind.DiskKind.TheVariants as disk_kind;

use crate::FeedFault;
use crate::forces::find_force;
use crate::kept::{Base, tell_base, try_kept};
use crate::logs::tell_log;
use crate::texts::STATE_PLACE;
use boss_disk::Disk;
use boss_disk_pair::Force;
use boss_engine::RestoreRefusal;
use boss_journal::Journal;
use boss_model::{FIRST_GATE, LAST_NUMBER, NoMemory};
use boss_opening::{Checked, check};
use boss_outside::{Failed, Sink};
use boss_pair_find::DurableRefusal;
use boss_points::Catalogue;
use boss_snapshot::read_state;
use std::alloc::Global;

/// Tells what a pair of disks stands for as a feed: the events with a number above `from`, and before them the state that they stand
/// on, where its own number is above `from` too. Of a new pair nothing is told. Both disks come back as they were: nothing is
/// written, cut or synced.
///
/// A pair is refused as an opening refuses it, before anything is told. Where the sink or a disk fails, or no memory is to be had, a
/// front of the feed may be told.
pub fn feed<D: Disk, K: Sink>(
    alloc: Global,
    catalogue: &Catalogue,
    first: D,
    second: D,
    from: u64,
    sink: &mut K,
) -> ((D, D), Result<(), FeedFault>)
    // All of the feed of what the pair stands for, or a front of it where it ends before.
    ensures told { D.tells → K.tells → (base : Persistent) (before : ℕ) (events : List Event)
        → StandsFor (actuators catalogue.now) (digest_of catalogue.now) base before events (D.reads first) (D.reads second)
        → Writes (K.taken sink.old) (K.taken sink.new) (feed_text from base before events) result.1 }
    ensures stands { D.tells → IfOk result.1 (λ _. Stands (actuators catalogue.now) (digest_of catalogue.now) (D.reads first) (D.reads second)) }
    // Nothing is told of a pair that stands for nothing.
    ensures broke { D.tells → IfErr result.1 (λ _. (K.tells → K.taken sink.new ≡ K.taken sink.old)
        ⊎ Stands (actuators catalogue.now) (digest_of catalogue.now) (D.reads first) (D.reads second)) }
    ensures refuses { D.tells → IfErr result.1 (FeedRefuses (actuators catalogue.now) (digest_of catalogue.now) (D.reads first) (D.reads second)) }
    // Of a pair that is refused for what it holds nothing is told.
    ensures silent { K.tells → IfErr result.1 (λ fault. IsOfPair fault → K.taken sink.new ≡ K.taken sink.old) }
    ensures first_reads { D.tells → D.reads result.0.0 ≡ D.reads first }
    ensures second_reads { D.tells → D.reads result.0.1 ≡ D.reads second }
    ensures first_story { D.tells → D.story result.0.0 ≡ D.story first }
    ensures second_story { D.tells → D.story result.0.1 ≡ D.story second }
    ensures cause { DisksCause (counts (D.faults first) (D.faults second)) (counts (D.faults result.0.0) (D.faults result.0.1)) result.1 }
    ensures sink { SinkCause (K.faults sink.old) (K.faults sink.new) result.1 }
{
    let (disks, checked) = check(alloc, catalogue, first, second);
    match checked {
        Ok(Checked::New) => (disks, Ok(())),
        Ok(Checked::Found { .. }) => {
            let (first, second) = disks;
            feed_again(alloc, catalogue, first, second, from, sink)
        }
        Err(refusal) => (disks, Err(FeedFault::from(refusal))),
    }
}

/// The same of a pair that was checked.
fn feed_again<D: Disk, K: Sink>(
    alloc: Global,
    catalogue: &Catalogue,
    first: D,
    second: D,
    from: u64,
    sink: &mut K,
) -> ((D, D), Result<(), FeedFault>)
    ensures told { D.tells → K.tells → (base : Persistent) (before : ℕ) (events : List Event)
        → StandsFor (actuators catalogue.now) (digest_of catalogue.now) base before events (D.reads first) (D.reads second)
        → Writes (K.taken sink.old) (K.taken sink.new) (feed_text from base before events) result.1 }
    ensures refuses { D.tells → IfErr result.1 (FeedRefuses (actuators catalogue.now) (digest_of catalogue.now) (D.reads first) (D.reads second)) }
    ensures silent { K.tells → IfErr result.1 (λ fault. IsOfPair fault → K.taken sink.new ≡ K.taken sink.old) }
    ensures first_reads { D.tells → D.reads result.0.0 ≡ D.reads first }
    ensures second_reads { D.tells → D.reads result.0.1 ≡ D.reads second }
    ensures first_story { D.tells → D.story result.0.0 ≡ D.story first }
    ensures second_story { D.tells → D.story result.0.1 ≡ D.story second }
    ensures cause { DisksCause (counts (D.faults first) (D.faults second)) (counts (D.faults result.0.0) (D.faults result.0.1)) result.1 }
    ensures sink { SinkCause (K.faults sink.old) (K.faults sink.new) result.1 }
{
    let mut first = first;
    let mut second = second;
    match find_force(&mut first, &mut second) {
        Ok(force) => feed_forced(alloc, catalogue, first, second, force, from, sink),
        Err(Failed) => ((first, second), Err(FeedFault::from(Failed))),
    }
}

/// The same, where it was found which disk is in force.
fn feed_forced<D: Disk, K: Sink>(
    alloc: Global,
    catalogue: &Catalogue,
    first: D,
    second: D,
    force: Option<Force>,
    from: u64,
    sink: &mut K,
) -> ((D, D), Result<(), FeedFault>)
    requires { D.tells → TellsForce (kind_of (D.reads first)) (kind_of (D.reads second)) force }
    ensures told { D.tells → K.tells → (base : Persistent) (before : ℕ) (events : List Event)
        → StandsFor (actuators catalogue.now) (digest_of catalogue.now) base before events (D.reads first) (D.reads second)
        → Writes (K.taken sink.old) (K.taken sink.new) (feed_text from base before events) result.1 }
    ensures refuses { D.tells → IfErr result.1 (FeedRefuses (actuators catalogue.now) (digest_of catalogue.now) (D.reads first) (D.reads second)) }
    ensures silent { K.tells → IfErr result.1 (λ fault. IsOfPair fault → K.taken sink.new ≡ K.taken sink.old) }
    ensures first_reads { D.tells → D.reads result.0.0 ≡ D.reads first }
    ensures second_reads { D.tells → D.reads result.0.1 ≡ D.reads second }
    ensures first_story { D.tells → D.story result.0.0 ≡ D.story first }
    ensures second_story { D.tells → D.story result.0.1 ≡ D.story second }
    ensures cause { DisksCause (counts (D.faults first) (D.faults second)) (counts (D.faults result.0.0) (D.faults result.0.1)) result.1 }
    ensures sink { SinkCause (K.faults sink.old) (K.faults sink.new) result.1 }
{
    match force {
        // The pair was checked: of disks that tell what they hold one is this program's.
        None => ((first, second), Ok(())),
        Some(Force::Neither) => ((first, second), Ok(())),
        Some(Force::Plain) => {
            let (first, told) = feed_plain(alloc, first, from, sink);
            ((first, second), told)
        }
        Some(
            Force::State {
                second: is_second,
                ..
            },
        ) => {
            if is_second {
                let (second, told) = feed_state(alloc, catalogue, second, from, sink);
                ((first, second), told)
            } else {
                let (first, told) = feed_state(alloc, catalogue, first, from, sink);
                ((first, second), told)
            }
        }
    }
}

/// Tells what a disk stands for that holds a journal from the first state on.
fn feed_plain<D: Disk, K: Sink>(
    alloc: Global,
    disk: D,
    from: u64,
    sink: &mut K,
) -> (D, Result<(), FeedFault>)
    requires { D.tells → kind_of (D.reads disk) ≡ disk_kind.Plain }
    ensures told { D.tells → K.tells → (plant : List Actuator) (digest : List ℕ) (base : Persistent) (before : ℕ) (events : List Event) → length digest ≡ 32
        → HasEvents plant digest base before events (D.reads disk)
        → Writes (K.taken sink.old) (K.taken sink.new) (feed_text from base before events) result.1 }
    ensures late { IfErr result.1 IsLate }
    ensures reads { D.tells → D.reads result.0 ≡ D.reads disk }
    ensures windows { D.tells → D.story result.0 ≡ D.story disk }
    ensures cause { ActiveCause (D.faults disk) (D.faults result.0) result.1 }
    ensures sink { SinkCause (K.faults sink.old) (K.faults sink.new) result.1 }
{
    feed_log(alloc, disk, FIRST_GATE, 0, from, sink)
}

/// Tells what a disk stands for that holds a kept state.
fn feed_state<D: Disk, K: Sink>(
    alloc: Global,
    catalogue: &Catalogue,
    disk: D,
    from: u64,
    sink: &mut K,
) -> (D, Result<(), FeedFault>)
    requires { D.tells → IsState (kind_of (D.reads disk)) }
    ensures told { D.tells → K.tells → (base : Persistent) (before : ℕ) (events : List Event)
        → HasEvents (actuators catalogue.now) (digest_of catalogue.now) base before events (D.reads disk)
        → Writes (K.taken sink.old) (K.taken sink.new) (feed_text from base before events) result.1 }
    ensures refuses { D.tells → IfErr result.1 (DiskRefuses (actuators catalogue.now) (digest_of catalogue.now) (D.reads disk)) }
    ensures silent { K.tells → IfErr result.1 (λ fault. IsOfPair fault → K.taken sink.new ≡ K.taken sink.old) }
    ensures reads { D.tells → D.reads result.0 ≡ D.reads disk }
    ensures windows { D.tells → D.story result.0 ≡ D.story disk }
    ensures cause { ActiveCause (D.faults disk) (D.faults result.0) result.1 }
    ensures sink { SinkCause (K.faults sink.old) (K.faults sink.new) result.1 }
{
    let mut disk = disk;
    match read_state(alloc, &mut disk, &catalogue.digest()) {
        Ok((kept, before, gate)) => {
            // No state is read with more events before it; a disk that tells nothing does not promise that.
            let before = before.min(LAST_NUMBER);
            let base = Base { kept, before, gate };
            feed_kept(alloc, catalogue, disk, &base, from, sink)
        }
        Err(refusal) => (disk, Err(FeedFault::Refused(DurableRefusal::from(refusal)))),
    }
}

/// The same, where the state was read.
fn feed_kept<D: Disk, K: Sink>(
    alloc: Global,
    catalogue: &Catalogue,
    disk: D,
    base: &Base,
    from: u64,
    sink: &mut K,
) -> (D, Result<(), FeedFault>)
    requires state { D.tells → IsState (kind_of (D.reads disk)) }
    requires kept { D.tells → IsKeptState (digest_of catalogue.now) (D.reads disk) (seen base.now.kept) base.now.before base.now.gate }
    requires few { base.now.before ≤ last_number }
    ensures told { D.tells → K.tells → (from_state : Persistent) (before : ℕ) (events : List Event)
        → HasEvents (actuators catalogue.now) (digest_of catalogue.now) from_state before events (D.reads disk)
        → Writes (K.taken sink.old) (K.taken sink.new) (feed_text from from_state before events) result.1 }
    ensures refuses { D.tells → IfErr result.1 (DiskRefuses (actuators catalogue.now) (digest_of catalogue.now) (D.reads disk)) }
    ensures silent { K.tells → IfErr result.1 (λ fault. IsOfPair fault → K.taken sink.new ≡ K.taken sink.old) }
    ensures reads { D.tells → D.reads result.0 ≡ D.reads disk }
    ensures windows { D.tells → D.story result.0 ≡ D.story disk }
    ensures cause { ActiveCause (D.faults disk) (D.faults result.0) result.1 }
    ensures sink { SinkCause (K.faults sink.old) (K.faults sink.new) result.1 }
{
    match try_kept(alloc, catalogue, &base.kept) {
        Ok(()) => feed_sound(alloc, disk, base, from, sink),
        Err(RestoreRefusal::NotSound) => {
            let place = STATE_PLACE;
            (
                disk,
                Err(FeedFault::Refused(DurableRefusal::Damaged { place })),
            )
        }
        Err(RestoreRefusal::NoMemory) => (disk, Err(FeedFault::from(NoMemory))),
    }
}

/// The same, where the state is sound.
fn feed_sound<D: Disk, K: Sink>(
    alloc: Global,
    disk: D,
    base: &Base,
    from: u64,
    sink: &mut K,
) -> (D, Result<(), FeedFault>)
    requires kept { D.tells → (digest : List ℕ) × IsKeptState digest (D.reads disk) (seen base.now.kept) base.now.before base.now.gate }
    requires fits { (state 2).fits (seen base.now.kept) ≡ true }
    requires few { base.now.before ≤ last_number }
    ensures told { D.tells → K.tells → (events : List Event) → HasLog base.now.gate events (D.reads disk)
        → Writes (K.taken sink.old) (K.taken sink.new) (feed_text from (seen base.now.kept) base.now.before events) result.1 }
    ensures late { IfErr result.1 IsLate }
    ensures reads { D.tells → D.reads result.0 ≡ D.reads disk }
    ensures windows { D.tells → D.story result.0 ≡ D.story disk }
    ensures cause { ActiveCause (D.faults disk) (D.faults result.0) result.1 }
    ensures sink { SinkCause (K.faults sink.old) (K.faults sink.new) result.1 }
{
    let mut disk = disk;
    if from >= base.before {
        return feed_log(alloc, disk, base.gate, base.before, from, sink);
    }
    match tell_base(alloc, &mut disk, base, sink) {
        Ok(()) => feed_log(alloc, disk, base.gate, base.before, from, sink),
        Err(fault) => (disk, Err(fault)),
    }
}

/// Tells the events of a log whose first gate is at this place, where so many events were before them.
fn feed_log<D: Disk, K: Sink>(
    alloc: Global,
    disk: D,
    gate: u64,
    before: u64,
    from: u64,
    sink: &mut K,
) -> (D, Result<(), FeedFault>)
    requires inside { D.tells → gate < length (D.reads disk) }
    requires past { D.tells → 8 ≤ gate }
    requires few { before ≤ last_number }
    ensures told { D.tells → K.tells → (events : List Event) → HasLog gate events (D.reads disk)
        → Writes (K.taken sink.old) (K.taken sink.new) (lines_text (event_items from (before + 1) events)) result.1 }
    ensures late { IfErr result.1 IsLate }
    ensures reads { D.tells → D.reads result.0 ≡ D.reads disk }
    ensures windows { D.tells → D.story result.0 ≡ D.story disk }
    ensures cause { ActiveCause (D.faults disk) (D.faults result.0) result.1 }
    ensures sink { SinkCause (K.faults sink.old) (K.faults sink.new) result.1 }
{
    match Journal::open_after(disk, gate) {
        Ok(journal) => {
            let mut journal = journal;
            let told = tell_log(alloc, &mut journal, before, from, sink);
            (journal.close(), told)
        }
        Err((disk, _)) => (disk, Err(FeedFault::Refused(DurableRefusal::DiskFault))),
    }
}
