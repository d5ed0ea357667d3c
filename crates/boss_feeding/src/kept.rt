ghost use Rattle.std.specs.Prelude.{◌≡◌, ◌+◌, ◌^◌, ◌≤◌, ◌<◌, ℕ, true, List, length, IfErr, IfOk, OnOk};
ghost use Rattle.boss_engine.specs.declared.restoring.RestoreRefusal.TheVariants as restoring;
ghost use Rattle.boss_disk.specs.Record.{state_of};
ghost use Rattle.boss_feeding.specs.Faults.{ActiveCause, IsLate, SinkCause};
ghost use Rattle.boss_feeding.specs.Held.{HasText, text_size};
ghost use Rattle.boss_feeding.specs.Lines.{lines_text};
ghost use Rattle.boss_model.specs.Catalogue.{actuators};
ghost use Rattle.boss_model.specs.Limits.{last_number};
ghost use Rattle.boss_model.specs.Seen.{seen};
ghost use Rattle.boss_model.specs.Sound.{IsSoundPersistent};
ghost use Rattle.boss_outside.specs.Counts.{HasCause};
ghost use Rattle.boss_outside.specs.Streams.{Writes};
ghost use Rattle.boss_snapshot.specs.Fronts.{text_place, version_of};
ghost use Rattle.boss_snapshot.specs.Refusals.{IsKeptState};
ghost use Rattle.def_bytes.specs.States.{state};
ghost use Rattle.def_log.specs.Versions.{newest_version};
ghost use Rattle.def_feed.specs.Feeds.{state_items};

use crate::FeedFault;
use crate::texts::tell_text;
use boss_disk::{Disk, MemoryDisk};
use boss_engine::{Engine, RestoreRefusal};
use boss_model::{Items, Kept, NoMemory};
use boss_outside::{Failed, Sink};
use boss_pair_find::DurableRefusal;
use boss_points::Catalogue;
use boss_seal::has_sums;
use boss_snapshot::write_state;
use def_log::NEWEST_VERSION;
use std::alloc::Global;

/// A kept state that was read, how many events were before it, and the place of its first gate.
#[derive(Drop)]
pub struct Base {
    pub kept: Kept,
    pub before: u64,
    pub gate: u64,
}

/// Whether what was kept is sound over the catalogue's points. It is put back for that, and dropped.
pub fn try_kept(alloc: Global, catalogue: &Catalogue, kept: &Kept) -> Result<(), RestoreRefusal>
    ensures right { OnOk result (IsSoundPersistent (actuators catalogue.now) (seen kept.entry.now)) }
    ensures spelled { OnOk result ((state 2).fits (seen kept.entry.now) ≡ true) }
    ensures wrong { IfErr result (λ why. why ≡ restoring.NotSound → IsSoundPersistent (actuators catalogue.now) (seen kept.entry.now) → ⊥) }
{
    catalogue.count();
    Engine::restore(alloc, catalogue, kept)?;
    Ok(())
}

/// Tells a kept state: as its disk has it, or, where that is of version 1, as version 2 spells it.
pub fn tell_base<D: Disk, K: Sink>(
    alloc: Global,
    disk: &mut D,
    base: &Base,
    sink: &mut K,
) -> Result<(), FeedFault>
    requires kept { D.tells → (digest : List ℕ) × IsKeptState digest (D.reads disk.old) (seen base.now.kept) base.now.before base.now.gate }
    requires fits { (state 2).fits (seen base.now.kept) ≡ true }
    requires few { base.now.before ≤ last_number }
    ensures told { D.tells → K.tells
        → Writes (K.taken sink.old) (K.taken sink.new) (lines_text (state_items base.now.before ((state 2).text (seen base.now.kept)))) result }
    ensures late { IfErr result IsLate }
    ensures reads { D.tells → D.reads disk.new ≡ D.reads disk.old }
    ensures windows { D.tells → D.story disk.new ≡ D.story disk.old }
    ensures cause { ActiveCause (D.faults disk.old) (D.faults disk.new) result }
    ensures sink { SinkCause (K.faults sink.old) (K.faults sink.new) result }
{
    let version = read_version(disk)?;
    if version == 1 {
        tell_anew(alloc, &base.kept, base.before, sink)
    } else {
        let (place, size) = text_of(version, base.gate);
        tell_text(alloc, disk, base.before, place, size, sink)
    }
}

/// Where a state stands before this gate of a disk of this version, and how many bytes it has: less its sum, where it has one.
fn text_of(version: u8, gate: u64) -> (u64, u64)
    ensures place { result.0 ≡ text_place version }
    ensures size { result.1 ≡ text_size version gate }
    ensures low { result.0 + result.1 < 2 ^ 64 }
{
    if has_sums(version) {
        (73, gate.saturating_sub(81))
    } else {
        (65, gate.saturating_sub(65))
    }
}

/// The version of a disk.
fn read_version<D: Disk>(disk: &mut D) -> Result<u8, Failed>
    requires { D.tells → 8 < length (D.reads disk.old) }
    ensures version { D.tells → IfOk result (λ version. version ≡ version_of (D.reads disk.old)) }
    ensures reads { D.tells → D.reads disk.new ≡ D.reads disk.old }
    ensures windows { D.tells → D.story disk.new ≡ D.story disk.old }
    ensures cause { HasCause (D.faults disk.old) (D.faults disk.new) result }
{
    let mut byte = [0u8; 1];
    disk.read_at(8, &mut byte)?;
    Ok(byte[0])
}

/// Tells a state as version 2 spells it. It is written to memory first, and that fails for want of memory alone.
fn tell_anew<K: Sink>(
    alloc: Global,
    kept: &Kept,
    before: u64,
    sink: &mut K,
) -> Result<(), FeedFault>
    requires fits { (state 2).fits (seen kept.now) ≡ true }
    requires few { before ≤ last_number }
    ensures told { K.tells → Writes (K.taken sink.old) (K.taken sink.new) (lines_text (state_items before ((state 2).text (seen kept.entry.now)))) result }
    ensures late { IfErr result IsLate }
    ensures cause { (faults : ℕ) → ActiveCause faults faults result }
    ensures sink { SinkCause (K.faults sink.old) (K.faults sink.new) result }
{
    let mut disk = MemoryDisk::new(alloc, Items::new(alloc), Items::new(alloc))?;
    let gate = write_anew(kept, &mut disk, before)?;
    let (place, size) = text_of(NEWEST_VERSION, gate);
    match tell_text(alloc, &mut disk, before, place, size, sink) {
        Ok(()) => Ok(()),
        Err(FeedFault::WriteFault) => Err(FeedFault::WriteFault),
        Err(FeedFault::Refused(_)) => Err(FeedFault::from(NoMemory)),
    }
}

/// Writes a state to a disk in memory, and tells the place of its first gate.
fn write_anew(kept: &Kept, disk: &mut MemoryDisk, before: u64) -> Result<u64, NoMemory>
    requires fits { (state 2).fits (seen kept.now) ≡ true }
    requires few { before ≤ last_number }
    ensures text { IfOk result (λ gate. HasText (text_place newest_version) (text_size newest_version gate) ((state 2).text (seen kept.entry.now))
        (state_of disk.new).bytes) }
    ensures inside { IfOk result (λ gate. text_place newest_version + text_size newest_version gate ≤ length (state_of disk.new).bytes) }
{
    match write_state(kept, disk, &[0; 32], 0, before) {
        Ok(gate) => Ok(gate),
        Err(Failed) => Err(NoMemory),
    }
}
