ghost use Rattle.std.specs.Prelude.{◌≡◌, ◌+◌, ◌≤◌, ◌<◌, ◌^◌, ℕ, List, length, IfErr, IfOk, IfSome};
ghost use Rattle.boss_feeding.specs.Faults.{ActiveCause, IsLate, SinkCause};
ghost use Rattle.boss_feeding.specs.Held.{HasLog};
ghost use Rattle.boss_feeding.specs.Lines.{lines_text};
ghost use Rattle.boss_feeding.specs.Nexts.{TellsNext};
ghost use Rattle.boss_model.specs.declared.event.Event.{Event};
ghost use Rattle.boss_model.specs.Limits.{last_number, longest_record};
ghost use Rattle.boss_outside.specs.Streams.{Writes};
ghost use Rattle.boss_snapshot.specs.Fronts.{version_of};
ghost use Rattle.def_seal.specs.Seals.{sealed};
ghost use Rattle.def_feed.specs.Feeds.{event_items};

use crate::FeedFault;
use crate::records::tell_record;
use boss_disk::Disk;
use boss_journal::{Journal, NextRecord};
use boss_model::{Buffer, RECORD_ROOM};
use boss_outside::Sink;
use boss_pair_find::DurableRefusal;
use boss_seal::has_sums;
use std::alloc::Global;

/// Tells those events of a log that have a number above `from`, where so many events were before its first one. The disk stays as it
/// is.
pub fn tell_log<D: Disk, K: Sink>(
    alloc: Global,
    journal: &mut Journal<D>,
    before: u64,
    from: u64,
    sink: &mut K,
) -> Result<(), FeedFault>
    requires version { D.tells → journal.old.version ≡ version_of (D.reads journal.old.disk) }
    requires few { before ≤ last_number }
    ensures told { D.tells → K.tells → (events : List Event) → HasLog journal.old.place events (D.reads journal.old.disk)
        → Writes (K.taken sink.old) (K.taken sink.new) (lines_text (event_items from (before + 1) events)) result }
    ensures late { IfErr result IsLate }
    ensures reads { D.tells → D.reads journal.new.disk ≡ D.reads journal.old.disk }
    ensures windows { D.tells → D.story journal.new.disk ≡ D.story journal.old.disk }
    ensures cause { ActiveCause (D.faults journal.old.disk) (D.faults journal.new.disk) result }
    ensures sink { SinkCause (K.faults sink.old) (K.faults sink.new) result }
{
    let buffer = Buffer::new(alloc, RECORD_ROOM)?;
    tell_records(alloc, journal, buffer, before, from, sink)
}

/// The same, with room for a record.
fn tell_records<D: Disk, K: Sink>(
    alloc: Global,
    journal: &mut Journal<D>,
    buffer: Buffer,
    before: u64,
    from: u64,
    sink: &mut K,
) -> Result<(), FeedFault>
    requires version { D.tells → journal.old.version ≡ version_of (D.reads journal.old.disk) }
    requires few { before ≤ last_number }
    requires room { longest_record ≤ buffer.capacity }
    ensures told { D.tells → K.tells → (events : List Event) → HasLog journal.old.place events (D.reads journal.old.disk)
        → Writes (K.taken sink.old) (K.taken sink.new) (lines_text (event_items from (before + 1) events)) result }
    ensures late { IfErr result IsLate }
    ensures reads { D.tells → D.reads journal.new.disk ≡ D.reads journal.old.disk }
    ensures windows { D.tells → D.story journal.new.disk ≡ D.story journal.old.disk }
    ensures cause { ActiveCause (D.faults journal.old.disk) (D.faults journal.new.disk) result }
    ensures sink { SinkCause (K.faults sink.old) (K.faults sink.new) result }
{
    let mut buffer = buffer;
    let mut number = before;
    loop {
        match tell_next(alloc, journal, &mut buffer, number, from, sink) {
            Ok(Some(more)) => number = more,
            Ok(None) => return Ok(()),
            Err(fault) => return Err(fault),
        }
    }
}

/// Tells those events of the next record that have a number above `from`, where so many events were before them; and how many there
/// are then. None comes where no record is left.
fn tell_next<D: Disk, K: Sink>(
    alloc: Global,
    journal: &mut Journal<D>,
    buffer: &mut Buffer,
    number: u64,
    from: u64,
    sink: &mut K,
) -> Result<Option<u64>, FeedFault>
    requires version { D.tells → journal.old.version ≡ version_of (D.reads journal.old.disk) }
    requires room { longest_record ≤ buffer.old.capacity }
    requires few { number ≤ 2 ^ 63 }
    ensures told { D.tells → K.tells → (events : List Event) → HasLog journal.old.place events (D.reads journal.old.disk)
        → TellsNext from number events (D.reads journal.old.disk) (K.taken sink.old) (K.taken sink.new) journal.new.place result }
    ensures moves { IfOk result (λ found. IfSome found (λ more.
        (more + journal.old.place ≤ number + journal.new.place) × (journal.old.place < journal.new.place))) }
    ensures room { buffer.new.capacity ≡ buffer.old.capacity }
    ensures version { journal.new.version ≡ journal.old.version }
    ensures late { IfErr result IsLate }
    ensures reads { D.tells → D.reads journal.new.disk ≡ D.reads journal.old.disk }
    ensures windows { D.tells → D.story journal.new.disk ≡ D.story journal.old.disk }
    ensures cause { ActiveCause (D.faults journal.old.disk) (D.faults journal.new.disk) result }
    ensures sink { SinkCause (K.faults sink.old) (K.faults sink.new) result }
{
    match journal.next(buffer) {
        NextRecord::Bytes { .. } => {
            let text = without_sum(journal.version(), buffer.bytes());
            let more = tell_record(alloc, number, text, from, sink)?;
            Ok(Some(more))
        }
        NextRecord::Finish => Ok(None),
        // The log was tried before: of a disk that tells what it holds none is damaged here.
        NextRecord::Damaged { .. } => Ok(None),
        NextRecord::DiskFault => Err(FeedFault::Refused(DurableRefusal::DiskFault)),
    }
}

/// The bytes of a record of a disk of this version without their sum, which was compared before.
fn without_sum(version: u8, bytes: &[u8]) -> &[u8]
    ensures text { (seed : List ℕ) (place : ℕ) (text : List ℕ) → bytes.now ≡ sealed version seed place text → result.now ≡ text }
    ensures shorter { length result.now ≤ length bytes.now }
{
    if !has_sums(version) {
        return bytes;
    }
    &bytes[..bytes.len().saturating_sub(8)]
}
