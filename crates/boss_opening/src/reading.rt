ghost use Rattle.std.specs.Prelude.{◌≡◌, ◌+◌, ◌≤◌, ℕ, [], None, IfOk, IfErr, IfSome, false};
ghost use Rattle.boss_model.specs.Limits.{longest_record};
ghost use Rattle.boss_pair_find.specs.declared.refusal.DurableRefusal.TheVariants.{Damaged};
ghost use Rattle.boss_pair_find.specs.Refusals.{DiskCause, PairCause};
ghost use Rattle.boss_model.specs.Sound.{IsSound};
ghost use Rattle.boss_opening.specs.Reading.{IsAtLast, IsDamaged, IsOfLog, IsReadOn, ReadsOn, ReadWhole};
ghost use Rattle.boss_disk_pair.specs.Causes.{counts_of};
ghost use Rattle.boss_disk_pair.specs.Reads.{is_damaged_at, reads_to};

use crate::replaying::replay_record;
use boss_disk::Disk;
use boss_disk_pair::TwoDisks;
use boss_engine::Engine;
use boss_journal::NextRecord;
use boss_model::{Buffer, NoMemory, RECORD_ROOM};
use boss_pair_find::DurableRefusal;
use std::alloc::Global;

/// Reads the log of a pair to its end, does its events again, and tells how many they are. The disks stay as they are. Where the pair
/// is refused the engine is not to be used.
///
/// `Damaged` comes where a gate is open without a record behind it that leads on, at its place.
pub fn read_log<D: Disk>(
    alloc: Global,
    pair: &mut TwoDisks<D>,
    engine: &mut Engine,
) -> Result<u64, DurableRefusal>
    requires going { pair.old.stopped ≡ false }
    requires sound { IsSound engine.old.plant engine.old.state }
    requires begins { reads_to pair.old engine.old.plant engine.old.state.persistent pair.old.events [] engine.old.state.persistent }
    ensures whole { IfOk result (λ count. ReadWhole pair.old pair.new engine.old.plant engine.old.state.persistent count engine.new.state.persistent) }
    ensures damaged { IfErr result (λ why. (place : ℕ) → why ≡ Damaged place → is_damaged_at pair.old engine.old.plant place) }
    ensures refuses { IfErr result IsOfLog }
    ensures same { IsReadOn pair.old pair.new }
    ensures sound { IsSound engine.new.plant engine.new.state }
    ensures plant { engine.new.plant ≡ engine.old.plant }
    ensures fine { IfOk result (λ _. counts_of pair.new ≡ counts_of pair.old) }
    ensures cause { IfErr result (PairCause (counts_of pair.old) (counts_of pair.new)) }
    ensures going { IfOk result (λ _. pair.new.stopped ≡ false) }
{
    match Buffer::new(alloc, RECORD_ROOM) {
        Ok(buffer) => {
            let mut buffer = buffer;
            read_all(alloc, pair, engine, &mut buffer)
        }
        Err(NoMemory) => Err(DurableRefusal::NoMemory),
    }
}

/// The same, with room for a record.
fn read_all<D: Disk>(
    alloc: Global,
    pair: &mut TwoDisks<D>,
    engine: &mut Engine,
    buffer: &mut Buffer,
) -> Result<u64, DurableRefusal>
    requires going { pair.old.stopped ≡ false }
    requires sound { IsSound engine.old.plant engine.old.state }
    requires room { longest_record ≤ buffer.old.capacity }
    ensures whole { IfOk result (λ count. ReadWhole pair.old pair.new engine.old.plant engine.old.state.persistent count engine.new.state.persistent) }
    ensures damaged { IfErr result (IsDamaged pair.old pair.new engine.old.plant engine.old.state.persistent) }
    ensures refuses { IfErr result IsOfLog }
    ensures same { IsReadOn pair.old pair.new }
    ensures sound { IsSound engine.new.plant engine.new.state }
    ensures plant { engine.new.plant ≡ engine.old.plant }
    ensures fine { IfOk result (λ _. D.faults pair.new.journal.disk ≡ D.faults pair.old.journal.disk) }
    ensures cause { IfErr result (DiskCause (D.faults pair.old.journal.disk) (D.faults pair.new.journal.disk)) }
    ensures going { IfOk result (λ _. pair.new.stopped ≡ false) }
{
    let mut events: u64 = 0;
    loop {
        match read_next(alloc, pair, engine, buffer) {
            Ok(Some(more)) => events += more,
            Ok(None) => return Ok(events),
            Err(refusal) => return Err(refusal),
        }
    }
}

/// Reads the next record of a log, does its events again, and tells how many they are; none where the log is at its end.
fn read_next<D: Disk>(
    alloc: Global,
    pair: &mut TwoDisks<D>,
    engine: &mut Engine,
    buffer: &mut Buffer,
) -> Result<Option<u64>, DurableRefusal>
    requires sound { IsSound engine.old.plant engine.old.state }
    requires room { longest_record ≤ buffer.old.capacity }
    ensures reads { IfOk result (λ found. IfSome found (λ count.
        ReadsOn pair.old pair.new engine.old.plant engine.old.state.persistent count engine.new.state.persistent)) }
    ensures moves { IfOk result (λ found. IfSome found (λ count. pair.old.journal.place + count + 5 ≤ pair.new.journal.place)) }
    ensures last { IfOk result (λ found. found ≡ None → IsAtLast pair.old pair.new engine.old.plant engine.old.state.persistent) }
    ensures still { IfOk result (λ found. found ≡ None → engine.new ≡ engine.old) }
    ensures damaged { IfErr result (IsDamaged pair.old pair.new engine.old.plant engine.old.state.persistent) }
    ensures refuses { IfErr result IsOfLog }
    ensures same { IsReadOn pair.old pair.new }
    ensures sound { IsSound engine.new.plant engine.new.state }
    ensures plant { engine.new.plant ≡ engine.old.plant }
    ensures room { buffer.new.capacity ≡ buffer.old.capacity }
    ensures fine { IfOk result (λ _. D.faults pair.new.journal.disk ≡ D.faults pair.old.journal.disk) }
    ensures cause { IfErr result (DiskCause (D.faults pair.old.journal.disk) (D.faults pair.new.journal.disk)) }
    ensures going { IfOk result (λ _. pair.new.stopped ≡ pair.old.stopped) }
{
    match pair.next(buffer) {
        NextRecord::Bytes { place } => match replay_record(
            alloc,
            engine,
            pair.version(),
            buffer.bytes(),
        ) {
            Ok(Some(count)) => Ok(Some(count)),
            Ok(None) => Err(DurableRefusal::Damaged { place }),
            Err(NoMemory) => Err(DurableRefusal::NoMemory),
        },
        NextRecord::Finish => Ok(None),
        NextRecord::Damaged { place } => Err(DurableRefusal::Damaged { place }),
        NextRecord::DiskFault => Err(DurableRefusal::DiskFault),
    }
}
