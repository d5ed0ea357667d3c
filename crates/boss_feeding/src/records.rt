ghost use Rattle.std.specs.Prelude.{◌≡◌, ◌+◌, ◌≤◌, ◌<◌, ◌^◌, ℕ, true, List, [], ◌∷◌, ◌++◌, length, Some, IfOk, IfSome};
ghost use Rattle.boss_feeding.specs.Lines.{lines_text};
ghost use Rattle.boss_feeding.specs.Telling.{AreSpelled, TellCause};
ghost use Rattle.boss_model.specs.declared.event.Event.{Event};
ghost use Rattle.boss_outside.specs.Streams.{Writes};
ghost use Rattle.def_bytes.specs.Batches.{batch_text};
ghost use Rattle.def_bytes.specs.Events.{event};
ghost use Rattle.def_feed.specs.Feeds.{event_items};

use crate::telling::tell_event;
use crate::untold::Untold;
use boss_model::NoMemory;
use boss_outside::Sink;
use boss_records::read_event;
use std::alloc::Global;

/// Tells those events of a record that have a number above `from`, where so many events were before them; and how many there are
/// then. Of bytes that are no record the events are told up to the first that is none.
pub fn tell_record<K: Sink>(
    alloc: Global,
    before: u64,
    bytes: &[u8],
    from: u64,
    sink: &mut K,
) -> Result<u64, Untold>
    requires { before + length bytes.now < 2 ^ 64 }
    ensures told { K.tells → (batch : List Event) → AreSpelled batch → bytes.now ≡ batch_text batch
        → Writes (K.taken sink.old) (K.taken sink.new) (lines_text (event_items from (before + 1) batch)) result }
    ensures number { (batch : List Event) → AreSpelled batch → bytes.now ≡ batch_text batch → IfOk result (λ number. number ≡ before + length batch) }
    ensures within { IfOk result (λ number. number ≤ before + length bytes.now) }
    ensures cause { TellCause (K.faults sink.old) (K.faults sink.new) result }
{
    let mut number = before;
    let mut place = 0;
    while place < bytes.len() {
        match tell_first(alloc, number + 1, &bytes[place..], from, sink) {
            Ok(Some(size)) => {
                number += 1;
                place += size;
            }
            Ok(None) => return Ok(number),
            Err(why) => return Err(why),
        }
    }
    Ok(number)
}

/// Tells the event that the bytes begin with, where this is its number and it is above `from`; and how many bytes it has. None comes
/// where they begin with no event.
fn tell_first<K: Sink>(
    alloc: Global,
    number: u64,
    bytes: &[u8],
    from: u64,
    sink: &mut K,
) -> Result<Option<usize>, Untold>
    ensures told { K.tells → (e : Event) (rest : List ℕ) → event.fits e ≡ true → bytes.now ≡ event.text e ++ rest
        → Writes (K.taken sink.old) (K.taken sink.new) (lines_text (event_items from number (e ∷ []))) result }
    ensures size { (e : Event) (rest : List ℕ) → event.fits e ≡ true → bytes.now ≡ event.text e ++ rest
        → IfOk result (λ found. found ≡ Some (length (event.text e))) }
    ensures some { IfOk result (λ found. IfSome found (λ size. (1 ≤ size) × (size ≤ length bytes.now))) }
    ensures cause { TellCause (K.faults sink.old) (K.faults sink.new) result }
{
    match read_event(alloc, bytes) {
        Ok(Some((_, size))) => {
            tell_if_above(alloc, number, &bytes[..size], from, sink)?;
            Ok(Some(size))
        }
        Ok(None) => Ok(None),
        Err(NoMemory) => Err(Untold::NoMemory),
    }
}

/// Tells an event by its bytes, where its number is above `from`.
fn tell_if_above<K: Sink>(
    alloc: Global,
    number: u64,
    bytes: &[u8],
    from: u64,
    sink: &mut K,
) -> Result<(), Untold>
    ensures told { K.tells → (e : Event) → bytes.now ≡ event.text e
        → Writes (K.taken sink.old) (K.taken sink.new) (lines_text (event_items from number (e ∷ []))) result }
    ensures cause { TellCause (K.faults sink.old) (K.faults sink.new) result }
{
    if from < number {
        tell_event(alloc, number, bytes, sink)
    } else {
        Ok(())
    }
}
