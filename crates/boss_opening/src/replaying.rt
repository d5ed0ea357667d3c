ghost use Rattle.std.specs.Prelude.{◌≡◌, ◌≤◌, Some, None, IfOk, IfSome, ◌↔◌, true, false};
ghost use Rattle.def_bytes.specs.Batches.{act_number};
ghost use Rattle.boss_model.specs.Sound.{IsSound};
ghost use Rattle.boss_model.specs.State.{Persistent};
ghost use Rattle.boss_opening.specs.Again.{BeginsOn, HasSpelling, Leads, LeadsOn, NoneBegins};
ghost use Rattle.boss_disk_pair.specs.Reads.{NoneLeads};

use boss_bounds::is_modest;
use boss_engine::Engine;
use boss_model::{Act, Event, NoMemory};
use boss_records::read_event;
use std::alloc::Global;

/// How many events a record has at most.
const MOST_EVENTS: u64 = 16;

/// Does the events of a record again, of a disk of this version, and tells how many they are. None comes exactly where the bytes are
/// not one to sixteen events that such a disk knows, of which each changes something that outlasts a stop; then the engine may
/// have done some of them, and is not to be used.
pub fn replay_record(
    alloc: Global,
    engine: &mut Engine,
    version: u8,
    bytes: &[u8],
) -> Result<Option<u64>, NoMemory>
    requires { IsSound engine.old.plant engine.old.state }
    ensures leads { IfOk result (λ done. IfSome done (λ count.
        Leads engine.old.plant version engine.old.state.persistent bytes.now count engine.new.state.persistent)) }
    ensures broken { IfOk result (λ done. done ≡ None → NoneLeads engine.old.plant version engine.old.state.persistent bytes.now) }
    ensures sound { IsSound engine.new.plant engine.new.state }
    ensures plant { engine.new.plant ≡ engine.old.plant }
{
    let mut count = 0;
    let mut place = 0;
    while place < bytes.len() {
        if count == MOST_EVENTS {
            return Ok(None);
        }
        match replay_first(alloc, engine, version, &bytes[place..]) {
            Ok(Some(size)) => {
                place += size;
                count += 1;
            }
            Ok(None) => return Ok(None),
            Err(NoMemory) => return Err(NoMemory),
        }
    }
    if count == 0 {
        return Ok(None);
    }
    Ok(Some(count))
}

/// Does the event again that the bytes begin with, and tells how many bytes it has. None comes exactly where they begin with no
/// event that a disk of this version knows and that is effective.
fn replay_first(
    alloc: Global,
    engine: &mut Engine,
    version: u8,
    bytes: &[u8],
) -> Result<Option<usize>, NoMemory>
    requires { IsSound engine.old.plant engine.old.state }
    ensures begins { IfOk result (λ done. IfSome done (λ size.
        BeginsOn engine.old.plant version engine.old.state.persistent bytes.now size engine.new.state.persistent)) }
    ensures none { IfOk result (λ done. done ≡ None → NoneBegins engine.old.plant version engine.old.state.persistent bytes.now) }
    ensures sound { IsSound engine.new.plant engine.new.state }
    ensures plant { engine.new.plant ≡ engine.old.plant }
{
    match read_event(alloc, bytes) {
        Ok(Some((event, size))) => match replay_known(engine, version, &event) {
            Ok(done) => { if done { Ok(Some(size)) } else { Ok(None) } }
            Err(NoMemory) => Err(NoMemory),
        },
        Ok(None) => Ok(None),
        Err(NoMemory) => Err(NoMemory),
    }
}

/// Does an event again, if a disk of this version knows it and it is effective, which is the answer.
fn replay_known(engine: &mut Engine, version: u8, event: &Event) -> Result<bool, NoMemory>
    requires spelled { HasSpelling event.now }
    requires sound { IsSound engine.old.plant engine.old.state }
    ensures leads { IfOk result (λ done. done ≡ true →
        LeadsOn engine.old.plant version engine.old.state.persistent event.now engine.new.state.persistent) }
    ensures nowhere { IfOk result (λ done. done ≡ false → (to : Persistent) →
        LeadsOn engine.old.plant version engine.old.state.persistent event.now to → ⊥) }
    ensures sound { IsSound engine.new.plant engine.new.state }
    ensures plant { engine.new.plant ≡ engine.old.plant }
{
    if !is_known(version, &event.act) {
        return Ok(false);
    }
    if !is_modest(&event.act) {
        return Ok(false);
    }
    engine.replay(event)
}

/// Whether a disk of this version knows an act: version 1 knows no numbers of requests.
fn is_known(version: u8, act: &Act) -> bool
    ensures { (result ≡ true) ↔ (version ≡ 1 → act_number act.now ≡ 0) }
{
    version != 1 || number_of(act) == 0
}

/// The number that the process gave the request, 0 for none.
fn number_of(act: &Act) -> u64
    ensures { result ≡ act_number act.now }
{
    match act {
        Act::Submit { seq, .. } | Act::Renew { seq, .. } | Act::Cancel { seq, .. } => *seq,
        Act::Enrol { .. } | Act::Gone { .. } | Act::Tick | Act::Fault { .. } => 0,
    }
}
