ghost use Rattle.std.specs.Prelude.{◌≡◌, true, IfErr, IfOk, ℕ};
ghost use Rattle.boss_following.specs.Items.{NoEvent, NoState};
ghost use Rattle.boss_following.specs.declared.stop.Stop.TheVariants as stop;
ghost use Rattle.boss_model.specs.Seen.{seen};
ghost use Rattle.boss_snapshot.specs.Spells.{SpellsState};
ghost use Rattle.def_bytes.specs.Events.{event};

use crate::stop::Stop;
use boss_model::{Event, Kept, NoMemory};
use boss_records::read_event;
use boss_snapshot::read_kept;
use std::alloc::Global;

/// The version as which a feed spells a state, whatever its disk's version.
const SPELLED: u8 = 2;

/// The event that these bytes are, to the last of them.
pub(crate) fn event_of(alloc: Global, bytes: &[u8]) -> Result<Event, Stop>
    ensures fits { IfOk result (λ e. event.fits e ≡ true) }
    ensures is { IfOk result (λ e. bytes.now ≡ event.text e) }
    ensures wrong { IfErr result (λ why. NoEvent bytes.now why) }
{
    match read_event(alloc, bytes) {
        Ok(Some((event, size))) => {
            if size == bytes.len() {
                Ok(event)
            } else {
                Err(Stop::BadLine)
            }
        }
        Ok(None) => Err(Stop::BadLine),
        Err(NoMemory) => Err(Stop::NoMemory),
    }
}

/// The state that these bytes are.
pub(crate) fn state_of(alloc: Global, bytes: &[u8]) -> Result<Kept, Stop>
    ensures is { IfOk result (λ kept. SpellsState 2 (seen kept) bytes.now) }
    ensures wrong { IfErr result (λ why. NoState bytes.now why) }
{
    match read_kept(alloc, SPELLED, bytes) {
        Ok(Some(kept)) => Ok(kept),
        Ok(None) => Err(Stop::BadLine),
        Err(NoMemory) => Err(Stop::NoMemory),
    }
}
