ghost use Rattle.std.specs.Prelude.{◌≡◌, ◌+◌, ◌≤◌, true, ◌++◌, length};
ghost use Rattle.def_bytes.specs.Events.{act_fits, event as spelling};

use crate::writing::{
    write_cancel, write_enrol, write_fault, write_gone, write_renew, write_submit, write_tick,
};
use boss_model::{Act, Event};
use boss_records::Room;

/// An event at the end of a record. It has a spelling, and there is room for 4,096 bytes more. It takes no memory.
pub fn put_event<R: Room>(into: &mut R, event: &Event)
    requires fits { spelling.fits event.now ≡ true }
    requires room { length (R.bytes into.old) + 4096 ≤ R.capacity into.old }
    ensures bytes { R.bytes into.new ≡ R.bytes into.old ++ spelling.text event.now }
    ensures capacity { R.capacity into.new ≡ R.capacity into.old }
{
    write_act(into, event.moment, &event.act);
}

/// What was done at this moment.
fn write_act<R: Room>(into: &mut R, at: u64, act: &Act)
    requires fits { act_fits act.now ≡ true }
    requires room { length (R.bytes into.old) + 4096 ≤ R.capacity into.old }
    ensures bytes { R.bytes into.new ≡ R.bytes into.old ++ spelling.text (record { moment = at; act = act.now }) }
    ensures capacity { R.capacity into.new ≡ R.capacity into.old }
{
    match act {
        Act::Enrol { name } => write_enrol(into, at, name),
        Act::Submit {
            owner,
            policy,
            writes,
            seq,
        } => write_submit(into, at, *owner, *policy, *seq, writes.slice()),
        Act::Renew {
            owner,
            txn,
            length,
            points,
            seq,
        } => write_renew(into, at, *owner, *txn, *length, points.slice(), *seq),
        Act::Cancel { owner, txn, seq } => write_cancel(into, at, *owner, *txn, *seq),
        Act::Gone { owner } => write_gone(into, at, *owner),
        Act::Tick => write_tick(into, at),
        Act::Fault { point } => write_fault(into, at, *point),
    }
}
