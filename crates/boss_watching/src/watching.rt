ghost use Rattle.std.specs.Prelude.{◌≡◌, ◌≤◌, false};
ghost use Rattle.boss_model.specs.Catalogue.{actuators};
ghost use Rattle.boss_outside_server.specs.Pauses.{watch_idle, watch_pause};
ghost use Rattle.boss_lock.specs.Places.{entries_at};
ghost use Rattle.def_lanes.specs.Waits.{HasClosed, PausedFor};
ghost use Rattle.def_connection.specs.Talks.{standing};
ghost use Rattle.def_connection.specs.Watching.{Watched};
ghost use Rattle.boss_watching.specs.Ends.{is_closed_end, is_unanswered_end, ClockCause, CloseCause, DiskCause, HasCalled, Lasted, WriteCause};
ghost use Rattle.boss_watching.specs.Notes.{notes};

use crate::WatchEnd;
use crate::waiting::await_notices;
use boss_model::{ANSWER_ROOM, Buffer, Name, SessionId};
use boss_outside::Sink;
use boss_outside_server::{Clock, WATCH_IDLE, Waiter};
use boss_points::Catalogue;
use boss_shared::Desk;
use std::alloc::Global;

/// Sends the notices of a process as they come, those from the number `from` on, which is at least 1. In each turn the clock is
/// read and at most 64 notices are asked for, as a command of the session; each is written as a line, and where there was none
/// there is a pause of `WATCH_PAUSE` at most. It goes on until `WATCH_IDLE` turns in a row had none, or a pause says that the worker is to end, or
/// something fails.
pub fn watch_connection<G: Desk, K: Sink, C: Clock, W: Waiter>(
    alloc: Global,
    desk: &G,
    pass: &mut G::Pass,
    catalogue: &Catalogue,
    session: SessionId,
    name: &Name,
    from: u64,
    sink: &mut K,
    clock: &mut C,
    waiter: &mut W,
) -> WatchEnd
    requires own { G.owns desk.now pass.old }
    requires plant { actuators catalogue.now ≡ G.plant desk.now }
    requires from { 1 ≤ from }
    ensures own { G.owns desk.now pass.new }
    ensures parts { G.parts pass.new ≡ G.parts pass.old }
    ensures held { G.held pass.new ≡ G.held pass.old }
    ensures watched { Watched (notes catalogue.now) session name.now K.tells C.tells (is_unanswered_end result) from
        (standing (entries_at (G.seen pass.old) (G.mine pass.old)) (K.taken sink.old) (K.faults sink.old) (C.given clock.old) false 0)
        (standing (entries_at (G.seen pass.new) (G.mine pass.new)) (K.taken sink.new) (K.faults sink.new) (C.given clock.new) false 0) }
    ensures lasted { Lasted watch_idle (entries_at (G.seen pass.old) (G.mine pass.old)) (entries_at (G.seen pass.new) (G.mine pass.new))
        W.tells (W.waited waiter.old).pauses (W.waited waiter.new).pauses result }
    ensures waited { W.tells → PausedFor watch_pause (W.waited waiter.old) (W.waited waiter.new) }
    ensures called { HasCalled watch_idle (entries_at (G.seen pass.old) (G.mine pass.old)) (entries_at (G.seen pass.new) (G.mine pass.new)) result }
    ensures clock { ClockCause (C.faults clock.old) (C.faults clock.new) result }
    ensures write { WriteCause (K.faults sink.old) (K.faults sink.new) result }
    ensures disk { DiskCause (G.seen pass.new) result }
    ensures close { CloseCause W.tells (W.waited waiter.new).closed (W.closes waiter.old) (W.closes waiter.new) result }
    ensures closes { W.tells → HasClosed (is_closed_end result) (W.waited waiter.old).closes (W.waited waiter.new).closes }
{
    let Ok(mut text) = Buffer::new(alloc, ANSWER_ROOM) else {
        return WatchEnd::NoMemory;
    };
    let mut next = from;
    loop {
        match await_notices(
            desk, pass, catalogue, session, name, next, &mut text, sink, clock, waiter, WATCH_IDLE,
        ) {
            Ok(later) => next = later,
            Err(end) => return end,
        }
    }
}
