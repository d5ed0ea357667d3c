ghost use Rattle.std.specs.Prelude.{◌≡◌, ◌≤◌, true, false, IfOk, IfErr};
ghost use Rattle.boss_model.specs.Limits.{answer_room};
ghost use Rattle.boss_outside_server.specs.Pauses.{watch_pause};
ghost use Rattle.boss_model.specs.Catalogue.{actuators};
ghost use Rattle.boss_lock.specs.Places.{entries_at};
ghost use Rattle.def_history.specs.History.{run};
ghost use Rattle.def_lanes.specs.Waits.{HasClosed, PausedFor};
ghost use Rattle.def_connection.specs.Talks.{standing};
ghost use Rattle.def_connection.specs.Watching.{Watched, Watches};
ghost use Rattle.boss_watching.specs.Ends.{is_closed_end, is_unanswered_end, ClockCause, CloseCause, DiskCause, HasCalled, Lasted, WriteCause};
ghost use Rattle.boss_watching.specs.Notes.{GoesOn, notes, sent};
ghost use Rattle.boss_watching.specs.Turns.{Lasts};

use crate::WatchEnd;
use crate::turn::take_turn;
use boss_model::{Buffer, Name, SessionId};
use boss_outside::Sink;
use boss_outside_server::{Clock, WATCH_PAUSE, Waiter, Woke};
use boss_points::Catalogue;
use boss_shared::Desk;

/// Takes turns until one has a notice, and gives the number to ask from next; or tells how it ended: at the latest after so many
/// turns, none of which had a notice.
pub fn await_notices<G: Desk, K: Sink, C: Clock, W: Waiter>(
    desk: &G,
    pass: &mut G::Pass,
    catalogue: &Catalogue,
    session: SessionId,
    name: &Name,
    from: u64,
    text: &mut Buffer,
    sink: &mut K,
    clock: &mut C,
    waiter: &mut W,
    idle: u32,
) -> Result<u64, WatchEnd>
    requires own { G.owns desk.now pass.old }
    requires plant { actuators catalogue.now ≡ G.plant desk.now }
    requires from { 1 ≤ from }
    requires room { answer_room ≤ text.old.capacity }
    ensures own { G.owns desk.now pass.new }
    ensures parts { G.parts pass.new ≡ G.parts pass.old }
    ensures held { G.held pass.new ≡ G.held pass.old }
    ensures room { text.new.capacity ≡ text.old.capacity }
    ensures watches { IfOk result (λ next. Watches (notes catalogue.now) session name.now K.tells C.tells from next
        (standing (entries_at (G.seen pass.old) (G.mine pass.old)) (K.taken sink.old) (K.faults sink.old) (C.given clock.old) false 0)
        (standing (entries_at (G.seen pass.new) (G.mine pass.new)) (K.taken sink.new) (K.faults sink.new) (C.given clock.new) false 0)) }
    ensures lasts { IfOk result (λ next. Lasts idle 0 0 (entries_at (G.seen pass.old) (G.mine pass.old)) (entries_at (G.seen pass.new) (G.mine pass.new))
        W.tells (W.waited waiter.old).pauses (W.waited waiter.new).pauses) }
    ensures goes_on { IfOk result (λ next. GoesOn from next true
        (sent name.now (run (G.plant desk.now) (G.seen pass.old) (G.opening desk.now)))
        (sent name.now (run (G.plant desk.now) (G.seen pass.new) (G.opening desk.now)))) }
    ensures calm { IfOk result (λ next. C.faults clock.new ≡ C.faults clock.old) }
    ensures open { IfOk result (λ next. W.closes waiter.new ≡ W.closes waiter.old) }
    ensures watched { IfErr result (λ end. Watched (notes catalogue.now) session name.now K.tells C.tells (is_unanswered_end end) from
        (standing (entries_at (G.seen pass.old) (G.mine pass.old)) (K.taken sink.old) (K.faults sink.old) (C.given clock.old) false 0)
        (standing (entries_at (G.seen pass.new) (G.mine pass.new)) (K.taken sink.new) (K.faults sink.new) (C.given clock.new) false 0)) }
    ensures lasted { IfErr result (Lasted idle (entries_at (G.seen pass.old) (G.mine pass.old)) (entries_at (G.seen pass.new) (G.mine pass.new))
        W.tells (W.waited waiter.old).pauses (W.waited waiter.new).pauses) }
    ensures waited { W.tells → PausedFor watch_pause (W.waited waiter.old) (W.waited waiter.new) }
    ensures called { IfErr result (HasCalled idle (entries_at (G.seen pass.old) (G.mine pass.old)) (entries_at (G.seen pass.new) (G.mine pass.new))) }
    ensures clock_cause { IfErr result (ClockCause (C.faults clock.old) (C.faults clock.new)) }
    ensures write_cause { IfErr result (WriteCause (K.faults sink.old) (K.faults sink.new)) }
    ensures disk_cause { IfErr result (DiskCause (G.seen pass.new)) }
    ensures closes { W.tells → IfErr result (λ end. HasClosed (is_closed_end end) (W.waited waiter.old).closes (W.waited waiter.new).closes) }
    ensures close_cause { IfErr result (CloseCause W.tells (W.waited waiter.new).closed (W.closes waiter.old) (W.closes waiter.new)) }
{
    let mut next = from;
    for quiet in 0..idle {
        let turn = match take_turn(
            desk, pass, catalogue, session, name, next, text, sink, clock,
        ) {
            Err(end) => return Err(end),
            Ok(turn) => turn,
        };
        next = turn.next;
        if turn.told {
            return Ok(next);
        }
        if let Woke::Close = waiter.pause(WATCH_PAUSE) {
            if quiet + 1 < idle {
                return Err(WatchEnd::Closed);
            }
        }
    }
    Err(WatchEnd::Idle)
}
