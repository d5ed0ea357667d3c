ghost use Rattle.std.specs.Prelude.{◌≡◌};
ghost use Rattle.boss_outside_server.specs.Pauses.{tick_pause};
ghost use Rattle.boss_lock.specs.Places.{entries_at};
ghost use Rattle.def_lanes.specs.Waits.{PausedFor};
ghost use Rattle.boss_expiry.specs.Ticking.{Expired};
ghost use Rattle.boss_expiry.specs.Ends.{ClockCause, EndCause};

use crate::{WorkEnd, work};
use boss_model::Command;
use boss_outside_server::{Clock, TICK_PAUSE, Waiter, Woke};
use boss_shared::Desk;

/// Takes so many turns, each of which is a reading of the clock, a tick at this moment and a pause of `TICK_PAUSE` at most, or fewer
/// where the clock or the disk fails or a pause says that the worker is to end. It takes no memory.
pub fn expire<G: Desk, C: Clock, W: Waiter>(
    desk: &G,
    pass: &mut G::Pass,
    clock: &mut C,
    waiter: &mut W,
    turns: u64,
) -> WorkEnd
    requires own { G.owns desk.now pass.old }
    ensures own { G.owns desk.now pass.new }
    ensures parts { G.parts pass.new ≡ G.parts pass.old }
    ensures ticks { Expired (entries_at (G.seen pass.old) (G.mine pass.old)) (entries_at (G.seen pass.new) (G.mine pass.new))
        C.tells (C.given clock.old) (C.given clock.new) W.tells (W.waited waiter.old).pauses (W.waited waiter.new).pauses turns result }
    ensures waited { W.tells → PausedFor tick_pause (W.waited waiter.old) (W.waited waiter.new) }
    ensures clock { ClockCause (C.faults clock.old) (C.faults clock.new) result }
    ensures cause { EndCause (G.seen pass.new) W.tells (W.waited waiter.new).closed (W.closes waiter.old) (W.closes waiter.new) result }
{
    for turn in 0..turns {
        let Ok(moment) = clock.now() else {
            return WorkEnd::ClockFault;
        };
        if let Err(end) = work(desk, pass, &Command::Tick, moment) {
            return end;
        }
        if let Woke::Close = waiter.pause(TICK_PAUSE) {
            if turn + 1 < turns {
                return WorkEnd::Closed;
            }
        }
    }
    WorkEnd::Finished
}
