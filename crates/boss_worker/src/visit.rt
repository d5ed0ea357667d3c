ghost use Rattle.std.specs.Prelude.{◌≡◌, ◌<◌, ℕ, Bool, List, true, None, option_copied};
ghost use Rattle.boss_model.specs.Catalogue.{actuators};
ghost use Rattle.boss_outside_server.specs.Pauses.{watch_pause};
ghost use Rattle.def_history.specs.History.{is_broken};
ghost use Rattle.def_lanes.specs.Lanes.{of_session};
ghost use Rattle.def_lanes.specs.Parts.{Added};
ghost use Rattle.def_lanes.specs.Waits.{HasClosed, PausedAround};
ghost use Rattle.boss_outside_server.specs.Hosts.{IsUntouched, served_of};
ghost use Rattle.boss_sessions.specs.Holding.{Holds, LeavesOthers};
ghost use Rattle.boss_worker.specs.declared.trouble.Trouble.TheVariants.{Disk};
ghost use Rattle.boss_worker.specs.Desks.{own_of};
ghost use Rattle.boss_worker.specs.Saying.{IsVisit};
ghost use Rattle.boss_worker.specs.Troubles.{course_by, ClockTrouble};

use crate::Trouble;
use crate::trouble::{session_trouble, watch_trouble};
use boss_keys::Keys;
use boss_model::SessionId;
use boss_outside::{Hears, Sink, name_bell};
use boss_outside_server::{Clock, Waiter};
use boss_points::Catalogue;
use boss_sessions::{SessionEnd, serve_connection};
use boss_shared::Desk;
use boss_watching::watch_connection;
use std::alloc::Global;

/// Serves a connection that was handed out, which watches a process where its first line asks for it, woken by the process's bell, and tells what of its end
/// concerns the server. The connection agrees with all that was done for it.
pub(crate) fn attend<G: Desk, S: Hears<K>, K: Sink, C: Clock, W: Waiter>(
    alloc: Global,
    desk: &G,
    pass: &mut G::Pass,
    catalogue: &Catalogue,
    keys: Option<&Keys>,
    session: SessionId,
    input: &mut S,
    output: &mut K,
    clock: &mut C,
    waiter: &mut W,
) -> Trouble
    requires own { G.owns desk.now pass.old }
    requires plant { actuators catalogue.now ≡ G.plant desk.now }
    requires some { 0 < session }
    requires unheld { Holds (G.denies desk.now) session None (G.held pass.old) }
    requires fresh { IsUntouched S.Source K.Sink input.old output.old }
    ensures own { G.owns desk.now pass.new }
    ensures parts { G.parts pass.new ≡ G.parts pass.old }
    ensures added { (moments : List ℕ) × (closed : Bool) × Added (actuators catalogue.now) (of_session session)
        (λ entries. S.tells → IsVisit catalogue.now (G.denies desk.now) (option_copied keys.entry) K.tells (served_of S.Source K.Sink session input.new output.new) (course_by moments result closed) entries)
        C.tells moments (own_of G.Desk pass.old) (own_of G.Desk pass.new) (C.given clock.old) (C.given clock.new)
        × (W.tells → HasClosed closed (W.waited waiter.old).closes (W.waited waiter.new).closes) }
    ensures others { LeavesOthers (G.denies desk.now) session (G.held pass.old) (G.held pass.new) }
    ensures waited { W.tells → PausedAround watch_pause (W.waited waiter.old) (W.waited waiter.new) }
    ensures clocked { ClockTrouble (C.faults clock.old) (C.faults clock.new) result }
    ensures broken { result ≡ Disk → is_broken (G.seen pass.new) ≡ true }
{
    match serve_connection(
        alloc, desk, pass, catalogue, keys, session, input, output, clock,
    ) {
        SessionEnd::Watch { name, from } => {
            waiter.listen(name_bell(&name));
            watch_trouble(watch_connection(
                alloc, desk, pass, catalogue, session, &name, from, output, clock, waiter,
            ))
        }
        end => session_trouble(&end),
    }
}
