ghost use Rattle.std.specs.Prelude.{◌≡◌, ◌<◌, ◌≤◌, [], List, true, option_copied};
ghost use Rattle.boss_model.specs.Catalogue.{actuators};
ghost use Rattle.boss_model.specs.Limits.{most_workers};
ghost use Rattle.boss_outside_server.specs.Pauses.{watch_pause};
ghost use Rattle.def_history.specs.History.{deeds};
ghost use Rattle.def_lanes.specs.Waits.{CountsClosed, PausedAround};
ghost use Rattle.def_lanes.specs.Works.{Work};
ghost use Rattle.boss_shared.specs.Gates.{AreFree};
ghost use Rattle.boss_worker.specs.Desks.{own_of};
ghost use Rattle.boss_worker.specs.Saying.{terms_of};
ghost use Rattle.boss_worker.specs.Visits.{IsFreshHost, Left};

use crate::visit::attend;
use crate::{Flags, Server, Trouble};
use boss_model::SessionId;
use boss_outside_server::{Accepted, Clock, Host, Waiter};
use boss_shared::Desk;
use std::alloc::Global;

/// Serves connections, one after another, until the part has handed out its share, an accept fails, or the disk has failed, and
/// gives each back when it has ended. The first has a session number one more than that of the worker, and each later one as many
/// more as there are workers for connections. Gives what went wrong, and how many it served.
pub(crate) fn attend_all<G: Desk, H: Host, C: Clock, W: Waiter>(
    alloc: Global,
    server: &Server<'_, G>,
    number: u32,
    pass: &mut G::Pass,
    host: &mut H,
    clock: &mut C,
    waiter: &mut W,
) -> (Flags, u32)
    requires own { G.owns server.now.desk pass.old }
    requires plant { actuators server.now.catalogue.now ≡ G.plant server.now.desk }
    requires empty { deeds (own_of G.Desk pass.old) ≡ [] }
    requires free { AreFree (G.denies server.now.desk) (G.held pass.old) }
    requires fresh { IsFreshHost H.Host host.old }
    requires quiet { C.faults clock.old ≡ 0 }
    requires number { number < server.now.workers }
    requires few { server.now.workers ≤ most_workers }
    ensures own { G.owns server.now.desk pass.new }
    ensures parts { G.parts pass.new ≡ G.parts pass.old }
    ensures share { H.share host.new ≡ H.share host.old }
    ensures left { (works : List Work) × Left true (terms_of server.now.catalogue.now (G.denies server.now.desk) (option_copied server.now.keys) server.now.workers H.In.tells H.Out.tells H.tells C.tells W.tells) number (H.share host.old) works
        (own_of G.Desk pass.new) (G.seen pass.new) (H.served host.old) (H.served host.new) (C.given clock.old) (C.given clock.new)
        (H.handed host.new) (H.faults host.new) (C.faults clock.new) result.0
        × (W.tells → CountsClosed works (W.waited waiter.new)) }
    ensures count { result.1 ≡ H.handed host.new }
    ensures waited { W.tells → PausedAround watch_pause (W.waited waiter.old) (W.waited waiter.new) }
{
    let mut flags = Flags::none();
    let mut next = 1 + u64::from(number);
    let mut count = 0;
    'connections: loop {
        match host.accept() {
            Accepted::Closed => return (flags, count),
            Accepted::Failed => return (flags.with_failed_host(), count),
            Accepted::Conn(mut input, mut output) => {
                let session = SessionId(next);
                let trouble = attend(
                    alloc,
                    &server.desk,
                    pass,
                    server.catalogue,
                    server.keys,
                    session,
                    &mut input,
                    &mut output,
                    clock,
                    waiter,
                );
                host.give_back(session, input, output);
                count += 1;
                flags = flags.after(trouble);
                if let Trouble::Disk = trouble {
                    return (flags, count);
                }
                next += u64::from(server.workers);
            }
        }
    }
}
