ghost use Rattle.std.specs.Prelude.{◌≡◌, ◌+◌, ◌≤◌, [], length, take, drop, vec_len, IfOk, OnErr, option_copied};
ghost use Rattle.boss_model.specs.Limits.{most_workers};
ghost use Rattle.boss_model.specs.Catalogue.{actuators};
ghost use Rattle.boss_worker.specs.Desks.{own_of};
ghost use Rattle.boss_worker.specs.Saying.{terms_of};
ghost use Rattle.boss_server.specs.Accounts.{Account};
ghost use Rattle.boss_server.specs.Hosted.{hosted_at};
ghost use Rattle.boss_server.specs.Making.{GainsNoPause, StaysClock, StaysHost};
ghost use Rattle.boss_server.specs.References.{KeepsReferences};
ghost use Rattle.boss_server.specs.Together.{RoseWhere};

use crate::Outside;
use crate::making::make_all;
use crate::returning::return_all;
use crate::running::run_and_join;
use boss_model::NoMemory;
use boss_outside::Actuators;
use boss_outside_server::{Clock, Host, Spawner, Waiter};
use boss_shared::Desk;
use boss_worker::{Flags, Server, Worker};
use std::alloc::Global;

/// Makes the workers of a server, runs them, and takes their parts back. The first so many of the devices are driven, each by the
/// worker of its driver, and are then back in their places. Gives what went wrong at the workers, and whether one of them was not
/// started. Without memory for it none has run, and all is as it was.
pub fn serve<
    G: Desk + Sync,
    H: Host + Send,
    C: Clock + Send,
    W: Waiter + Send,
    A: Actuators + Drop + Send,
    P: Spawner,
>(
    alloc: Global,
    server: &Server<'_, G>,
    pass: &mut G::Pass,
    outside: &mut Outside<'_, H, C, W, A, P>,
    connections: u32,
    drives: u16,
) -> Result<(Flags, bool), NoMemory>
where
    G::Pass: Send,
    H::In: Send,
    H::Out: Send,
    W::Bells: Send,
    requires own { G.owns server.now.desk pass.old }
    requires parts { server.now.workers + 2 + drives ≤ G.parts pass.old }
    requires empty { own_of G.Desk pass.old ≡ [] }
    requires plant { actuators server.now.catalogue.now ≡ G.plant server.now.desk }
    requires sound { H.sound outside.old.host.now }
    requires some { 1 ≤ server.now.workers }
    requires few { server.now.workers ≤ most_workers }
    requires device { drives ≤ vec_len outside.old.devices.now }
    ensures references { KeepsReferences outside.old outside.new }
    ensures own { G.owns server.now.desk pass.new }
    ensures parts { G.parts pass.new ≡ G.parts pass.old }
    ensures sound { H.sound outside.new.host.now }
    ensures listens { H.tells → H.listens outside.new.host.now ≡ H.listens outside.old.host.now }
    ensures account { IfOk result (λ told. Account A.calls (λ device. A.tells × A.whole device)
        (terms_of server.now.catalogue.now (G.denies server.now.desk) (option_copied server.now.keys) server.now.workers H.In.tells H.Out.tells H.tells C.tells W.tells) W.tells
        (server.now.workers + 1 + drives) connections (own_of G.Desk pass.new) (G.seen pass.new)
        (H.served outside.old.host.now) (H.served outside.new.host.now) (C.given outside.old.clock.now) (C.given outside.new.clock.now)
        (hosted_at H.Host outside.old.host.now) (hosted_at H.Host outside.new.host.now) (C.faults outside.old.clock.now) (C.faults outside.new.clock.now)
        (W.waits outside.old.waiter.now) (W.waits outside.new.waiter.now)
        (take drives outside.old.devices.now.items) (drop drives outside.old.devices.now.items) outside.new.devices.now.items told.0 told.1) }
    ensures started { IfOk result (λ told. RoseWhere told.1 (P.faults outside.old.spawner.now) (P.faults outside.new.spawner.now)) }
    ensures nothing { OnErr result (own_of G.Desk pass.new ≡ []) }
    ensures host { OnErr result (StaysHost H.Host outside.old.host.now outside.new.host.now) }
    ensures clock { OnErr result (StaysClock C.Clock outside.old.clock.now outside.new.clock.now) }
    ensures waiter { OnErr result (GainsNoPause W.tells (W.waits outside.old.waiter.now) (W.waits outside.new.waiter.now)) }
    ensures devices { OnErr result (outside.new.devices.now.items ≡ outside.old.devices.now.items) }
    ensures spawner { OnErr result (outside.new.spawner.now ≡ outside.old.spawner.now) }
{
    let mut made: Vec<Worker<'_, G, H, C, W, A>> = Vec::new(alloc);
    if made
        .reserve(server.workers as usize + 1 + usize::from(drives))
        .is_err()
    {
        return Err(NoMemory);
    }
    outside.waiter.expect(server.workers);
    if make_all(alloc, server, pass, outside, connections, drives, &mut made).is_err() {
        return_all(server, pass, outside, made);
        return Err(NoMemory);
    }
    match run_and_join(alloc, server, pass, outside, made) {
        Ok(told) => Ok(told),
        Err(made) => {
            return_all(server, pass, outside, made);
            Err(NoMemory)
        }
    }
}
