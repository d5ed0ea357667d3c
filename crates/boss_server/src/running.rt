ghost use Rattle.std.specs.Prelude.{◌≡◌, ◌+◌, ◌≤◌, [], length, vec_len, vec_capacity, IfOk, IfErr, option_copied};
ghost use Rattle.boss_worker.specs.Desks.{own_of};
ghost use Rattle.boss_worker.specs.Saying.{terms_of};
ghost use Rattle.boss_worker.specs.Workers.{share_at, was_at, IsReady};
ghost use Rattle.boss_server.specs.Accounts.{Account};
ghost use Rattle.boss_server.specs.Hosted.{hosted_at};
ghost use Rattle.boss_server.specs.References.{KeepsReferences};
ghost use Rattle.boss_server.specs.Together.{RoseWhere};
ghost use Rattle.boss_server.specs.Turns.{devices_of, shares_of, AllInTurn};

use crate::Outside;
use crate::joining::join_all;
use boss_outside::Actuators;
use boss_outside_server::{Clock, Host, Spawner, Waiter};
use boss_shared::Desk;
use boss_worker::{Flags, Server, Worker};
use std::alloc::Global;

/// Runs all workers, and takes their parts back when those that were started have ended. Gives what went wrong at them, and whether
/// one of them was not started. Where there is no memory to run them none was started, and all are given back as they were.
pub(crate) fn run_and_join<
    'a,
    G: Desk + Sync,
    H: Host + Send,
    C: Clock + Send,
    W: Waiter + Send,
    A: Actuators + Drop + Send,
    P: Spawner,
>(
    alloc: Global,
    server: &Server<'_, G>,
    pass: &mut G::Pass,
    outside: &mut Outside<'_, H, C, W, A, P>,
    workers: Vec<Worker<'a, G, H, C, W, A>>,
) -> Result<(Flags, bool), Vec<Worker<'a, G, H, C, W, A>>>
where
    G::Pass: Send,
    H::In: Send,
    H::Out: Send,
    W::Bells: Send,
    requires own { G.owns server.now.desk pass.old }
    requires empty { own_of G.Desk pass.old ≡ [] }
    requires sound { H.sound outside.old.host.now }
    requires ready { AllInTurn workers.items 0 (λ number worker. (worker.server.now ≡ server.now) × (worker.number ≡ number)
        × IsReady G.Desk H.Host C.Clock W.Waiter A.Actuators server.now.catalogue.now server.now.desk server.now.workers
        number worker.pass worker.duty worker.clock worker.waiter worker.flags) }
    requires room { vec_len outside.old.devices.now + length (devices_of workers.items (λ worker. was_at worker.duty)) ≤ vec_capacity outside.old.devices.now }
    ensures references { KeepsReferences outside.old outside.new }
    ensures own { G.owns server.now.desk pass.new }
    ensures sound { H.sound outside.new.host.now }
    ensures listens { H.tells → H.listens outside.new.host.now ≡ H.listens outside.old.host.now }
    ensures parts { IfOk result (λ told. G.parts pass.new ≡ G.parts pass.old + length workers.entry.items) }
    ensures account { IfOk result (λ told. Account A.calls (λ device. A.tells × A.whole device)
        (terms_of server.now.catalogue.now (G.denies server.now.desk) (option_copied server.now.keys) server.now.workers H.In.tells H.Out.tells H.tells C.tells W.tells) W.tells
        (length workers.entry.items) (shares_of workers.entry.items (λ worker. share_at H.Host worker.duty)) (own_of G.Desk pass.new) (G.seen pass.new)
        (H.served outside.old.host.now) (H.served outside.new.host.now) (C.given outside.old.clock.now) (C.given outside.new.clock.now)
        (hosted_at H.Host outside.old.host.now) (hosted_at H.Host outside.new.host.now) (C.faults outside.old.clock.now) (C.faults outside.new.clock.now)
        (W.waits outside.old.waiter.now) (W.waits outside.new.waiter.now)
        (devices_of workers.entry.items (λ worker. was_at worker.duty)) outside.old.devices.now.items outside.new.devices.now.items told.0 told.1) }
    ensures started { IfOk result (λ told. RoseWhere told.1 (P.faults outside.old.spawner.now) (P.faults outside.new.spawner.now)) }
    ensures refused { IfErr result (λ left. (left.items ≡ workers.entry.items) × (pass.new ≡ pass.old)
        × (outside.new.host.now ≡ outside.old.host.now) × (outside.new.clock.now ≡ outside.old.clock.now)
        × (outside.new.waiter.now ≡ outside.old.waiter.now) × (outside.new.devices.now ≡ outside.old.devices.now)
        × (outside.new.spawner.now ≡ outside.old.spawner.now)) }
{
    match outside.spawner.run_all(alloc, workers) {
        Ok(done) => Ok(join_all(server, pass, outside, done)),
        Err((workers, _)) => Err(workers),
    }
}
