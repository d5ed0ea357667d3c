ghost use Rattle.std.specs.Prelude.{◌≡◌, ◌+◌, ◌≤◌, [], ◌∷◌, take, drop, vec_len, option_copied, IfOk, OnErr};
ghost use Rattle.boss_model.specs.Limits.{most_workers};
ghost use Rattle.boss_model.specs.Catalogue.{actuators};
ghost use Rattle.boss_gate.specs.Gates.{gate_of};
ghost use Rattle.boss_worker.specs.Desks.{own_of};
ghost use Rattle.boss_worker.specs.Saying.{terms_of};
ghost use Rattle.boss_server.specs.Accounts.{Account};
ghost use Rattle.boss_server.specs.Hosted.{hosted_at};
ghost use Rattle.boss_server.specs.Making.{GainsNoPause, StaysClock, StaysHost};
ghost use Rattle.boss_server.specs.References.{KeepsReferences};
ghost use Rattle.boss_server.specs.Sites.{gates_of};
ghost use Rattle.boss_server.specs.Together.{RoseWhere};

use crate::Outside;
use crate::serving::serve;
use boss_access::Rules;
use boss_gate::Gatekeeper;
use boss_model::NoMemory;
use boss_outside::Actuators;
use boss_outside_server::{Clock, Host, Spawner, Waiter};
use boss_shared::Desk;
use boss_worker::{Flags, Server};
use std::alloc::Global;

/// Serves at a desk that has no gates, behind one of its own where there are rules, as `serve` does. The pass comes back.
pub(crate) fn serve_behind<
    'a,
    G: Desk + Sync,
    H: Host + Send,
    C: Clock + Send,
    W: Waiter + Send,
    A: Actuators + Drop + Send,
    P: Spawner,
>(
    alloc: Global,
    server: Server<'a, &'a G>,
    rules: Option<Rules>,
    pass: G::Pass,
    outside: &mut Outside<'_, H, C, W, A, P>,
    connections: u32,
    drives: u16,
) -> (G::Pass, Result<(Flags, bool), NoMemory>)
where
    G::Pass: Send,
    H::In: Send,
    H::Out: Send,
    W::Bells: Send,
    requires own { G.owns server.desk.now pass }
    requires parts { server.workers + 2 + drives ≤ G.parts pass }
    requires empty { own_of G.Desk pass ≡ [] }
    requires plant { actuators server.catalogue.now ≡ G.plant server.desk.now }
    requires open { G.denies server.desk.now ≡ [] }
    requires sound { H.sound outside.old.host.now }
    requires some { 1 ≤ server.workers }
    requires few { server.workers ≤ most_workers }
    requires device { drives ≤ vec_len outside.old.devices.now }
    ensures references { KeepsReferences outside.old outside.new }
    ensures own { G.owns server.entry.desk.now result.0 }
    ensures parts { G.parts result.0 ≡ G.parts pass }
    ensures sound { H.sound outside.new.host.now }
    ensures listens { H.tells → H.listens outside.new.host.now ≡ H.listens outside.old.host.now }
    ensures account { IfOk result.1 (λ told. Account A.calls (λ device. A.tells × A.whole device)
        (terms_of server.entry.catalogue.now (gates_of server.entry.catalogue.now rules) (option_copied server.entry.keys) server.entry.workers H.In.tells H.Out.tells H.tells C.tells W.tells) W.tells
        (server.entry.workers + 1 + drives) connections (own_of G.Desk result.0) (G.seen result.0)
        (H.served outside.old.host.now) (H.served outside.new.host.now) (C.given outside.old.clock.now) (C.given outside.new.clock.now)
        (hosted_at H.Host outside.old.host.now) (hosted_at H.Host outside.new.host.now) (C.faults outside.old.clock.now) (C.faults outside.new.clock.now)
        (W.waits outside.old.waiter.now) (W.waits outside.new.waiter.now)
        (take drives outside.old.devices.now.items) (drop drives outside.old.devices.now.items) outside.new.devices.now.items told.0 told.1) }
    ensures started { IfOk result.1 (λ told. RoseWhere told.1 (P.faults outside.old.spawner.now) (P.faults outside.new.spawner.now)) }
    ensures nothing { OnErr result.1 (own_of G.Desk result.0 ≡ []) }
    ensures host { OnErr result.1 (StaysHost H.Host outside.old.host.now outside.new.host.now) }
    ensures clock { OnErr result.1 (StaysClock C.Clock outside.old.clock.now outside.new.clock.now) }
    ensures waiter { OnErr result.1 (GainsNoPause W.tells (W.waits outside.old.waiter.now) (W.waits outside.new.waiter.now)) }
    ensures devices { OnErr result.1 (outside.new.devices.now.items ≡ outside.old.devices.now.items) }
    ensures spawner { OnErr result.1 (outside.new.spawner.now ≡ outside.old.spawner.now) }
{
    match rules {
        None => serve_open(alloc, server, pass, outside, connections, drives),
        Some(rules) => serve_gated(alloc, server, rules, pass, outside, connections, drives),
    }
}

/// The same without rules.
fn serve_open<
    'a,
    G: Desk + Sync,
    H: Host + Send,
    C: Clock + Send,
    W: Waiter + Send,
    A: Actuators + Drop + Send,
    P: Spawner,
>(
    alloc: Global,
    server: Server<'a, &'a G>,
    pass: G::Pass,
    outside: &mut Outside<'_, H, C, W, A, P>,
    connections: u32,
    drives: u16,
) -> (G::Pass, Result<(Flags, bool), NoMemory>)
where
    G::Pass: Send,
    H::In: Send,
    H::Out: Send,
    W::Bells: Send,
    requires own { G.owns server.desk.now pass }
    requires parts { server.workers + 2 + drives ≤ G.parts pass }
    requires empty { own_of G.Desk pass ≡ [] }
    requires plant { actuators server.catalogue.now ≡ G.plant server.desk.now }
    requires open { G.denies server.desk.now ≡ [] }
    requires sound { H.sound outside.old.host.now }
    requires some { 1 ≤ server.workers }
    requires few { server.workers ≤ most_workers }
    requires device { drives ≤ vec_len outside.old.devices.now }
    ensures references { KeepsReferences outside.old outside.new }
    ensures own { G.owns server.entry.desk.now result.0 }
    ensures parts { G.parts result.0 ≡ G.parts pass }
    ensures sound { H.sound outside.new.host.now }
    ensures listens { H.tells → H.listens outside.new.host.now ≡ H.listens outside.old.host.now }
    ensures account { IfOk result.1 (λ told. Account A.calls (λ device. A.tells × A.whole device)
        (terms_of server.entry.catalogue.now [] (option_copied server.entry.keys) server.entry.workers H.In.tells H.Out.tells H.tells C.tells W.tells) W.tells
        (server.entry.workers + 1 + drives) connections (own_of G.Desk result.0) (G.seen result.0)
        (H.served outside.old.host.now) (H.served outside.new.host.now) (C.given outside.old.clock.now) (C.given outside.new.clock.now)
        (hosted_at H.Host outside.old.host.now) (hosted_at H.Host outside.new.host.now) (C.faults outside.old.clock.now) (C.faults outside.new.clock.now)
        (W.waits outside.old.waiter.now) (W.waits outside.new.waiter.now)
        (take drives outside.old.devices.now.items) (drop drives outside.old.devices.now.items) outside.new.devices.now.items told.0 told.1) }
    ensures started { IfOk result.1 (λ told. RoseWhere told.1 (P.faults outside.old.spawner.now) (P.faults outside.new.spawner.now)) }
    ensures nothing { OnErr result.1 (own_of G.Desk result.0 ≡ []) }
    ensures host { OnErr result.1 (StaysHost H.Host outside.old.host.now outside.new.host.now) }
    ensures clock { OnErr result.1 (StaysClock C.Clock outside.old.clock.now outside.new.clock.now) }
    ensures waiter { OnErr result.1 (GainsNoPause W.tells (W.waits outside.old.waiter.now) (W.waits outside.new.waiter.now)) }
    ensures devices { OnErr result.1 (outside.new.devices.now.items ≡ outside.old.devices.now.items) }
    ensures spawner { OnErr result.1 (outside.new.spawner.now ≡ outside.old.spawner.now) }
{
    let mut pass = pass;
    let told = serve(alloc, &server, &mut pass, outside, connections, drives);
    (pass, told)
}

/// The same behind the gate of these rules.
fn serve_gated<
    'a,
    G: Desk + Sync,
    H: Host + Send,
    C: Clock + Send,
    W: Waiter + Send,
    A: Actuators + Drop + Send,
    P: Spawner,
>(
    alloc: Global,
    server: Server<'a, &'a G>,
    rules: Rules,
    pass: G::Pass,
    outside: &mut Outside<'_, H, C, W, A, P>,
    connections: u32,
    drives: u16,
) -> (G::Pass, Result<(Flags, bool), NoMemory>)
where
    G::Pass: Send,
    H::In: Send,
    H::Out: Send,
    W::Bells: Send,
    requires own { G.owns server.desk.now pass }
    requires parts { server.workers + 2 + drives ≤ G.parts pass }
    requires empty { own_of G.Desk pass ≡ [] }
    requires plant { actuators server.catalogue.now ≡ G.plant server.desk.now }
    requires open { G.denies server.desk.now ≡ [] }
    requires sound { H.sound outside.old.host.now }
    requires some { 1 ≤ server.workers }
    requires few { server.workers ≤ most_workers }
    requires device { drives ≤ vec_len outside.old.devices.now }
    ensures references { KeepsReferences outside.old outside.new }
    ensures own { G.owns server.entry.desk.now result.0 }
    ensures parts { G.parts result.0 ≡ G.parts pass }
    ensures sound { H.sound outside.new.host.now }
    ensures listens { H.tells → H.listens outside.new.host.now ≡ H.listens outside.old.host.now }
    ensures account { IfOk result.1 (λ told. Account A.calls (λ device. A.tells × A.whole device)
        (terms_of server.entry.catalogue.now (gate_of rules server.entry.catalogue.now.points ∷ []) (option_copied server.entry.keys) server.entry.workers H.In.tells H.Out.tells H.tells C.tells W.tells) W.tells
        (server.entry.workers + 1 + drives) connections (own_of G.Desk result.0) (G.seen result.0)
        (H.served outside.old.host.now) (H.served outside.new.host.now) (C.given outside.old.clock.now) (C.given outside.new.clock.now)
        (hosted_at H.Host outside.old.host.now) (hosted_at H.Host outside.new.host.now) (C.faults outside.old.clock.now) (C.faults outside.new.clock.now)
        (W.waits outside.old.waiter.now) (W.waits outside.new.waiter.now)
        (take drives outside.old.devices.now.items) (drop drives outside.old.devices.now.items) outside.new.devices.now.items told.0 told.1) }
    ensures started { IfOk result.1 (λ told. RoseWhere told.1 (P.faults outside.old.spawner.now) (P.faults outside.new.spawner.now)) }
    ensures nothing { OnErr result.1 (own_of G.Desk result.0 ≡ []) }
    ensures host { OnErr result.1 (StaysHost H.Host outside.old.host.now outside.new.host.now) }
    ensures clock { OnErr result.1 (StaysClock C.Clock outside.old.clock.now outside.new.clock.now) }
    ensures waiter { OnErr result.1 (GainsNoPause W.tells (W.waits outside.old.waiter.now) (W.waits outside.new.waiter.now)) }
    ensures devices { OnErr result.1 (outside.new.devices.now.items ≡ outside.old.devices.now.items) }
    ensures spawner { OnErr result.1 (outside.new.spawner.now ≡ outside.old.spawner.now) }
{
    let Server {
        desk,
        catalogue,
        keys,
        workers,
    } = server;
    let gate = Gatekeeper::new(rules, catalogue, desk);
    let mut admitted = gate.admit(pass);
    let server = Server {
        desk: gate,
        catalogue,
        keys,
        workers,
    };
    let told = serve(alloc, &server, &mut admitted, outside, connections, drives);
    let Server { desk, .. } = server;
    desk.close();
    (admitted.inner(), told)
}
