ghost use Rattle.std.specs.Prelude.{◌≡◌, ◌+◌, ◌≤◌, List, [], false, length, take, drop, IfOk, OnErr};
ghost use Rattle.boss_model.specs.Limits.{most_workers};
ghost use Rattle.boss_model.specs.declared.event.Event.{Event};
ghost use Rattle.boss_model.specs.Catalogue.{actuators};
ghost use Rattle.boss_model.specs.Sound.{IsSound};
ghost use Rattle.boss_shared.specs.Keeping.{IsHeld};
ghost use Rattle.boss_worker.specs.Saying.{terms_of};
ghost use Rattle.boss_server.specs.Hosted.{hosted_at};
ghost use Rattle.boss_server.specs.Kept.{Ran, drives_of};
ghost use Rattle.boss_server.specs.Making.{GainsNoPause, StaysClock, StaysHost};
ghost use Rattle.boss_server.specs.References.{KeepsReferences};
ghost use Rattle.boss_server.specs.Sites.{gates_of};
ghost use Rattle.boss_server.specs.Together.{RoseWhere};

use crate::keeping::{Ended, serve_keeper};
use crate::{Outside, Site};
use boss_model::NoMemory;
use boss_outside::Actuators;
use boss_outside_server::{Clock, Host, Spawner, Waiter};
use boss_ringing::Ringing;
use boss_shared::Keeper;
use std::alloc::Global;
use std::sync::Wait;

/// Serves so many connections over a keeper, as `serve_keeper` does, which has the same contract. Behind each call the keeper rings the
/// bells at which workers listen.
///
/// NoMemory: none of the workers has run, and the keeper stands for an empty history. All devices are in their places, as they were.
pub fn serve_ringing<
    V: Keeper + Send,
    R: Wait + Sync + Drop,
    H: Host + Send,
    C: Clock + Send,
    W: Waiter + Send,
    A: Actuators + Drop + Send,
    P: Spawner,
>(
    rt: R,
    alloc: Global,
    keeper: V,
    site: Site<'_>,
    outside: &mut Outside<'_, H, C, W, A, P>,
    workers: u32,
    connections: u32,
) -> (V, Result<Ended, NoMemory>)
where
    H::In: Send,
    H::Out: Send,
    W::Bells: Send,
    requires running { V.stopped keeper ≡ false }
    requires kept { IsSound (V.plant keeper) (V.state keeper) }
    requires images { V.leaves keeper (V.state keeper).persistent (V.state keeper).persistent }
    requires events { (before : List Event) × V.keeps keeper before }
    requires plant { actuators site.catalogue.now ≡ V.plant keeper }
    requires sound { H.sound outside.old.host.now }
    requires some { 1 ≤ workers }
    requires few { workers ≤ most_workers }
    ensures references { KeepsReferences outside.old outside.new }
    ensures sound { H.sound outside.new.host.now }
    ensures listens { H.tells → H.listens outside.new.host.now ≡ H.listens outside.old.host.now }
    ensures under { V.under result.0 ≡ V.under keeper }
    ensures ran { IfOk result.1 (λ ended. Ran V.Keeper A.calls (λ device. A.tells × A.whole device)
        (terms_of site.entry.catalogue.now (gates_of site.entry.catalogue.now site.entry.rules) site.entry.keys workers H.In.tells H.Out.tells H.tells C.tells W.tells) W.tells
        (workers + 1 + drives_of site.entry.catalogue.now outside.old.devices.now.items) connections keeper result.0
        (H.served outside.old.host.now) (H.served outside.new.host.now) (C.given outside.old.clock.now) (C.given outside.new.clock.now)
        (hosted_at H.Host outside.old.host.now) (hosted_at H.Host outside.new.host.now) (C.faults outside.old.clock.now) (C.faults outside.new.clock.now)
        (W.waits outside.old.waiter.now) (W.waits outside.new.waiter.now)
        (take (drives_of site.entry.catalogue.now outside.old.devices.now.items) outside.old.devices.now.items)
        (drop (drives_of site.entry.catalogue.now outside.old.devices.now.items) outside.old.devices.now.items)
        outside.new.devices.now.items ended.flags ended.unstarted) }
    ensures started { IfOk result.1 (λ ended. RoseWhere ended.unstarted (P.faults outside.old.spawner.now) (P.faults outside.new.spawner.now)) }
    ensures nothing { OnErr result.1 (IsHeld V.plant V.state V.stopped V.faults V.leaves V.passes V.keeps keeper result.0 []) }
    ensures host { OnErr result.1 (StaysHost H.Host outside.old.host.now outside.new.host.now) }
    ensures clock { OnErr result.1 (StaysClock C.Clock outside.old.clock.now outside.new.clock.now) }
    ensures waiter { OnErr result.1 (GainsNoPause W.tells (W.waits outside.old.waiter.now) (W.waits outside.new.waiter.now)) }
    ensures devices { OnErr result.1 (outside.new.devices.now.items ≡ outside.old.devices.now.items) }
    ensures spawner { OnErr result.1 (outside.new.spawner.now ≡ outside.old.spawner.now) }
{
    match outside.waiter.ringer(alloc) {
        Err(none) => (keeper, Err(none)),
        Ok(ringer) => {
            let ringing = Ringing::new(keeper, ringer, site.catalogue.drivers());
            let (ringing, ended) = serve_keeper(
                rt,
                alloc,
                ringing,
                site,
                outside,
                workers,
                connections,
            );
            match ended {
                Ok(ended) => (ringing.keeper, Ok(ended)),
                Err(none) => (ringing.keeper, Err(none)),
            }
        }
    }
}
