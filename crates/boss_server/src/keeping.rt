ghost use Rattle.std.specs.Prelude.{◌≡◌, ◌+◌, ◌≤◌, List, [], false, length, take, drop, option_copied, IfOk, OnErr};
ghost use Rattle.boss_model.specs.Limits.{most_drivers, most_workers};
ghost use Rattle.boss_model.specs.declared.event.Event.{Event};
ghost use Rattle.boss_model.specs.Catalogue.{actuators};
ghost use Rattle.boss_model.specs.Sound.{IsSound};
ghost use Rattle.boss_shared.specs.Keeping.{IsHeld};
ghost use Rattle.boss_worker.specs.Saying.{terms_of};
ghost use Rattle.boss_server.specs.Hosted.{hosted_at};
ghost use Rattle.boss_server.specs.Kept.{Ran, drives_of};
ghost use Rattle.boss_server.specs.Making.{GainsNoPause, StaysClock, StaysHost};
ghost use Rattle.boss_server.specs.References.{KeepsReferences};
ghost use Rattle.boss_server.specs.Sites.{gates_of};
ghost use Rattle.boss_server.specs.Together.{RoseWhere};

use crate::gating::serve_behind;
use crate::{Outside, Site};
use boss_access::Rules;
use boss_keys::Keys;
use boss_model::NoMemory;
use boss_outside::Actuators;
use boss_outside_server::{Clock, Host, Spawner, Waiter};
use boss_points::Catalogue;
use boss_shared::{Keeper, Manager};
use boss_worker::{Flags, Server};
use std::alloc::Global;
use std::sync::Wait;

/// What went wrong while a server ran.
#[derive(Clone, Copy, Debug, PartialEq, Eq)]
pub struct Ended {
    /// At its workers; and whether the disk has failed.
    pub flags: Flags,
    /// Whether one of them was not started.
    pub unstarted: bool,
}

/// How many drivers have a device.
fn drives_for<A>(catalogue: &Catalogue, devices: &Vec<A>) -> u16
    ensures drives { result ≡ drives_of catalogue.now devices.now.items }
    ensures few { result ≤ most_drivers }
{
    devices.len().min(usize::from(catalogue.drivers())) as u16
}

/// A server at this desk, for as long as all that it borrows is there.
fn server_at<'a, G>(
    desk: &'a G,
    catalogue: &'a Catalogue,
    keys: Option<&'a Keys>,
    workers: u32,
) -> Server<'a, &'a G>
    ensures desk { result.desk.now ≡ desk.now }
    ensures catalogue { result.catalogue.now ≡ catalogue.now }
    ensures keys { option_copied result.keys ≡ option_copied keys.entry }
    ensures workers { result.workers ≡ workers }
{
    Server {
        desk,
        catalogue,
        keys,
        workers,
    }
}

/// Serves so many connections over a keeper whose disk never failed, by so many workers, 1 to 1,024 of them, lets time pass, and drives
/// the devices, of which each is that of the driver with its place as number; then gives the keeper back. Where there are rules they
/// judge each submit, and where there are keys lines are read by them. It then stands for one history from the keeper as it was handed
/// over, which is all that the workers did.
///
/// NoMemory: none of the workers has run, and the keeper stands for an empty history. All devices are in their places, as they were.
pub fn serve_keeper<
    K: Keeper + Send,
    R: Wait + Sync + Drop,
    H: Host + Send,
    C: Clock + Send,
    W: Waiter + Send,
    A: Actuators + Drop + Send,
    P: Spawner,
>(
    rt: R,
    alloc: Global,
    keeper: K,
    site: Site<'_>,
    outside: &mut Outside<'_, H, C, W, A, P>,
    workers: u32,
    connections: u32,
) -> (K, Result<Ended, NoMemory>)
where
    H::In: Send,
    H::Out: Send,
    W::Bells: Send,
    requires running { K.stopped keeper ≡ false }
    requires kept { IsSound (K.plant keeper) (K.state keeper) }
    requires images { K.leaves keeper (K.state keeper).persistent (K.state keeper).persistent }
    requires events { (before : List Event) × K.keeps keeper before }
    requires plant { actuators site.catalogue.now ≡ K.plant keeper }
    requires sound { H.sound outside.old.host.now }
    requires some { 1 ≤ workers }
    requires few { workers ≤ most_workers }
    ensures references { KeepsReferences outside.old outside.new }
    ensures sound { H.sound outside.new.host.now }
    ensures listens { H.tells → H.listens outside.new.host.now ≡ H.listens outside.old.host.now }
    ensures under { K.under result.0 ≡ K.under keeper }
    ensures ran { IfOk result.1 (λ ended. Ran K.Keeper A.calls (λ device. A.tells × A.whole device)
        (terms_of site.entry.catalogue.now (gates_of site.entry.catalogue.now site.entry.rules) site.entry.keys workers H.In.tells H.Out.tells H.tells C.tells W.tells) W.tells
        (workers + 1 + drives_of site.entry.catalogue.now outside.old.devices.now.items) connections keeper result.0
        (H.served outside.old.host.now) (H.served outside.new.host.now) (C.given outside.old.clock.now) (C.given outside.new.clock.now)
        (hosted_at H.Host outside.old.host.now) (hosted_at H.Host outside.new.host.now) (C.faults outside.old.clock.now) (C.faults outside.new.clock.now)
        (W.waits outside.old.waiter.now) (W.waits outside.new.waiter.now)
        (take (drives_of site.entry.catalogue.now outside.old.devices.now.items) outside.old.devices.now.items)
        (drop (drives_of site.entry.catalogue.now outside.old.devices.now.items) outside.old.devices.now.items)
        outside.new.devices.now.items ended.flags ended.unstarted) }
    ensures started { IfOk result.1 (λ ended. RoseWhere ended.unstarted (P.faults outside.old.spawner.now) (P.faults outside.new.spawner.now)) }
    ensures nothing { OnErr result.1 (IsHeld K.plant K.state K.stopped K.faults K.leaves K.passes K.keeps keeper result.0 []) }
    ensures host { OnErr result.1 (StaysHost H.Host outside.old.host.now outside.new.host.now) }
    ensures clock { OnErr result.1 (StaysClock C.Clock outside.old.clock.now outside.new.clock.now) }
    ensures waiter { OnErr result.1 (GainsNoPause W.tells (W.waits outside.old.waiter.now) (W.waits outside.new.waiter.now)) }
    ensures devices { OnErr result.1 (outside.new.devices.now.items ≡ outside.old.devices.now.items) }
    ensures spawner { OnErr result.1 (outside.new.spawner.now ≡ outside.old.spawner.now) }
{
    let Site {
        catalogue,
        rules,
        keys,
        reserve: _,
    } = site;
    serve_by(
        rt,
        alloc,
        keeper,
        catalogue,
        rules,
        keys.as_ref(),
        outside,
        workers,
        connections,
    )
}

/// The same of a site whose keys are borrowed.
fn serve_by<
    'k,
    K: Keeper + Send,
    R: Wait + Sync + Drop,
    H: Host + Send,
    C: Clock + Send,
    W: Waiter + Send,
    A: Actuators + Drop + Send,
    P: Spawner,
>(
    rt: R,
    alloc: Global,
    keeper: K,
    catalogue: &'k Catalogue,
    rules: Option<Rules>,
    keys: Option<&'k Keys>,
    outside: &mut Outside<'_, H, C, W, A, P>,
    workers: u32,
    connections: u32,
) -> (K, Result<Ended, NoMemory>)
where
    H::In: Send,
    H::Out: Send,
    W::Bells: Send,
    requires running { K.stopped keeper ≡ false }
    requires kept { IsSound (K.plant keeper) (K.state keeper) }
    requires images { K.leaves keeper (K.state keeper).persistent (K.state keeper).persistent }
    requires events { (before : List Event) × K.keeps keeper before }
    requires plant { actuators catalogue.now ≡ K.plant keeper }
    requires sound { H.sound outside.old.host.now }
    requires some { 1 ≤ workers }
    requires few { workers ≤ most_workers }
    ensures references { KeepsReferences outside.old outside.new }
    ensures sound { H.sound outside.new.host.now }
    ensures listens { H.tells → H.listens outside.new.host.now ≡ H.listens outside.old.host.now }
    ensures under { K.under result.0 ≡ K.under keeper }
    ensures ran { IfOk result.1 (λ ended. Ran K.Keeper A.calls (λ device. A.tells × A.whole device)
        (terms_of catalogue.now (gates_of catalogue.now rules) (option_copied keys.entry) workers H.In.tells H.Out.tells H.tells C.tells W.tells) W.tells
        (workers + 1 + drives_of catalogue.now outside.old.devices.now.items) connections keeper result.0
        (H.served outside.old.host.now) (H.served outside.new.host.now) (C.given outside.old.clock.now) (C.given outside.new.clock.now)
        (hosted_at H.Host outside.old.host.now) (hosted_at H.Host outside.new.host.now) (C.faults outside.old.clock.now) (C.faults outside.new.clock.now)
        (W.waits outside.old.waiter.now) (W.waits outside.new.waiter.now)
        (take (drives_of catalogue.now outside.old.devices.now.items) outside.old.devices.now.items)
        (drop (drives_of catalogue.now outside.old.devices.now.items) outside.old.devices.now.items)
        outside.new.devices.now.items ended.flags ended.unstarted) }
    ensures started { IfOk result.1 (λ ended. RoseWhere ended.unstarted (P.faults outside.old.spawner.now) (P.faults outside.new.spawner.now)) }
    ensures nothing { OnErr result.1 (IsHeld K.plant K.state K.stopped K.faults K.leaves K.passes K.keeps keeper result.0 []) }
    ensures host { OnErr result.1 (StaysHost H.Host outside.old.host.now outside.new.host.now) }
    ensures clock { OnErr result.1 (StaysClock C.Clock outside.old.clock.now outside.new.clock.now) }
    ensures waiter { OnErr result.1 (GainsNoPause W.tells (W.waits outside.old.waiter.now) (W.waits outside.new.waiter.now)) }
    ensures devices { OnErr result.1 (outside.new.devices.now.items ≡ outside.old.devices.now.items) }
    ensures spawner { OnErr result.1 (outside.new.spawner.now ≡ outside.old.spawner.now) }
{
    let drives = drives_for(catalogue, outside.devices);
    let (desk, pass) = match Manager::new(rt, alloc, keeper, workers + 2 + u32::from(drives)) {
        Ok(made) => made,
        Err((keeper, none)) => return (keeper, Err(none)),
    };
    let server = server_at(&desk, catalogue, keys, workers);
    let (pass, told) = serve_behind(alloc, server, rules, pass, outside, connections, drives);
    let keeper = desk.close(pass);
    match told {
        Ok((flags, unstarted)) => {
            let flags = Flags {
                disk: keeper.has_stopped(),
                ..flags
            };
            (keeper, Ok(Ended { flags, unstarted }))
        }
        Err(none) => (keeper, Err(none)),
    }
}
