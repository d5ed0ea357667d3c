ghost use Rattle.std.specs.Prelude.{◌≡◌, ◌≢◌, ◌+◌, ◌%◌, ◌^◌, false, List, IfErr, IfOk};
ghost use Rattle.boss_changing.specs.Adoptions.{AdoptCause, HasStopped, MayAdopt, Refuses, adopted_of, is_stopped, left};
ghost use Rattle.boss_changing.specs.declared.fault.AdoptFault.TheVariants as fault;
ghost use Rattle.boss_disk_pair.specs.Causes.{counts_of, first_disk, second_disk};
ghost use Rattle.boss_disk_pair.specs.Images.{OpensEither};
ghost use Rattle.boss_durable.specs.Words.{changes, keeps, lasting, leaves};
ghost use Rattle.boss_model.specs.Catalogue.{actuators};
ghost use Rattle.boss_model.specs.declared.event.Event.{Event};
ghost use Rattle.boss_model.specs.Settle.{opened};
ghost use Rattle.boss_model.specs.Sound.{IsSound};
ghost use Rattle.boss_opening.specs.Opens.{digest_of};

use crate::AdoptFault;
use crate::preparing::{Prepared, prepare};
use boss_disk::Disk;
use boss_durable::Durable;
use boss_outside::Failed;
use boss_points::Catalogue;
use std::alloc::Global;

/// Adopts a changed catalogue: what lasts under the old one is taken over by the new one, as the next generation on the disks, and
/// the value goes on with an engine of the new one. The number of events goes on. All points are open then: nobody is attached,
/// and every point wants its target.
///
/// The value goes by the old catalogue: it was opened with it, or has adopted it since. Where nothing is adopted it comes back,
/// and all is as it was unless a disk failed in this call. Then it is stopped, and its disks open with the old catalogue to the
/// state of before, or with the new one to the adopted state; so does whatever a crash leaves meanwhile.
pub fn adopt<D: Disk>(
    alloc: Global,
    durable: Durable<D>,
    old: &Catalogue,
    new: &Catalogue,
) -> Result<Durable<D>, (Durable<D>, AdoptFault)>
    requires plant { durable.engine.plant ≡ actuators old.now }
    requires digest { durable.disks.digest ≡ digest_of old.now }
    ensures may { IfOk result (λ _. MayAdopt old.now new.now (lasting durable)) }
    ensures refuses { IfErr result (λ told. Refuses old.now new.now (lasting durable) told.1) }
    ensures unchanged { IfErr result (λ told. told.1 ≢ fault.DiskFault → told.0 ≡ durable) }
    ensures stopped { is_stopped result ≡ durable.disks.stopped }
    // A fault is told exactly where a disk failed in this call.
    ensures cause { AdoptCause (counts_of durable.disks) (counts_of (left result).disks) result }
    ensures stops { IfErr result (λ told. told.1 ≡ fault.DiskFault → HasStopped durable told.0) }
    ensures plant { IfOk result (λ now. now.engine.plant ≡ actuators new.now) }
    ensures state { IfOk result (λ now. now.engine.state ≡ opened (actuators new.now) (adopted_of old.now new.now durable)) }
    ensures sound { IfOk result (λ now. IsSound now.engine.plant now.engine.state) }
    ensures digest { IfOk result (λ now. now.disks.digest ≡ digest_of new.now) }
    ensures going { IfOk result (λ now. now.disks.stopped ≡ false) }
    ensures keeps { (before : List Event) → keeps durable before → IfOk result (λ now. keeps now before) }
    ensures leaves { (before : List Event) → keeps durable before → IfOk result (λ now. leaves now (lasting now) (lasting now)) }
    // Each image on the way, and what the disks hold in the end.
    ensures images { (before : List Event) → keeps durable before
        → changes durable (left result) (actuators new.now) (digest_of new.now) (adopted_of old.now new.now durable) }
    ensures holds { D.tells → (before : List Event) → keeps durable before
        → OpensEither (actuators old.now) (digest_of old.now) (lasting durable) (actuators new.now) (digest_of new.now) (adopted_of old.now new.now durable)
        (D.reads (first_disk (left result).disks)) (D.reads (second_disk (left result).disks)) }
    ensures generation { IfOk result (λ now. now.disks.generation ≡ (durable.disks.generation + 1) % 2 ^ 64) }
    ensures events { (left result).disks.events ≡ durable.disks.events }
    ensures limit { (left result).log_limit ≡ durable.log_limit }
{
    let mut durable = durable;
    if durable.stopped() {
        return Err((durable, AdoptFault::Stopped));
    }
    match prepare(alloc, &durable, old, new) {
        Ok(Prepared { engine, kept }) => match durable.change(engine, &kept, &new.digest()) {
            Ok(()) => Ok(durable),
            Err(Failed) => Err((durable, AdoptFault::DiskFault)),
        },
        Err(refusal) => Err((durable, AdoptFault::from(refusal))),
    }
}
