ghost use Rattle.std.specs.Prelude.{◌≡◌, Err, IfErr, IfOk};
ghost use Rattle.boss_adopting.specs.Adopts.{Adopts};
ghost use Rattle.boss_adopting.specs.declared.refusal.AdoptRefusal.TheVariants as refusal;
ghost use Rattle.boss_changing.specs.Adoptions.{IsPrepared, IsRestored};
ghost use Rattle.boss_durable.specs.Words.{lasting};
ghost use Rattle.boss_model.specs.Catalogue.{actuators};
ghost use Rattle.boss_model.specs.Seen.{seen};
ghost use Rattle.boss_model.specs.Sound.{IsSoundPersistent};

use boss_adopting::{AdoptRefusal, adopt_state};
use boss_disk::Disk;
use boss_durable::Durable;
use boss_engine::{Engine, RestoreRefusal};
use boss_model::{Kept, NoMemory};
use boss_points::Catalogue;
use std::alloc::Global;

/// An engine of the new catalogue in the adopted state, and what lasts of it, as plain lists.
#[derive(Drop)]
pub struct Prepared {
    pub engine: Engine,
    pub kept: Kept,
}

/// What lasts of a value that goes by the old catalogue, adopted. All memory is taken here, before a disk is called.
pub fn prepare<D: Disk>(
    alloc: Global,
    durable: &Durable<D>,
    old: &Catalogue,
    new: &Catalogue,
) -> Result<Prepared, AdoptRefusal>
    requires { durable.now.engine.plant ≡ actuators old.now }
    ensures prepared { IfOk result (IsPrepared old.now new.now (lasting durable.now)) }
    ensures refuses { IfErr result (λ why. Adopts old.now new.now (lasting durable.now) (Err why)) }
{
    match durable.keep() {
        Ok(kept) => adopt_kept(alloc, &kept, old, new),
        Err(NoMemory) => Err(AdoptRefusal::NoMemory),
    }
}

/// The same of what lasts as plain lists.
fn adopt_kept(
    alloc: Global,
    kept: &Kept,
    old: &Catalogue,
    new: &Catalogue,
) -> Result<Prepared, AdoptRefusal>
    requires { IsSoundPersistent (actuators old.now) (seen kept.now) }
    ensures prepared { IfOk result (IsPrepared old.now new.now (seen kept.entry.now)) }
    ensures refuses { IfErr result (λ why. Adopts old.now new.now (seen kept.entry.now) (Err why)) }
{
    // The names of its points are all different, so that no two are taken for one.
    old.count();
    match adopt_state(alloc, old, new, kept) {
        Ok(adopted) => restore(alloc, new, adopted),
        Err(refusal) => Err(refusal),
    }
}

/// An engine in this state, beside the state.
fn restore(alloc: Global, new: &Catalogue, kept: Kept) -> Result<Prepared, AdoptRefusal>
    requires { IsSoundPersistent (actuators new.now) (seen kept) }
    ensures restored { IfOk result (IsRestored new.now (seen kept)) }
    ensures refuses { IfErr result (λ why. why ≡ refusal.NoMemory) }
{
    // Its points are a plant, so that what is sound has a spelling.
    new.count();
    match Engine::restore(alloc, new, &kept) {
        Ok(engine) => Ok(Prepared { engine, kept }),
        Err(RestoreRefusal::NoMemory) => Err(AdoptRefusal::NoMemory),
        Err(RestoreRefusal::NotSound) => unreachable!(),
    }
}
