ghost use Rattle.std.specs.Prelude.{◌≡◌, IfOk};
ghost use Rattle.boss_model.specs.Seen.{seen};
ghost use Rattle.boss_model.specs.Sound.{Rising, number_rank};
ghost use Rattle.boss_model.specs.State.{lease_slot, pending_slot};
ghost use Rattle.law_adoption.specs.Adopted.{adopted};
ghost use Rattle.boss_adopting.specs.Places.{places_of};

use crate::notices::moved_processes;
use crate::numbering::Numbering;
use crate::records::{moved_records, with_records};
use crate::slots::{leases_in_order, pending_in_order};
use boss_model::{Items, Kept, NoMemory};
use std::alloc::Global;

/// The state on its new points, whether it may be adopted or not.
pub(crate) fn moved_state(
    alloc: Global,
    numbering: &Numbering,
    kept: &Kept,
) -> Result<Kept, NoMemory>
    requires leases { Rising lease_slot (adopted (places_of numbering.now) (seen kept.now)).leases }
    requires pending { Rising pending_slot (adopted (places_of numbering.now) (seen kept.now)).pending }
    requires txns { Rising number_rank (adopted (places_of numbering.now) (seen kept.now)).txns }
    ensures { IfOk result (λ moved. seen moved ≡ adopted (places_of numbering.now) (seen kept.entry.now)) }
{
    let leases = leases_in_order(alloc, numbering, kept.leases.slice())?;
    let pending = pending_in_order(alloc, numbering, kept.pending.slice())?;
    let txns = moved_records(alloc, numbering, kept.txns.slice())?;
    let done = with_records(alloc, &txns, kept.done.slice())?;
    let processes = moved_processes(alloc, numbering, kept.processes.slice())?;
    Ok(Kept {
        now: kept.now,
        next: kept.next,
        processes: Items::from_vec(processes),
        txns: Items::from_vec(txns),
        done: Items::from_vec(done),
        leases: Items::from_vec(leases),
        pending: Items::from_vec(pending),
    })
}
