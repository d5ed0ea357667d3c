//! What outlasts a stop, as plain lists.

ghost use Rattle.std.specs.Prelude.{◌≡◌, map, IfOk};
ghost use Rattle.boss_model.specs.Seen.{seen, seen_process};
ghost use Rattle.boss_persistent.specs.Lasting.{persistent_of};

use crate::lasting::Lasting;
use crate::processes::Processes;
use boss_model::{Items, Kept, KeptProcess, NoMemory, ProcId, Txn};
use std::alloc::Global;

impl Lasting {
    /// All that outlasts a stop, as plain lists.
    pub fn keep(&self, alloc: Global) -> Result<Kept, NoMemory>
        ensures { IfOk result (λ kept. seen kept ≡ persistent_of self.now) }
    {
        let (leases, pending) = self.holdings.lists(alloc)?;
        let (txns, done) = self.stages.keep(alloc)?;
        let processes = kept_processes(alloc, &self.processes)?;
        Ok(Kept {
            now: self.holdings.now(),
            next: Txn(self.next_txn),
            processes,
            txns,
            done,
            leases: Items::from_vec(leases),
            pending: Items::from_vec(pending),
        })
    }
}

/// What outlasts a stop of these processes, in their order.
fn kept_processes(alloc: Global, processes: &Processes) -> Result<Items<KeptProcess>, NoMemory>
    ensures { IfOk result (λ kept. map seen_process kept ≡ processes.now) }
{
    let mut kept = Vec::with_capacity(alloc, processes.count())?;
    for place in 0..processes.count() {
        kept.push_reserved(processes.keep(alloc, ProcId(place as u16))?);
    }
    Ok(Items::from_vec(kept))
}
