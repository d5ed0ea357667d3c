//! What outlasted a stop is put back.

ghost use Rattle.std.specs.Prelude.{◌≡◌, ◌≤◌, length, map, IfOk};
ghost use Rattle.std.specs.List.{AllByRecursion};
ghost use Rattle.boss_model.specs.Limits.{most_points, most_processes};
ghost use Rattle.boss_model.specs.Seen.{seen, seen_process};
ghost use Rattle.boss_restore.specs.Restoring.{IsSoundOver};
ghost use Rattle.boss_persistent.specs.Lasting.{IsKept, persistent_of};
ghost use Rattle.boss_persistent.specs.Processes.{IsSomeProcess};

use crate::lasting::Lasting;
use crate::processes::Processes;
use boss_model::{Kept, KeptProcess, MOST_WRITES, NoMemory, Txn};
use boss_restore::{records_put_back, slots_put_back};
use std::alloc::Global;

impl Lasting {
    /// What outlasted a stop, over so many points, with room for the sixteen slots of each.
    pub fn put_back(alloc: Global, points: u32, kept: &Kept) -> Result<Lasting, NoMemory>
        requires points { points ≤ most_points }
        requires sound { IsSoundOver points (seen kept.now) }
        ensures persistent { IfOk result (λ lasting. persistent_of lasting ≡ seen kept.entry.now) }
        ensures kept { IfOk result IsKept }
        ensures points { IfOk result (λ lasting. lasting.holdings.points ≡ points) }
    {
        let holdings = slots_put_back(alloc, points, kept)?;
        let stages = records_put_back(alloc, &holdings, kept)?;
        Ok(Lasting {
            next_txn: number(kept.next),
            holdings,
            stages,
            processes: processes_put_back(alloc, kept.processes.slice())?,
            slots: Vec::with_capacity(alloc, MOST_WRITES)?,
        })
    }
}

/// The number of a transaction.
fn number(txn: Txn) -> u64
    ensures { result ≡ txn }
{
    txn.0
}

/// The processes of which these outlasted a stop, in their order.
fn processes_put_back(alloc: Global, kept: &[KeptProcess]) -> Result<Processes, NoMemory>
    requires few { length kept.now ≤ most_processes }
    requires sound { AllByRecursion (λ process. IsSomeProcess (seen_process process)) kept.now }
    ensures { IfOk result (λ processes. processes ≡ map seen_process kept.now) }
{
    let mut processes = Processes::new(alloc)?;
    for process in kept {
        processes.put_back(alloc, process)?;
    }
    Ok(processes)
}
