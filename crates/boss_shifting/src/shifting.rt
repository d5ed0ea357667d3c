ghost use Rattle.std.specs.Prelude.{◌≡◌};
ghost use Rattle.boss_model.specs.Seen.{seen};
ghost use Rattle.law_shift.specs.Shifted.{shifted};

use crate::processes::shifted_processes;
use crate::records::shifted_records;
use crate::slots::{shifted_leases, shifted_pending};
use boss_model::Kept;
use std::alloc::Global;

/// The state with each of its moments `by` milliseconds earlier, down to 0 at most. It takes no memory.
///
/// A sound state stays sound where `by` is at most its `most_shift`.
pub fn shift_state(alloc: Global, kept: Kept, by: u64) -> Kept
    ensures { seen result ≡ shifted by (seen kept) }
{
    Kept {
        now: kept.now.saturating_sub(by),
        next: kept.next,
        processes: shifted_processes(alloc, kept.processes, by),
        txns: shifted_records(alloc, kept.txns, by),
        done: kept.done,
        leases: shifted_leases(kept.leases, by),
        pending: shifted_pending(kept.pending, by),
    }
}
