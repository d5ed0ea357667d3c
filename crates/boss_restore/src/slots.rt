//! Leases and reversions take their slots again.

ghost use Rattle.std.specs.Prelude.{◌≡◌, ◌≤◌, false, replicate, IfOk};
ghost use Rattle.boss_model.specs.Limits.{most_points};
ghost use Rattle.boss_model.specs.Seen.{seen};
ghost use Rattle.boss_restore.specs.Restoring.{IsSoundOver};

use boss_holdings::{Holdings, copied_lease, copied_reversion};
use boss_model::{Kept, Lease, NoMemory, Pending};
use std::alloc::Global;

/// The leases and the reversions of a sound state over so many points, in their slots; none is touched. `NoMemory` where there
/// is no memory for a copy of them and for sixteen leases and sixteen reversions a point.
pub fn slots_put_back(alloc: Global, points: u32, kept: &Kept) -> Result<Holdings, NoMemory>
    requires points { points ≤ most_points }
    requires sound { IsSoundOver points (seen kept.now) }
    ensures { IfOk result (λ holdings. holdings ≡ record { now = kept.entry.now.now; points = points; leases = kept.entry.now.leases; pending = kept.entry.now.pending; touched = replicate points false }) }
{
    let leases = copied_leases(alloc, kept.leases.slice())?;
    let pending = copied_pending(alloc, kept.pending.slice())?;
    Holdings::put_back(alloc, points, kept.now, leases, pending)
}

/// The same leases once more.
fn copied_leases(alloc: Global, leases: &[Lease]) -> Result<Vec<Lease>, NoMemory>
    ensures { IfOk result (λ copies. copies.items ≡ leases.now) }
{
    let mut copies = Vec::with_capacity(alloc, leases.len())?;
    for lease in leases {
        copies.push_reserved(copied_lease(alloc, lease)?);
    }
    Ok(copies)
}

/// The same reversions once more.
fn copied_pending(alloc: Global, pending: &[Pending]) -> Result<Vec<Pending>, NoMemory>
    ensures { IfOk result (λ copies. copies.items ≡ pending.now) }
{
    let mut copies = Vec::with_capacity(alloc, pending.len())?;
    for reversion in pending {
        copies.push_reserved(copied_reversion(alloc, reversion)?);
    }
    Ok(copies)
}
