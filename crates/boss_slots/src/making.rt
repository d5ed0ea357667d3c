//! Tables with nothing in them.

ghost use Rattle.std.specs.Prelude.{◌≡◌, ◌≤◌, ◌*◌, ℕ, None, IfOk, length, replicate};
ghost use Rattle.boss_model.specs.Limits.{most_points};
ghost use Rattle.boss_slots.specs.Tables.{IsKept, IsTimed, lease_at, pending_at};

use crate::tables::Tables;
use boss_array::Array;
use boss_leases::Leases;
use boss_model::{NoMemory, Pending};
use boss_timers::Timers;
use std::alloc::Global;

/// The slots of a point.
const LEVELS: u32 = 16;

/// Tables for so many points, at most 4,096, with room for a lease and a reversion in each slot, and none there; `NoMemory`
/// where there is no memory for so many.
pub fn empty_tables(alloc: Global, points: u32) -> Result<Tables, NoMemory>
    requires { points ≤ most_points }
    ensures points { IfOk result (λ tables. length tables.arrays.items ≡ points) }
    ensures kept { IfOk result IsKept }
    ensures timed { IfOk result (IsTimed 0) }
    ensures leases { IfOk result (λ tables. (p q : ℕ) → lease_at tables p q ≡ None) }
    ensures pending { IfOk result (λ tables. (p q : ℕ) → pending_at tables p q ≡ None) }
{
    let slots = points * LEVELS;
    let arrays = empty_arrays(alloc, points)?;
    let leases = Leases::new(alloc, slots)?;
    let pending = no_pending(alloc, slots)?;
    let timers = Timers::new(alloc, 2 * slots)?;
    Ok(Tables {
        arrays,
        leases,
        pending,
        timers,
        live: 0,
        under_way: 0,
    })
}

fn empty_arrays(alloc: Global, points: u32) -> Result<Vec<Array>, NoMemory>
    ensures { IfOk result (λ arrays. arrays.items ≡ replicate points (replicate 16 None)) }
{
    let mut arrays = Vec::with_capacity(alloc, points as usize)?;
    for _point in 0..points {
        arrays.push_reserved(Array::new());
    }
    Ok(arrays)
}

fn no_pending(alloc: Global, slots: u32) -> Result<Vec<Option<Pending>>, NoMemory>
    ensures { IfOk result (λ pending. pending.items ≡ replicate slots None) }
{
    let mut pending = Vec::with_capacity(alloc, slots as usize)?;
    for _slot in 0..slots {
        pending.push_reserved(None);
    }
    Ok(pending)
}
