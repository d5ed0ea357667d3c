ghost use Rattle.std.specs.Prelude.{◌≡◌, ℕ, ◌≤◌};
ghost use Rattle.std.specs.List.{AllByRecursion};
ghost use Rattle.boss_model.specs.Seen.{seen};
ghost use Rattle.law_shift.specs.Shifted.{MayShift};

use boss_model::{Kept, Pending};

/// By how many milliseconds the state's moments can be moved back at most.
pub fn most_shift(kept: &Kept) -> u64
    ensures may { MayShift result (seen kept.entry.now) }
    ensures most { (by : ℕ) → MayShift by (seen kept.entry.now) → by ≤ result }
{
    least_start(kept.now, kept.pending.slice())
}

/// The least of this moment and the starts of the reversions.
fn least_start(now: u64, pending: &[Pending]) -> u64
    ensures now { result ≤ now }
    ensures started { AllByRecursion (λ reversion. result ≤ reversion.start) pending.now }
    ensures most { (by : ℕ) → by ≤ now → AllByRecursion (λ reversion. by ≤ reversion.start) pending.now → by ≤ result }
{
    let mut least = now;
    for reversion in pending {
        least = least.min(reversion.start);
    }
    least
}
