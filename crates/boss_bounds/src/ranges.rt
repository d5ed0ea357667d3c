ghost use Rattle.std.specs.Prelude.{◌≡◌};
ghost use Rattle.std.specs.List.{list_all};
ghost use Rattle.boss_model.specs.Submit.{is_length};
ghost use Rattle.boss_bounds.specs.Bounds.{is_bounded, is_held, is_modest};

use boss_model::{Act, LONGEST_HOLD, LONGEST_LEASE, Setting, Step};

/// Whether an act stays within the bounds that no effective event leaves: each priority is 1 to 16, and each lease, each step's hold
/// and each renewal has a length that there may be.
pub fn is_modest(act: &Act) -> bool
    ensures { result ≡ is_modest act.now }
{
    match act {
        Act::Submit { writes, .. } => are_bounded(writes.slice()),
        Act::Renew { length, .. } => is_length(*length),
        Act::Enrol { .. } | Act::Cancel { .. } | Act::Gone { .. } | Act::Tick | Act::Fault { .. } =>
            true,
    }
}

/// Whether all writes stay within bounds.
fn are_bounded(writes: &[Setting]) -> bool
    ensures { result ≡ list_all is_bounded writes.now }
{
    writes.iter().all(is_bounded)
}

/// Whether a write does.
fn is_bounded(write: &Setting) -> bool
    ensures { result ≡ is_bounded write.now }
{
    1 <= write.priority
        && write.priority <= 16
        && is_length(write.lease)
        && are_held(write.revert.slice())
}

/// Whether a lease may be so long, in milliseconds.
fn is_length(length: i64) -> bool
    ensures { result ≡ is_length length }
{
    1 <= length && length <= LONGEST_LEASE
}

/// Whether all steps of a reversion hold for a time that there may be.
fn are_held(steps: &[Step]) -> bool
    ensures { result ≡ list_all is_held steps.now }
{
    steps.iter().all(is_held)
}

/// Whether a step does.
fn is_held(step: &Step) -> bool
    ensures { result ≡ is_held step.now }
{
    1 <= step.hold && step.hold <= LONGEST_HOLD
}
