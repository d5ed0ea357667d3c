//! Whether a call did anything.
ghost use Rattle.std.specs.Prelude.{◌≡◌};
ghost use Rattle.boss_ringing.specs.Rising.{is_any_done, is_done};

use boss_shared::Asked;
use def_history::Outcome;

/// Whether the command was done.
pub(crate) fn is_done(outcome: &Outcome) -> bool
    ensures { result ≡ is_done outcome.now }
{
    matches!(outcome, Outcome::Done { .. })
}

/// Whether a command of one of the callers was done.
pub(crate) fn is_any_done(group: &[Asked]) -> bool
    ensures { result ≡ is_any_done group.now }
{
    group.iter().any(|asked| 0 < asked.outcomes.done)
}
