//! What a step does to what outlasts a stop, told without comparing states.

ghost use Rattle.std.specs.Prelude.{◌≡◌, ◌==◌, not, if◌then◌else◌};
ghost use Rattle.std.specs.Option.{option_map_or};
ghost use Rattle.boss_model.specs.declared.event.Effect.TheVariants as effect;

use boss_model::{Effect, ProcId};

/// What a step at moment `n` did: the process that its command concerned, where that changed something, and whether time moved
/// the moment of the last change from `before` to `passed`.
pub fn effect_of(concerned: Option<ProcId>, n: u64, before: u64, passed: u64) -> Effect
    ensures { result ≡ option_map_or (λ owner. effect.Whole n owner) concerned (if not (passed == before) then effect.Tick passed else effect.Unchanged) }
{
    if let Some(owner) = concerned {
        return Effect::Whole { moment: n, owner };
    }
    if passed != before {
        return Effect::Tick { moment: passed };
    }
    Effect::Unchanged
}
