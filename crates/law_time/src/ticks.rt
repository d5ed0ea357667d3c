ghost use Rattle.std.specs.Prelude.{◌≡◌, ℕ, max, List};
ghost use Rattle.boss_model.specs.declared.state.Actuator.{Actuator};
ghost use Rattle.boss_model.specs.Sound.{IsSoundPersistent};
ghost use Rattle.boss_model.specs.State.{Persistent};
ghost use Rattle.boss_model.specs.Time.{tick};

/// Time may pass in turns: a tick after a tick is one tick to the later moment, for all that outlasts a stop.
pub fn ticks_compose()
    ensures { (plant : List Actuator) (d : Persistent) (a b : ℕ) → IsSoundPersistent plant d → tick (tick d a) b ≡ tick d (max a b) }
{}
