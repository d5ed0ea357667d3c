ghost use Rattle.std.specs.Prelude.{◌≡◌, ℕ, ◌≤◌, List};
ghost use Rattle.boss_model.specs.declared.state.Actuator.{Actuator};
ghost use Rattle.boss_model.specs.Sound.{IsSoundPersistent};
ghost use Rattle.boss_model.specs.State.{Persistent};
ghost use Rattle.boss_model.specs.Time.{tick_to};
ghost use Rattle.law_due.specs.Due.{last_due};

/// The last of the moments at which something is due, found lease by lease and reversion by reversion, is that of the last
/// change of the whole tick; where there is none, nothing changes.
pub fn the_last_moment_that_is_due()
    ensures last { (plant : List Actuator) (d : Persistent) (n : ℕ) → IsSoundPersistent plant d → d.now ≤ n → last_due n d ≡ (tick_to n d).now }
    ensures nothing { (plant : List Actuator) (d : Persistent) (n : ℕ) → IsSoundPersistent plant d → d.now ≤ n → last_due n d ≡ d.now →
        tick_to n d ≡ d }
{}
