ghost use Rattle.std.specs.Prelude.{◌≡◌, ℕ, ◌≤◌, List, [], length};
ghost use Rattle.boss_model.specs.declared.command.Policy.{Policy};
ghost use Rattle.boss_model.specs.declared.command.Setting.{Setting};
ghost use Rattle.boss_model.specs.declared.state.Actuator.{Actuator};
ghost use Rattle.boss_model.specs.Sound.{IsSoundPersistent};
ghost use Rattle.boss_model.specs.State.{Persistent};
ghost use Rattle.boss_model.specs.Submit.{begun, granted, is_taken, submitted};
ghost use Rattle.boss_stages.specs.Stages.{Stages, Tracked};
ghost use Rattle.boss_booking.specs.Bookable.{ComesTo};
ghost use Rattle.boss_booking.specs.Books.{StandsFor};
ghost use Rattle.boss_booking.specs.Gathered.{replaced_tellings, with_begun};

/// A new transaction takes slots: each lease and each reversion that stood in one of them ends by itself, once the record of
/// the new transaction is begun, and this comes to the whole submit.
pub fn slots_are_taken_one_after_another()
    ensures { (plant : List Actuator) (d : Persistent) (stages : Stages) (owner : ℕ) (policy : Policy) (writes : List Setting) (n : ℕ) (new : Tracked) →
        IsSoundPersistent plant d → StandsFor stages d → 1 ≤ length writes → new.transaction ≡ begun owner policy d.next writes → new.reverting ≡ [] →
        ComesTo (submitted owner policy writes n d) (with_begun new stages) d.processes
        (replaced_tellings (λ lease. is_taken (granted owner policy d.next n writes) lease.point lease.priority)
        (λ reversion. is_taken (granted owner policy d.next n writes) reversion.point reversion.priority) d.next n d) }
{}
