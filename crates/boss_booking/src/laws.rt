ghost use Rattle.std.specs.Prelude.{◌≡◌, ℕ, ◌≤◌, ◌++◌, Bool, false, List, map};
ghost use Rattle.boss_model.specs.declared.notice.Cause.{Cause};
ghost use Rattle.boss_model.specs.declared.state.Actuator.{Actuator};
ghost use Rattle.boss_model.specs.declared.state.Lease.{Lease};
ghost use Rattle.boss_model.specs.Ends.{end_leases};
ghost use Rattle.boss_model.specs.Happenings.{Happening};
ghost use Rattle.boss_model.specs.Limits.{last_moment};
ghost use Rattle.boss_model.specs.Sound.{is_superseded, IsSoundPersistent};
ghost use Rattle.boss_model.specs.State.{Persistent};
ghost use Rattle.boss_model.specs.Time.{tick_to};
ghost use Rattle.boss_stages.specs.Stages.{Stages};
ghost use Rattle.boss_booking.specs.Bookable.{ComesTo};
ghost use Rattle.boss_booking.specs.Books.{StandsFor};
ghost use Rattle.boss_booking.specs.Gathered.{due_tellings, end_tellings, plain};
ghost use Rattle.boss_booking.specs.Passed.{IsFirstTold, IsPassed};

/// As time passes, leases and reversions end at their moments. Each end that is due is booked by itself, in the order in
/// which it is told, and this comes to the whole tick.
pub fn time_passes_one_end_after_another()
    ensures { (plant : List Actuator) (d : Persistent) (stages : Stages) (n : ℕ) →
        IsSoundPersistent plant d → StandsFor stages d → d.now ≤ n → n ≤ last_moment →
        ComesTo (tick_to n d) stages d.processes (due_tellings n d) }
{}

/// Leases that end before their time, as after a cancel, with their session, or after a fault: each end is booked by itself,
/// and this comes to their end as a whole. A fault is told with them, in its place.
pub fn leases_end_one_after_another()
    ensures { (plant : List Actuator) (d : Persistent) (stages : Stages) (which : Lease → Bool) (why : Cause) (n : ℕ) (first : List Happening) →
        IsSoundPersistent plant d → StandsFor stages d → IsPassed n d → n ≤ last_moment → is_superseded why ≡ false → IsFirstTold why n d first →
        ComesTo (end_leases which why n first d) stages d.processes (map plain first ++ end_tellings which why n d.leases) }
{}
