ghost use Rattle.std.specs.Prelude.{◌≡◌, ℕ, ◌≤◌, ◌==◌, not, ◌||◌, if◌then◌else◌, false, List, Option, Some, None, is_some};
ghost use Rattle.boss_model.specs.declared.event.Act.{Act};
ghost use Rattle.boss_model.specs.declared.event.Event.{Event};
ghost use Rattle.boss_model.specs.declared.state.Actuator.{Actuator};
ghost use Rattle.boss_model.specs.Acts.{act_on, replay};
ghost use Rattle.boss_model.specs.Limits.{last_moment};
ghost use Rattle.boss_model.specs.Sound.{IsSoundPersistent};
ghost use Rattle.boss_model.specs.State.{Persistent};
ghost use Rattle.boss_model.specs.Time.{moment_of, tick_to};
ghost use Rattle.law_spelling.specs.Ranges.{IsSpelled};
ghost use Rattle.law_effects.specs.Changes.{makes};
ghost use Rattle.law_effects.specs.Early.{early};

/// An act is refused before time passes: a test of the sound persistent part before the event tells whether its act is refused once
/// time has passed. A request that is made again, with the number that its reply is kept under, is refused so too, for it is no
/// event.
pub fn an_act_is_refused_before_time_passes()
    ensures asked { (plant : List Actuator) (n : ℕ) (done : Act) (d : Persistent) → IsSoundPersistent plant d →
        is_some (act_on plant n done (tick_to n d)) ≡ early plant n done d }
    ensures refused { (plant : List Actuator) (event : Event) (d : Persistent) → IsSoundPersistent plant d →
        early plant (moment_of d event.moment) event.act d ≡ false → replay plant event d ≡ None }
{}

/// An event is effective where its act is not refused, and the act makes a change or time moved `now`. Where neither did, what
/// outlasts a stop is as before. No two states are compared.
pub fn a_replay_is_told_by_flags()
    ensures told { (plant : List Actuator) (event : Event) (d after : Persistent) → IsSoundPersistent plant d → event.moment ≤ last_moment →
        let n = moment_of d event.moment in
        let passed = tick_to n d in
        act_on plant n event.act passed ≡ Some after →
        replay plant event d ≡ (if makes n event.act passed || not (passed.now == d.now) then Some after else None) }
    ensures unchanged { (plant : List Actuator) (event : Event) (d after : Persistent) → IsSoundPersistent plant d → event.moment ≤ last_moment →
        let n = moment_of d event.moment in
        let passed = tick_to n d in
        act_on plant n event.act passed ≡ Some after → (makes n event.act passed || not (passed.now == d.now)) ≡ false → after ≡ d }
{}

/// What an event with a spelling makes of a sound persistent part, wherever the event comes from, is sound.
pub fn a_replay_keeps_what_is_sound()
    ensures { (plant : List Actuator) (event : Event) (d after : Persistent) → IsSoundPersistent plant d → IsSpelled event →
        replay plant event d ≡ Some after → IsSoundPersistent plant after }
{}
