ghost use Rattle.std.specs.Prelude.{◌≡◌, ℕ, ◌≤◌, Bool, List, [], length};
ghost use Rattle.boss_model.specs.declared.state.Actuator.{Actuator};
ghost use Rattle.boss_model.specs.Limits.{last_moment};
ghost use Rattle.boss_model.specs.Sound.{IsSound, IsSoundPersistent};
ghost use Rattle.boss_model.specs.State.{Persistent, State};
ghost use Rattle.boss_model.specs.Target.{target, target_at};
ghost use Rattle.boss_model.specs.Time.{due, moment_of, tick, tick_to};
ghost use Rattle.law_machine.specs.Draining.{drain};

/// Where nothing is due up to a moment, time changes nothing.
pub fn nothing_due_changes_nothing()
    ensures { (plant : List Actuator) (d : Persistent) (m : ℕ) → IsSoundPersistent plant d → due (moment_of d m) d ≡ [] → tick d m ≡ d }
{}

/// Time may pass in turns: up to any moment in between, and then to the end. After it has passed nothing is due any more.
pub fn time_may_pass_in_turns()
    ensures turns { (plant : List Actuator) (d : Persistent) (t n : ℕ) → IsSoundPersistent plant d → d.now ≤ t → t ≤ n →
        tick_to n (tick_to t d) ≡ tick_to n d }
    ensures passed { (plant : List Actuator) (d : Persistent) (n : ℕ) → IsSoundPersistent plant d → d.now ≤ n → due n (tick_to n d) ≡ [] }
{}

/// The targets change only at due moments and by commands. Up to a moment before the next due one each point has its
/// target still, and after time has passed up to n the targets are those at n, though the last change was earlier.
pub fn targets_change_at_due_moments()
    ensures before { (plant : List Actuator) (d : Persistent) (m point : ℕ) → IsSoundPersistent plant d → d.now ≤ m → due m d ≡ [] →
        target_at plant m d point ≡ target plant d point }
    ensures after { (plant : List Actuator) (d : Persistent) (n point : ℕ) → IsSoundPersistent plant d → d.now ≤ n → n ≤ last_moment →
        target_at plant n (tick_to n d) point ≡ target plant (tick_to n d) point }
{}

/// Draining ends: from every sound state there is a number of writes to devices, whatever they answer, after which no point
/// wants its device to be written. (Each write takes a want away, or it ends leases under abort.)
pub fn draining_ends()
    ensures { (plant : List Actuator) (s : State) (m : ℕ) → IsSound plant s → m ≤ last_moment →
        (count : ℕ) × ((results : List Bool) → count ≤ length results → (drain plant m results s).wants ≡ []) }
{}
