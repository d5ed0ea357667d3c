ghost use Rattle.std.specs.Prelude.{◌≡◌, ◌≢◌, ◌⊎◌, ℕ, ◌^◌, ◌<◌, ◌≤◌, true, List, length, take};
ghost use Rattle.def_bytes.specs.States.{state};
ghost use Rattle.boss_disk.specs.Window.{Window};
ghost use Rattle.def_log.specs.declared.kind.DiskKind.TheVariants.{State};
ghost use Rattle.def_log.specs.Kinds.{kind_of};
ghost use Rattle.def_log.specs.Versions.{newest_version};
ghost use Rattle.boss_model.specs.declared.state.Actuator.{Actuator};
ghost use Rattle.boss_model.specs.Limits.{last_number};
ghost use Rattle.boss_model.specs.Sound.{IsSoundPersistent};
ghost use Rattle.boss_model.specs.State.{Persistent};
ghost use Rattle.def_disk_pair.specs.Fronts.{IsStateFront};
ghost use Rattle.boss_snapshot.specs.declared.refusal.SnapshotRefusal.{SnapshotRefusal};
ghost use Rattle.boss_snapshot.specs.declared.refusal.SnapshotRefusal.TheVariants.{DiskFault, NoMemory};
ghost use Rattle.boss_snapshot.specs.Fronts.{version_of};
ghost use Rattle.boss_snapshot.specs.Refusals.{IsKeptState, Refuses};
ghost use Rattle.boss_snapshot.specs.Writes.{IsWritten, state_front};

/// What is written of a state is read again: its kind tells the generation, it is found with the number of events and the place of
/// its first gate, and nothing else is; and it is refused for a fault of the disk or want of memory alone. A digest has 32 bytes.
pub fn a_written_state_is_read_again()
    ensures kind { (digest bytes : List ℕ) (generation events place : ℕ) (d : Persistent) (window : Window) → length digest ≡ 32 → generation < 2 ^ 64 →
        IsWritten digest generation events d place bytes window → kind_of bytes ≡ State generation }
    ensures found { (digest bytes : List ℕ) (generation events place : ℕ) (d : Persistent) (window : Window) → length digest ≡ 32 → generation < 2 ^ 64 →
        events ≤ last_number → (state 2).fits d ≡ true → IsWritten digest generation events d place bytes window → IsKeptState digest bytes d events place }
    ensures alone { (digest bytes : List ℕ) (d other : Persistent) (events many place gate : ℕ) → IsKeptState digest bytes d events place →
        IsKeptState digest bytes other many gate → (d ≡ other) × (events ≡ many) × (place ≡ gate) }
    ensures taken { (digest bytes : List ℕ) (d : Persistent) (events place : ℕ) (refusal : SnapshotRefusal) → IsKeptState digest bytes d events place →
        Refuses digest bytes refusal → (refusal ≡ DiskFault) ⊎ (refusal ≡ NoMemory) }
{}

/// A kept state that is sound is the front of a journal's disk, where it is written, with any byte 0 but 0, and where it is read: all
/// that stands before its first gate.
pub fn a_kept_state_is_a_front()
    ensures written { (plant : List Actuator) (digest : List ℕ) (generation events first : ℕ) (d : Persistent) → first ≢ 0 → generation < 2 ^ 64 →
        events ≤ last_number → (state 2).fits d ≡ true → IsSoundPersistent plant d →
        IsStateFront plant digest newest_version generation d events (state_front first digest generation events d) }
    ensures read { (plant : List Actuator) (digest bytes : List ℕ) (generation events place : ℕ) (d : Persistent) → kind_of bytes ≡ State generation →
        IsKeptState digest bytes d events place → IsSoundPersistent plant d →
        IsStateFront plant digest (version_of bytes) generation d events (take place bytes) }
{}
