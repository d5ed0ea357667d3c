ghost use Rattle.std.specs.Prelude.{ℕ, ◌^◌, ◌≤◌, List, length};
ghost use Rattle.boss_model.specs.declared.state.Actuator.{Actuator};
ghost use Rattle.boss_model.specs.Plants.{IsPlant};
ghost use Rattle.boss_model.specs.Sound.{IsSoundPersistent};
ghost use Rattle.boss_model.specs.State.{Persistent};
ghost use Rattle.def_bytes.specs.States.{state};

/// A sound state's spelling has some bytes, in each version, and at most 2^27 of them, which is 128 MiB: there are at most 65,536
/// leases and reversions together, at most 1,024 records more than that, and 256 processes with 1,024 notices each.
pub fn a_state_has_so_many_bytes()
    ensures most { (version : ℕ) (plant : List Actuator) (d : Persistent) → IsPlant plant → IsSoundPersistent plant d →
        length ((state version).text d) ≤ 2 ^ 27 }
    ensures some { (version : ℕ) (d : Persistent) → 1 ≤ length ((state version).text d) }
{}
