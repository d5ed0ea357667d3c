ghost use Rattle.std.specs.Prelude.{ℕ, List};
ghost use Rattle.boss_model.specs.declared.state.Actuator.{Actuator};
ghost use Rattle.boss_model.specs.State.{Persistent};
ghost use Rattle.boss_disk_pair.specs.Rests.{rests, leaves, passes};

use crate::TwoDisks;
use boss_disk::Disk;

/// A crash leaves of a pair at rest what it stands for.
pub fn a_pair_at_rest_leaves_its_state<D: Disk>(pair: &TwoDisks<D>)
    ensures leaves { (plant : List Actuator) (d : Persistent) (count : ℕ) → rests pair.now plant d count → leaves pair.now plant d d }
    ensures passes { (plant : List Actuator) (d : Persistent) (count : ℕ) → rests pair.now plant d count → passes pair.now pair.now plant d d }
{}

/// What passes in turn passes: a run that changes nothing before one that comes to another state, or behind it.
pub fn what_passes_in_turn_passes<D: Disk>(old: &TwoDisks<D>, mid: &TwoDisks<D>, new: &TwoDisks<D>)
    ensures before { (plant : List Actuator) (d after : Persistent) → passes old.now mid.now plant d d → passes mid.now new.now plant d after
        → passes old.now new.now plant d after }
    ensures behind { (plant : List Actuator) (d after : Persistent) → passes old.now mid.now plant d after → passes mid.now new.now plant after after
        → passes old.now new.now plant d after }
{}

/// What passes is left by its last moment; and what opens to a state opens to one of two.
pub fn what_passed_is_left<D: Disk>(old: &TwoDisks<D>, new: &TwoDisks<D>)
    ensures last { (plant : List Actuator) (a b : Persistent) → passes old.now new.now plant a b → leaves new.now plant a b }
    ensures passes { (plant : List Actuator) (d other : Persistent) → passes old.now new.now plant d d → passes old.now new.now plant d other }
    ensures leaves { (plant : List Actuator) (d other : Persistent) → leaves new.now plant d d → leaves new.now plant d other }
{}
