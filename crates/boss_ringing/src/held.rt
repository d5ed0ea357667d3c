ghost use Rattle.std.specs.Prelude.{List};
ghost use Rattle.def_history.specs.declared.entry.Entry.{Entry};
ghost use Rattle.boss_shared.specs.Keeping.{IsHeld};

use crate::Ringing;
use boss_outside::Ringer;
use boss_shared::Keeper;

/// A keeper that rings and stands for a history is a keeper that stands for it.
pub fn what_rings_stands_for_what_its_keeper_does<K: Keeper, B: Ringer>()
    ensures { (start now : Ringing K B) (log : List Entry) →
        IsHeld (λ (r : Ringing K B). K.plant r.keeper) (λ r. K.state r.keeper) (λ r. K.stopped r.keeper) (λ r. K.faults r.keeper)
        (λ r. K.leaves r.keeper) (λ r t. K.passes r.keeper t.keeper) (λ r. K.keeps r.keeper) start now log →
        IsHeld K.plant K.state K.stopped K.faults K.leaves K.passes K.keeps start.keeper now.keeper log }
{}
