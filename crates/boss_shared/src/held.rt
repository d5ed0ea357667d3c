ghost use Rattle.std.specs.Prelude.{◌≡◌};
ghost use Rattle.boss_shared.specs.Keeping.{IsHeld};

use crate::Keeper;
use boss_lock::{Seat, Stands};
use def_history::Entry;

/// The value behind the lock: a keeper, which stands for the history from the keeper as it was handed over.
pub struct Held<K: Keeper> {
    // A keeper has some hundred bytes, and each turn moves it out of the lock and back.
    pub(crate) keeper: Box<K>,
}

impl<K: Keeper> Stands for Held<K> {
    type Start = K;

    type Entry = Entry;

    ghost start = { λ held. held.keeper.value };

    ghost stands = { λ held start log. IsHeld K.plant K.state K.stopped K.faults K.leaves K.passes K.keeps start held.keeper.value log
        × (K.under held.keeper.value ≡ K.under start) };
}

/// A caller's right to take turns at a manager. It has no bytes, and may go to another thread.
pub type Pass<K> = Seat<Held<K>>;
