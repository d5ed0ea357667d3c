ghost use Rattle.std.specs.Prelude.{◌≡◌, List, length};
ghost use Rattle.boss_model.specs.declared.event.Event.{Event};
ghost use Rattle.boss_disk_pair.specs.Rests.{counted};

use boss_disk::Disk;
use boss_durable::Durable;
use boss_memory_keeper::Unkept;
use boss_shared::Keeper;

/// What a history leaves, as the last line of a server tells it.
#[derive(Clone, Copy)]
pub struct Standing {
    /// How many events there were.
    pub events: u64,
    /// The moment of the last change, in milliseconds.
    pub now: u64,
    /// How many leases are live.
    pub leases: u64,
    /// How many reversions are under way.
    pub pending: u64,
}

/// A keeper that counts what its history leaves.
pub trait Tally: Keeper {
    /// That the number of events is known.
    ghost known: { Type 0 };

    /// What the history leaves.
    fn standing(&self) -> Standing
        ensures events { known → (before : List Event) → Self.keeps self.now before → result.events ≡ counted (length before) }
        ensures now { result.now ≡ (Self.state self.now).persistent.now }
        ensures leases { result.leases ≡ length (Self.state self.now).persistent.leases }
        ensures pending { result.pending ≡ length (Self.state self.now).persistent.pending };
}

impl<D: Disk> Tally for Durable<D> {
    ghost known = { D.tells };

    fn standing(&self) -> Standing {
        Standing {
            events: self.events(),
            now: self.now(),
            leases: self.leases(),
            pending: self.pending(),
        }
    }
}

impl Tally for Unkept {
    ghost known = { Unit {0} };

    fn standing(&self) -> Standing {
        let engine = self.engine();
        Standing {
            events: self.events(),
            now: engine.now(),
            leases: engine.leases(),
            pending: engine.pending(),
        }
    }
}
