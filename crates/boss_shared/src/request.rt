ghost use Rattle.std.specs.Prelude.{◌≡◌, None};
ghost use Rattle.boss_lock.specs.Seats.{IsSeatOf};
ghost use Rattle.boss_shared.specs.Together.{IsServed, MayAsk};

use crate::{Asked, Held, Keeper, Pass};
use boss_counters::Errand;
use boss_lock::Ruled;

/// What a caller leaves for whoever has the turn: what it asks for, and its own seat, which gets the entries. It comes back with
/// what it was told.
#[derive(Drop)]
pub struct Request<K: Keeper> {
    pub(crate) seat: Pass<K>,
    pub(crate) asked: Asked,
}

impl<K: Keeper> Errand for Request<K> {
    type Key = Ruled<Held<K>>;

    type Reply = Request<K>;

    ghost may = { λ lock request. IsSeatOf lock request.seat × (request.seat.turn ≡ None) × MayAsk (K.plant lock.start) request.asked };

    ghost answers = { λ request reply. IsServed K.plant K.state request.seat reply.seat request.asked reply.asked };
}
