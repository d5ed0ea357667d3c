// A seat at the lock.
use crate::view::{Stands, Token};
use std::marker::Model;

/// A right to take turns at one lock. It has no bytes, and may go to another thread.
///
/// To a contract a seat is a `Standing`: its table and start, its parts, the beginning of the history
/// that it has seen, the places in it of the entries that it made, and, while it has the turn, the
/// history as it found it.
///
/// A seat that is dropped takes its parts with it, so no seat has all parts again. One that is dropped
/// with the turn leaves the lock taken for ever, which no contract rules out.
#[derive(Drop)]
pub struct Seat<V: Stands> {
    pub(crate) token: Token<V>,
}

impl<V: Stands> Model for Seat<V> {
    ghost use Rattle.boss_lock.specs.Seats.{Standing, standing, IsAtRest};

    ghost Value = { Standing V.Start V.Entry };

    ghost view = { λ s. standing s.token.table_id s.token.me.0 };

    ghost invariant = { λ s. IsAtRest s.token.me };
}
