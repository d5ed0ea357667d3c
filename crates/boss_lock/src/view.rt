// What each seat knows of the lock, and the rule over all of it.
ghost use Rattle.std.specs.Prelude.{List};

use atomic_table::{Seat, Shared, TableRule};
use std::collections::LinkedList;
use std::snapshot::Snapshot;

/// A value that stands for a list of entries, from a start. Contracts alone read its two meanings, so
/// the trait has no calls.
pub trait Stands {
    /// What a value tells of the state before the first entry. It is plain data, and no value of it is made.
    type Start;
    /// What one entry of the history says. No value of it is made either.
    type Entry;

    // The start that a value tells.
    ghost start: { Self → Self.Start };

    // Whether the value stands for these entries from this start.
    ghost stands: { Self → Self.Start → List Self.Entry → Type 0 };
}

/// A value that tells which entries a turn made. No code reads it, so the trait has no calls.
pub trait Made<V: Stands> {
    // The entries, in the order in which they were made.
    ghost entries: { Self → List V.Entry };
}

// How far a seat is with its turn. A number is the seat's ticket, counted without end. The first list
// is the history as the seat found it when it got the turn, and the second the entries that it made.
pub enum Stage<E> {
    Idle,
    Waiting(u64),
    Turn(u64, LinkedList<E>),
    // The value is out of its slot, in the seat's hands.
    Holding(u64, LinkedList<E>),
    // The value is back, and the turn is not passed on yet.
    Given(u64, LinkedList<E>, LinkedList<E>),
}

// What a seat knows. No value of it is made.
pub struct View<T, E> {
    // None once the seat's parts went to another.
    pub start: Option<T>,
    pub parts: u64,
    pub seen: LinkedList<E>,
    // What a seat that was taken in had seen, until the two lists are compared.
    pub other: LinkedList<E>,
    pub places: LinkedList<u64>,
    pub stage: Stage<E>,
}

pub type Known<V> = View<<V as Stands>::Start, <V as Stands>::Entry>;

// What the table is told when it is made. It has no byte of the value, whose start the rule reads.
#[derive(Drop)]
pub struct Terms<V> {
    pub seats: u64,
    pub value: Snapshot<V>,
}

// The rule of the lock.
pub struct OneHistory;

impl<V: Stands> TableRule<Option<V>, Known<V>, Terms<V>> for OneHistory {
    ghost use Rattle.boss_lock.specs.Rule.{IsKept, first_view};

    ghost holds = { λ terms. IsKept V.stands (V.start terms.value.value) terms.seats };

    ghost first = { λ terms. first_view (V.start terms.value.value) terms.seats };
}

pub type Board<V> = Shared<Option<V>, Known<V>, Terms<V>, OneHistory>;

pub type Token<V> = Seat<Option<V>, Known<V>>;
