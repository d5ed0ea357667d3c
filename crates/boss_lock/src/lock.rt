// The lock and its calls.
ghost use Rattle.std.specs.Prelude.{◌≡◌, ℕ, ◌+◌, ◌*◌, ◌^◌, ◌<◌, ◌≤◌, ◌⊎◌, List, [], ◌∷◌, ◌++◌, length, Some, None, IsSome, IfOk, IfErr};
ghost use mathlib.Core.List.{IsPrefix};
ghost use Rattle.boss_lock.specs.Places.{numbers_from, ArePlacesOf, IsLonger, total};
ghost use Rattle.boss_lock.specs.Seats.{IsSeatOf, found, own_entries, first_seat, with_turn, after_turn, one_part_less, one_part_of, both_seats, after_lending, with_parts_of};

use crate::bells::Bells;
use crate::seat::Seat;
use crate::steps::{begin_turn, divide, end_turn, fold, is_next_served, lend_turn, take_in};
use crate::view::{Known, Made, OneHistory, Stands, Terms};
use atomic_table::{Closed, Refused, Table};
use std::alloc::{AllocFailed, Global};
use std::error::Error;
use std::fmt;
use std::marker::Model;
use std::snapshot::Snapshot;
use std::sync::Wait;

/// There was no memory. The call that answers it has changed nothing.
#[derive(Clone, Copy, Debug, PartialEq, Eq)]
pub struct NoMemory;

impl fmt::Display for NoMemory {
    fn fmt<W: fmt::Write>(&self, f: &mut fmt::Formatter<W>) -> fmt::Result {
        f.write_str("out of memory")
    }
}

impl Error for NoMemory {}

/// A lock that keeps a value, which stands for a list of entries, the history, from the start that the
/// first value told.
///
/// Seats take turns in the order of the tickets that they draw. Whoever has the turn has the value, and
/// may add entries to the end of the history. The history exists in proofs alone: no call stores any of
/// it, and only `new` takes memory. Tickets count modulo 2^64, which is no limit on the turns.
///
/// To a contract a lock is a `Lock`: its table, the start, and how many parts its seats have together.
///
/// Not promised: that a seat which waits gets its turn, or how long that takes. A turn that is passed on
/// while others wait wakes the seat whose turn it is, and those 64 places behind it, 128 and so on.
#[derive(Drop)]
pub struct Ruled<V: Stands> {
    table: Table<Option<V>, Known<V>, Terms<V>, OneHistory, Global>,
    bells: Bells,
}

impl<V: Stands> Model for Ruled<V> {
    ghost use Rattle.std.specs.Prelude.{◌≡◌};
    ghost use Rattle.boss_lock.specs.Seats.{Lock};

    ghost Value = { Lock V.Start };

    ghost view = { λ l. record {
      table = l.table.shared.table_id;
      start = V.start l.table.shared.key.value.value;
      seats = l.table.shared.key.seats;
    } };

    ghost invariant = { λ l. (l.table.shared.table_id.words ≡ 2) × (l.table.shared.table_id.slots ≡ 1) };
}

// A row of one slot, with the value in it.
fn one_slot<V>(alloc: Global, value: V) -> Result<Vec<Option<V>>, V>
    ensures ok { IfOk result (λ slots. slots.items ≡ Some value ∷ []) }
    ensures err { IfErr result (λ refused. refused ≡ value) }
{
    let mut slots = Vec::new(alloc);
    match slots.push(Some(value)) {
        Ok(()) => Ok(slots),
        Err(failed) => {
            slots.destroy_empty();
            let AllocFailed { value } = failed;
            let Some(value) = value else { unreachable!() };
            Err(value)
        }
    }
}

// The value of such a row.
fn only_value<V>(mut slots: Vec<Option<V>>) -> V
    requires { (value : V) × (slots.items ≡ Some value ∷ []) }
    ensures { slots.items ≡ Some result ∷ [] }
{
    let last = slots.pop();
    slots.destroy_empty();
    let Some(slot) = last else { unreachable!() };
    let Some(value) = slot else { unreachable!() };
    value
}

// A new lock, and its only seat, which has so many parts.
fn with_parts<V: Stands>(
    alloc: Global,
    value: V,
    parts: u64,
) -> Result<(Ruled<V>, Seat<V>), (V, NoMemory)>
    requires parts { (0 < parts) × (parts < 2 ^ 33) }
    requires value { V.stands value (V.start value) [] }
    ensures lock { IfOk result (λ made. (made.0.start ≡ V.start value) × (made.0.seats ≡ parts)) }
    ensures seat { IfOk result (λ made. made.1 ≡ first_seat made.0) }
    ensures err { IfErr result (λ refused. refused.0 ≡ value) }
{
    let terms = Terms {
        seats: parts,
        value: Snapshot::of(&value),
    };
    let Ok(bells) = Bells::new(alloc) else {
        return Err((value, NoMemory));
    };
    let slots = match one_slot(alloc, value) {
        Ok(slots) => slots,
        Err(value) => return Err((value, NoMemory)),
    };
    match Table::new(alloc, &[0, 0], slots, &terms) {
        Ok((table, token)) => Ok((Ruled { table, bells }, Seat { token })),
        Err(refused) => {
            let Refused { slots } = refused;
            Err((only_value(slots), NoMemory))
        }
    }
}

impl<V: Stands> Ruled<V> {
    /// A new lock, and its only seat, which has all `seats` parts. The history is empty.
    ///
    /// There has to be a part or more, and the value has to stand for the empty list from the start that
    /// it tells. Without memory the value comes back as it was.
    pub fn new(alloc: Global, value: V, seats: u32) -> Result<(Ruled<V>, Seat<V>), (V, NoMemory)>
        requires seats { 0 < seats }
        requires value { V.stands value (V.start value) [] }
        ensures lock { IfOk result (λ made. (made.0.start ≡ V.start value) × (made.0.seats ≡ seats)) }
        ensures seat { IfOk result (λ made. made.1 ≡ first_seat made.0) }
        ensures err { IfErr result (λ refused. refused.0 ≡ value) }
    {
        with_parts(alloc, value, seats as u64)
    }

    /// The same with two parts for each of `pairs`, so that whoever has a pair can `split` a seat off that
    /// takes the turns, and `fold` it in again, while the other one lies where a turn can be lent to it.
    pub fn new_in_pairs(
        alloc: Global,
        value: V,
        pairs: u32,
    ) -> Result<(Ruled<V>, Seat<V>), (V, NoMemory)>
        requires pairs { 0 < pairs }
        requires value { V.stands value (V.start value) [] }
        ensures lock { IfOk result (λ made. (made.0.start ≡ V.start value) × (made.0.seats ≡ 2 * pairs)) }
        ensures seat { IfOk result (λ made. made.1 ≡ first_seat made.0) }
        ensures err { IfErr result (λ refused. refused.0 ≡ value) }
    {
        with_parts(alloc, value, 2 * pairs as u64)
    }

    /// Whether no seat had the turn or waited for it at a moment of the call.
    ///
    /// That may be otherwise by the time that it returns, so no clause says anything of it: it serves to
    /// choose the quicker of two ways. The call takes no memory and does not wait.
    pub fn is_free(&self) -> bool {
        is_next_served(&self.table.shared)
    }

    /// Waits for the seat's turn, and takes the value out.
    ///
    /// The seat has to be one of this lock, and not have the turn. The value stands for a history that
    /// begins with all that the seat has seen, and that stays as it is until the seat leaves. The call
    /// takes no memory. That it returns is not promised: it does not while another seat keeps the turn.
    pub fn enter<R: Wait>(&self, rt: &R, seat: &mut Seat<V>) -> V
        requires own { IsSeatOf self.now seat.old }
        requires no_turn { seat.old.turn ≡ None }
        ensures seat { seat.new ≡ with_turn seat.old (found seat.new) }
        ensures history { IsPrefix seat.old.seen (found seat.new) }
        ensures value { V.stands result self.now.start (found seat.new) }
    {
        begin_turn(&self.table.shared, &self.bells, rt, &mut seat.token)
    }

    /// Gives a value back, and passes the turn on.
    ///
    /// The seat has to be one of this lock, and have the turn. The value has to stand for the history that
    /// `enter` found and then the entries that `made` tells. The seat has then seen just that, and the new
    /// entries' places are its own. `made` is not read. The call takes no memory and does not wait.
    pub fn leave<M: Made<V>>(&self, seat: &mut Seat<V>, value: V, made: &M)
        requires own { IsSeatOf self.now seat.old }
        requires turn { IsSome seat.old.turn }
        requires value { V.stands value self.now.start (found seat.old ++ M.entries made.now) }
        ensures seat { seat.new ≡ after_turn seat.old (M.entries made.now) }
        ensures own_entries { own_entries seat.new ≡ own_entries seat.old ++ M.entries made.now }
        ensures places { ArePlacesOf seat.new.places seat.new.seen }
    {
        end_turn(
            &self.table.shared,
            &self.bells,
            &mut seat.token,
            value,
            made,
        );
    }

    /// Moves one part to a new seat, which has seen the same and has no places.
    ///
    /// The seat has to be one of this lock, not have the turn, and have two parts or more. The call takes
    /// no memory.
    pub fn split(&self, seat: &mut Seat<V>) -> Seat<V>
        requires own { IsSeatOf self.now seat.old }
        requires no_turn { seat.old.turn ≡ None }
        requires two_parts { 2 ≤ seat.old.parts }
        ensures left { seat.new ≡ one_part_less seat.old }
        ensures right { result ≡ one_part_of seat.old }
    {
        let token = divide(&self.table.shared, &mut seat.token);
        Seat { token }
    }

    /// Takes in another seat: its parts, its places, and the longer of what the two have seen, which both
    /// begin.
    ///
    /// Both have to be seats of this lock, and have no turn. The call takes no memory.
    pub fn join(&self, seat: &mut Seat<V>, other: Seat<V>)
        requires own { IsSeatOf self.now seat.old × IsSeatOf self.now other }
        requires no_turn { (seat.old.turn ≡ None) × (other.turn ≡ None) }
        ensures seat { seat.new ≡ both_seats seat.old other }
        ensures history { IsLonger seat.old.seen other.seen seat.new.seen }
        ensures own_entries { (weight : V.Entry → ℕ) →
            total weight (own_entries seat.new) ≡ total weight (own_entries seat.old) + total weight (own_entries other) }
        ensures places { ArePlacesOf seat.new.places seat.new.seen }
    {
        let Seat { token } = other;
        take_in(&self.table.shared, &mut seat.token, token);
    }

    /// Lends the seat's turn to another seat, which makes these entries in it.
    ///
    /// Both have to be seats of this lock. The first has to have the turn, one part and no places, and the
    /// other no turn. The other comes back as it would be after a turn of its own in which it found the same
    /// history and made the entries that `made` tells. The first keeps the turn, as if it had found these too.
    /// Nothing is asked of the value, which stays with the caller: `leave` asks that it stands for all that was
    /// made. `made` is not read. The call takes no memory and does not wait.
    pub fn lend<M: Made<V>>(&self, seat: &mut Seat<V>, other: Seat<V>, made: &M) -> Seat<V>
        requires own { IsSeatOf self.now seat.old × IsSeatOf self.now other }
        requires turn { IsSome seat.old.turn }
        requires bare { (seat.old.parts ≡ 1) × (seat.old.places ≡ []) }
        requires no_turn { other.turn ≡ None }
        ensures seat { seat.new ≡ after_lending seat.old (M.entries made.now) }
        ensures history { IsPrefix other.seen (found seat.old) }
        ensures other { result ≡ after_turn (with_turn other (found seat.old)) (M.entries made.now) }
        ensures own_entries { own_entries result ≡ own_entries other ++ M.entries made.now }
        ensures places { ArePlacesOf result.places result.seen }
    {
        let Seat { token } = other;
        let token = lend_turn(&self.table.shared, &mut seat.token, token, made);
        Seat { token }
    }

    /// Takes the parts of another seat that has no places, and lets go what it had seen.
    ///
    /// Both have to be seats of this lock, and the other has to have no turn. The seat stays as it was but
    /// for its parts, also with the turn. The call takes no memory.
    pub fn fold(&self, seat: &mut Seat<V>, other: Seat<V>)
        requires own { IsSeatOf self.now seat.old × IsSeatOf self.now other }
        requires no_turn { other.turn ≡ None }
        requires no_places { other.places ≡ [] }
        ensures seat { seat.new ≡ with_parts_of seat.old other }
    {
        let Seat { token } = other;
        fold(&self.table.shared, &mut seat.token, token);
    }

    /// Ends the lock, and gives its value. It stands for all that the seat has seen, and every place of
    /// that is the seat's own.
    ///
    /// The seat has to be one of this lock, not have the turn, and have all parts, so it is the only seat
    /// left. The call takes no memory, and gives back what the lock took.
    pub fn close(self, seat: Seat<V>) -> V
        requires own { IsSeatOf self seat }
        requires no_turn { seat.turn ≡ None }
        requires all_parts { seat.parts ≡ self.seats }
        ensures value { V.stands result self.start seat.seen }
        ensures places { seat.places ≡ numbers_from 0 (length seat.seen) }
    {
        let Ruled { table, bells } = self;
        drop(bells);
        let Seat { token } = seat;
        let mut closed = table.close_with(token);
        let slot = closed.take(0);
        closed.free();
        let Some(value) = slot else { unreachable!() };
        value
    }
}
