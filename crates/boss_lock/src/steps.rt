// The steps of a turn. Between two of them a seat is not at rest, so they work on its token.
ghost use Rattle.std.specs.Prelude.{◌≡◌, ℕ, ◌%◌, ◌^◌, ◌<◌, ◌≤◌, List, [], ◌∷◌, ◌++◌, length, Some, None};
ghost use mathlib.Core.List.{IsPrefix};
ghost use Rattle.boss_lock.specs.Places.{ArePlacesOf, IsLonger};
ghost use Rattle.boss_lock.specs.Steps.{ticket_of, list_of, waiting_view, turn_view, holding_view, given_view, passed_view, left_view, right_view, joined_view, compared_view, added_view, bare_view, set_down_view, folded_view, IsWaiting, HasTurn, IsHolding, HasGiven, StandsFor, IsOn, IsSameToken};
ghost use Rattle.boss_lock.specs.declared.view.Stage.TheVariants.{Idle};

use crate::bells::Bells;
use crate::plays::{
    Add, AllParts, Compare, Draw, Fold, GiveBack, Look, OnePart, PassOn, SetDown, Take, Telling,
};
use crate::view::{Board, Made, Stands, Token};
use boss_model::LOCK_LOOKS;
use std::hint::spin_loop;
use std::marker::Brand;
use std::sync::Wait;

// The word that has the next ticket to be drawn.
const TICKET: usize = 0;

// The word that has the ticket that is served.
const SERVING: usize = 1;

// The only slot, where the value lies while no seat has the turn.
const VALUE: usize = 0;

// Draws the next ticket, and returns it modulo 2^64.
fn draw<V: Stands>(board: &Board<V>, token: &mut Token<V>) -> u64
    requires own { IsOn board.now.table_id token.old }
    requires idle { (token.old.me.0.stage ≡ Idle) × (0 < token.old.me.0.parts) }
    ensures same { IsSameToken token.old token.new }
    ensures ticket { (t : ℕ) × (result ≡ t % 2 ^ 64) × (token.new.me ≡ (waiting_view token.old.me.0 t, token.old.me.1)) }
{
    board.fetch_add::<Draw>(token, TICKET, 1)
}

// Looks until the ticket is served. After a number of looks it sleeps between two of them, until the bell of
// its place in line is rung. It hears the bell before it looks, so that none is missed.
fn wait<V: Stands, R: Wait>(
    board: &Board<V>,
    bells: &Bells,
    rt: &R,
    token: &mut Token<V>,
    ticket: u64,
)
    requires own { IsOn board.now.table_id token.old }
    requires waiting { IsWaiting token.old.me.0 }
    requires ticket { ticket ≡ ticket_of token.old.me.0.stage % 2 ^ 64 }
    ensures same { IsSameToken token.old token.new }
    ensures history { IsPrefix token.old.me.0.seen (list_of token.new.me.0.stage) }
    ensures turn { token.new.me ≡ (turn_view token.old.me.0 (list_of token.new.me.0.stage), token.old.me.1) }
{
    let mut looks = 0;
    for _ in rt.forever() {
        let shown = bells.shown(ticket);
        let serving = board.load::<Look>(token, SERVING);
        if serving == ticket {
            return;
        }
        if looks < LOCK_LOOKS {
            looks += 1;
            spin_loop();
        } else {
            bells.sleep(rt, ticket, shown);
        }
    }
    unreachable!()
}

// Takes the value out of its slot.
fn take<V: Stands>(board: &Board<V>, token: &mut Token<V>) -> V
    requires own { IsOn board.now.table_id token.old }
    requires turn { HasTurn token.old.me.0 }
    requires start { (0 < token.old.me.0.parts) × (token.old.me.1 ≡ []) }
    ensures same { IsSameToken token.old token.new }
    ensures holding { token.new.me ≡ (holding_view token.old.me.0 (list_of token.old.me.0.stage), (VALUE, None) ∷ []) }
    ensures value { StandsFor V.stands result token.old.me.0 (list_of token.old.me.0.stage) }
{
    board.load::<Take>(token, SERVING);
    let slot = board.exchange(token, VALUE, None);
    let Some(value) = slot else { unreachable!() };
    value
}

// Waits for the turn, and takes the value out.
pub(crate) fn begin_turn<V: Stands, R: Wait>(
    board: &Board<V>,
    bells: &Bells,
    rt: &R,
    token: &mut Token<V>,
) -> V
    requires own { IsOn board.now.table_id token.old }
    requires idle { (token.old.me.0.stage ≡ Idle) × (token.old.me.1 ≡ []) }
    requires part { 0 < token.old.me.0.parts }
    ensures same { IsSameToken token.old token.new }
    ensures history { IsPrefix token.old.me.0.seen (list_of token.new.me.0.stage) }
    ensures holding { (t : ℕ) × (token.new.me ≡ (holding_view (waiting_view token.old.me.0 t) (list_of token.new.me.0.stage), (VALUE, None) ∷ [])) }
    ensures value { StandsFor V.stands result token.old.me.0 (list_of token.new.me.0.stage) }
{
    let ticket = draw(board, token);
    wait(board, bells, rt, token, ticket);
    take(board, token)
}

// Puts a value back for which a list stands that has the entries of `made` at its end.
fn give_back<V: Stands, M: Made<V>, J: Telling<V::Entry>>(
    board: &Board<V>,
    token: &mut Token<V>,
    value: V,
    made: &M,
)
    requires own { IsOn board.now.table_id token.old }
    requires holding { IsHolding token.old.me.0 }
    requires slot { (0 < token.old.me.0.parts) × (token.old.me.1 ≡ (VALUE, None) ∷ []) }
    requires told { J.told ≡ M.entries made.now }
    requires value { StandsFor V.stands value token.old.me.0 (list_of token.old.me.0.stage ++ M.entries made.now) }
    ensures same { IsSameToken token.old token.new }
    ensures given { token.new.me ≡ (given_view token.old.me.0 (M.entries made.now), []) }
{
    let _ = made;
    let empty = board.exchange(token, VALUE, Some(value));
    let None = empty else { unreachable!() };
    board.load::<GiveBack<J>>(token, SERVING);
}

// Serves the next ticket, and rings its bell where a seat has drawn it. A seat that draws it later finds it
// served.
fn pass_on<V: Stands>(board: &Board<V>, bells: &Bells, token: &mut Token<V>)
    requires own { IsOn board.now.table_id token.old }
    requires given { HasGiven token.old.me.0 }
    requires part { 0 < token.old.me.0.parts }
    ensures same { IsSameToken token.old token.new }
    ensures idle { token.new.me ≡ (passed_view token.old.me.0, token.old.me.1) }
    ensures places { ArePlacesOf token.new.me.0.places token.new.me.0.seen }
{
    let served = board.fetch_add::<PassOn>(token, SERVING, 1);
    let next = served.wrapping_add(1);
    if board.peek(TICKET) != next {
        bells.ring(next);
    }
}

// Puts a value back, and passes the turn on.
pub(crate) fn end_turn<V: Stands, M: Made<V>>(
    board: &Board<V>,
    bells: &Bells,
    token: &mut Token<V>,
    value: V,
    made: &M,
)
    requires own { IsOn board.now.table_id token.old }
    requires holding { IsHolding token.old.me.0 }
    requires slot { (0 < token.old.me.0.parts) × (token.old.me.1 ≡ (VALUE, None) ∷ []) }
    requires value { StandsFor V.stands value token.old.me.0 (list_of token.old.me.0.stage ++ M.entries made.now) }
    ensures same { IsSameToken token.old token.new }
    ensures passed { token.new.me ≡ (passed_view (given_view token.old.me.0 (M.entries made.now)), []) }
    ensures places { ArePlacesOf token.new.me.0.places token.new.me.0.seen }
{
    give_back::<V, M, Brand>(board, token, value, made);
    pass_on(board, bells, token);
}

// Whether the next ticket to be drawn is the one that is served.
pub(crate) fn is_next_served<V: Stands>(board: &Board<V>) -> bool
    requires own { board.now.table_id.words ≡ 2 }
{
    board.peek(SERVING) == board.peek(TICKET)
}

// Gives one part to a new seat.
pub(crate) fn divide<V: Stands>(board: &Board<V>, token: &mut Token<V>) -> Token<V>
    requires own { IsOn board.now.table_id token.old }
    requires idle { token.old.me.0.stage ≡ Idle }
    requires two_parts { 2 ≤ token.old.me.0.parts }
    ensures same { IsSameToken token.old token.new }
    ensures left { token.new.me ≡ (left_view token.old.me.0, token.old.me.1) }
    ensures right { (result.table_id ≡ token.old.table_id) × (result.me ≡ (right_view token.old.me.0, [])) }
{
    board.split_seat::<OnePart>(token)
}

// Takes in the parts and the places of another seat, and what it had seen, to be compared. A seat with
// the turn takes another along this way.
fn merge<V: Stands>(board: &Board<V>, token: &mut Token<V>, other: Token<V>)
    requires own { IsOn board.now.table_id token.old × IsOn board.now.table_id other }
    requires idle { (other.me.0.stage ≡ Idle) × (other.me.1 ≡ []) }
    requires compared { (token.old.me.0.other ≡ []) × (other.me.0.other ≡ []) }
    requires part { 0 < token.old.me.0.parts }
    ensures same { IsSameToken token.old token.new }
    ensures both { token.new.me ≡ (joined_view token.old.me.0 other.me.0, token.old.me.1) }
{
    board.join_seat::<AllParts>(token, other);
}

// Learns which of the two lists that the seat knows begins the other.
fn compare<V: Stands>(board: &Board<V>, token: &mut Token<V>)
    requires own { IsOn board.now.table_id token.old }
    ensures same { IsSameToken token.old token.new }
    ensures longer { token.new.me ≡ (compared_view token.old.me.0, token.old.me.1) }
    ensures histories { IsLonger token.old.me.0.seen token.old.me.0.other token.new.me.0.seen }
    ensures places { ArePlacesOf token.new.me.0.places token.new.me.0.seen }
{
    board.load::<Compare>(token, TICKET);
}

// Takes in another seat: its parts, its places, and the longer of the two beginnings of the history.
pub(crate) fn take_in<V: Stands>(board: &Board<V>, token: &mut Token<V>, other: Token<V>)
    requires own { IsOn board.now.table_id token.old × IsOn board.now.table_id other }
    requires idle { (token.old.me.0.stage ≡ Idle) × (other.me.0.stage ≡ Idle) × (other.me.1 ≡ []) }
    requires compared { (token.old.me.0.other ≡ []) × (other.me.0.other ≡ []) }
    requires part { 0 < token.old.me.0.parts }
    ensures same { IsSameToken token.old token.new }
    ensures both { token.new.me ≡ (compared_view (joined_view token.old.me.0 other.me.0), token.old.me.1) }
    ensures histories { IsLonger token.old.me.0.seen other.me.0.seen token.new.me.0.seen }
    ensures places { ArePlacesOf token.new.me.0.places token.new.me.0.seen }
{
    merge(board, token, other);
    compare(board, token);
}

// Adds the entries of `made` to the history, while the value is in the seat's hands.
fn add<V: Stands, M: Made<V>, J: Telling<V::Entry>>(
    board: &Board<V>,
    token: &mut Token<V>,
    made: &M,
)
    requires own { IsOn board.now.table_id token.old }
    requires holding { IsHolding token.old.me.0 }
    requires part { 0 < token.old.me.0.parts }
    requires told { J.told ≡ M.entries made.now }
    ensures same { IsSameToken token.old token.new }
    ensures added { token.new.me ≡ (added_view token.old.me.0 (M.entries made.now), token.old.me.1) }
    ensures history { IsPrefix token.old.me.0.other (list_of token.old.me.0.stage) }
    ensures places { ArePlacesOf token.new.me.0.places token.new.me.0.seen }
{
    let _ = made;
    board.load::<Add<J>>(token, SERVING);
}

// Sets down all but one part, and every place, in a new seat. The turn stays.
fn set_down<V: Stands>(board: &Board<V>, token: &mut Token<V>) -> Token<V>
    requires own { IsOn board.now.table_id token.old }
    requires compared { token.old.me.0.other ≡ [] }
    requires two_parts { 2 ≤ token.old.me.0.parts }
    ensures same { IsSameToken token.old token.new }
    ensures left { token.new.me ≡ (bare_view token.old.me.0, token.old.me.1) }
    ensures right { (result.table_id ≡ token.old.table_id) × (result.me ≡ (set_down_view token.old.me.0, [])) }
{
    board.split_seat::<SetDown>(token)
}

// Takes another seat along, adds the entries of `made` to the history, and sets the seat down with them.
pub(crate) fn lend_turn<V: Stands, M: Made<V>>(
    board: &Board<V>,
    token: &mut Token<V>,
    other: Token<V>,
    made: &M,
) -> Token<V>
    requires own { IsOn board.now.table_id token.old × IsOn board.now.table_id other }
    requires holding { IsHolding token.old.me.0 }
    requires idle { (other.me.0.stage ≡ Idle) × (other.me.1 ≡ []) }
    requires compared { (token.old.me.0.other ≡ []) × (other.me.0.other ≡ []) }
    requires parts { (0 < token.old.me.0.parts) × (0 < other.me.0.parts) }
    ensures same { IsSameToken token.old token.new }
    ensures own { token.new.me ≡ (bare_view (added_view (joined_view token.old.me.0 other.me.0) (M.entries made.now)), token.old.me.1) }
    ensures history { IsPrefix other.me.0.seen (list_of token.old.me.0.stage) }
    ensures other { (result.table_id ≡ token.old.table_id) × (result.me ≡ (set_down_view (added_view (joined_view token.old.me.0 other.me.0) (M.entries made.now)), [])) }
    ensures places { ArePlacesOf result.me.0.places result.me.0.seen }
{
    merge(board, token, other);
    add::<V, M, Brand>(board, token, made);
    set_down(board, token)
}

// Takes the parts of another seat, and nothing else of it.
pub(crate) fn fold<V: Stands>(board: &Board<V>, token: &mut Token<V>, other: Token<V>)
    requires own { IsOn board.now.table_id token.old × IsOn board.now.table_id other }
    requires idle { (other.me.0.stage ≡ Idle) × (other.me.1 ≡ []) }
    requires no_places { other.me.0.places ≡ [] }
    requires part { 0 < token.old.me.0.parts }
    ensures same { IsSameToken token.old token.new }
    ensures both { token.new.me ≡ (folded_view token.old.me.0 other.me.0, token.old.me.1) }
{
    board.join_seat::<Fold>(token, other);
}
