// The steps at a counter. Each takes the token in one state and leaves it in another.
ghost use Rattle.std.specs.Prelude.{◌≡◌, [], ◌∷◌, Some, None, IfSome, IfOk, IfErr};
ghost use Rattle.boss_counters.specs.Rule.{fresh_view};
ghost use Rattle.boss_counters.specs.Steps.{with_part, holding, IsOn};
ghost use Rattle.boss_counters.specs.declared.view.Letter.TheVariants.{Request, Reply};
ghost use Rattle.boss_counters.specs.declared.view.Part.TheVariants.{Place, Asked, Owes};

use crate::plays::{Accept, Arrive, Claim, Fetch, File, Finish, Recall};
use crate::view::{Board, Errand, Letter, Token};

// The only word.
const STATE: usize = 0;

// The only slot.
const LETTER: usize = 0;

// The numbers of the word. No request is there.
const FREE: u64 = 0;

// A seat has the place to itself.
const HELD: u64 = 1;

// A request lies there.
const ASKED: u64 = 2;

// A request was taken from there, and its reply is owed.
const SERVED: u64 = 3;

// A reply lies there.
const TOLD: u64 = 4;

// A new token, which has the place to itself, if the counter was free.
pub(crate) fn claim<Q: Errand>(board: &Board<Q>) -> Option<Token<Q>>
    requires own { (board.now.table_id.words ≡ 1) × (board.now.table_id.slots ≡ 1) }
    ensures place { IfSome result (λ token. (token.table_id ≡ board.now.table_id) × (token.me ≡ holding (with_part (fresh_view board.now.key.value) Place) None)) }
{
    let (found, mut token) = board.load_new_seat::<Arrive>(STATE);
    if found != FREE {
        return None;
    }
    if board.compare_exchange::<Claim>(&mut token, STATE, FREE, HELD) != FREE {
        return None;
    }
    Some(token)
}

// Leaves the request in a place that the token has to itself.
pub(crate) fn file<Q: Errand>(board: &Board<Q>, token: &mut Token<Q>, request: Q)
    requires own { IsOn board.now.table_id token.old }
    requires place { (token.old.me.0.part ≡ Place) × (token.old.me.1 ≡ (LETTER, None) ∷ []) }
    requires may { Q.may board.now.key.value request }
    ensures same { token.new.table_id ≡ token.old.table_id }
    ensures asked { token.new.me ≡ (with_part token.old.me.0 (Asked request), []) }
{
    let before = board.exchange(token, LETTER, Some(Letter::Request(request)));
    let None = before else { unreachable!() };
    board.store::<File>(token, STATE, ASKED);
}

// Clears a place that the token has to itself, and returns what lay there.
fn clear<Q: Errand>(board: &Board<Q>, mut token: Token<Q>) -> Option<Letter<Q, Q::Reply>>
    requires own { IsOn board.now.table_id token }
    requires place { token.me.0.part ≡ Place }
    requires letter { (letter : _) × (token.me.1 ≡ (LETTER, letter) ∷ []) }
    ensures letter { token.me.1 ≡ (LETTER, result) ∷ [] }
{
    let letter = board.exchange(&mut token, LETTER, None);
    board.store::<Finish>(&mut token, STATE, FREE);
    letter
}

// Takes the own request back, if nobody has taken it to serve it.
pub(crate) fn recall<Q: Errand>(board: &Board<Q>, mut token: Token<Q>) -> Result<Q, Token<Q>>
    requires own { IsOn board.now.table_id token }
    requires asked { (request : _) × (token.me.0.part ≡ Asked request) }
    requires no_slot { token.me.1 ≡ [] }
    ensures request { IfOk result (λ request. token.me.0.part ≡ Asked request) }
    ensures token { IfErr result (λ kept. (kept.table_id ≡ token.table_id) × (kept.me ≡ token.me)) }
{
    if board.compare_exchange::<Recall>(&mut token, STATE, ASKED, HELD) != ASKED {
        return Err(token);
    }
    let letter = clear(board, token);
    let Some(Letter::Request(request)) = letter else {
        unreachable!()
    };
    Ok(request)
}

// Takes the reply to the own request, if it is there.
pub(crate) fn fetch<Q: Errand>(board: &Board<Q>, mut token: Token<Q>) -> Result<Q::Reply, Token<Q>>
    requires own { IsOn board.now.table_id token }
    requires asked { (request : _) × (token.me.0.part ≡ Asked request) }
    requires no_slot { token.me.1 ≡ [] }
    ensures reply { IfOk result (λ reply. (request : _) × (token.me.0.part ≡ Asked request) × Q.answers request reply) }
    ensures token { IfErr result (λ kept. (kept.table_id ≡ token.table_id) × (kept.me ≡ token.me)) }
{
    if board.compare_exchange::<Fetch>(&mut token, STATE, TOLD, HELD) != TOLD {
        return Err(token);
    }
    let letter = clear(board, token);
    let Some(Letter::Reply(reply)) = letter else {
        unreachable!()
    };
    Ok(reply)
}

// Takes a request to serve it, if one lies there, with a new token that owes its reply.
pub(crate) fn accept<Q: Errand>(board: &Board<Q>) -> Option<(Q, Token<Q>)>
    requires own { (board.now.table_id.words ≡ 1) × (board.now.table_id.slots ≡ 1) }
    ensures may { IfSome result (λ taken. Q.may board.now.key.value taken.0) }
    ensures owes { IfSome result (λ taken. (taken.1.table_id ≡ board.now.table_id) × (taken.1.me ≡ holding (with_part (fresh_view board.now.key.value) (Owes taken.0)) None)) }
{
    let (found, mut token) = board.load_new_seat::<Arrive>(STATE);
    if found != ASKED {
        return None;
    }
    if board.compare_exchange::<Accept>(&mut token, STATE, ASKED, SERVED) != ASKED {
        return None;
    }
    let letter = board.exchange(&mut token, LETTER, None);
    let Some(Letter::Request(request)) = letter else {
        unreachable!()
    };
    Some((request, token))
}

// Leaves the reply that the token owes.
pub(crate) fn reply_to<Q: Errand>(board: &Board<Q>, mut token: Token<Q>, reply: Q::Reply)
    requires own { IsOn board.now.table_id token }
    requires owes { (request : _) × (token.me.0.part ≡ Owes request) × Q.answers request reply }
    requires slot { token.me.1 ≡ (LETTER, None) ∷ [] }
{
    let before = board.exchange(&mut token, LETTER, Some(Letter::Reply(reply)));
    let None = before else { unreachable!() };
    board.store::<Finish>(&mut token, STATE, TOLD);
}
