// What each seat knows of a counter, and the rule over all of it.
use atomic_table::{Seat, Shared, TableRule};
use std::snapshot::Snapshot;

/// A request that may be left at a counter. Contracts alone read its meanings, so the trait has no calls.
pub trait Errand {
    /// What a counter is told when it is made: it says which requests may lie there.
    type Key;
    /// What a request is answered by.
    type Reply;

    // Whether the request may lie at a counter with this key.
    ghost may: { Self.Key → Self → Type 0 };

    // Whether the reply answers the request.
    ghost answers: { Self → Self.Reply → Type 0 };
}

// What lies at a counter.
#[derive(Drop)]
pub enum Letter<Q, R> {
    Request(Q),
    Reply(R),
}

// What a seat has to do with the counter.
pub enum Part<Q> {
    Nothing,
    // It has the place to itself.
    Place,
    // It has left this request, and did not get its reply yet.
    Asked(Q),
    // It has taken this request, and owes the reply.
    Owes(Q),
}

// What a seat knows. No value of it is made.
pub struct View<K, Q> {
    pub key: K,
    pub part: Part<Q>,
}

pub type Known<Q> = View<<Q as Errand>::Key, Q>;

pub type Lying<Q> = Option<Letter<Q, <Q as Errand>::Reply>>;

pub type Told<Q> = Snapshot<<Q as Errand>::Key>;

// The rule of a counter.
pub struct OneRequest;

impl<Q: Errand> TableRule<Lying<Q>, Known<Q>, Told<Q>> for OneRequest {
    ghost use Rattle.boss_counters.specs.Rule.{IsKept, fresh_view};

    ghost holds = { λ key. IsKept Q.may Q.answers key.value };

    ghost first = { λ key. fresh_view key.value };
}

pub type Board<Q> = Shared<Lying<Q>, Known<Q>, Told<Q>, OneRequest>;

pub type Token<Q> = Seat<Lying<Q>, Known<Q>>;
