// The counter and its calls.
ghost use Rattle.std.specs.Prelude.{◌≡◌, IfOk, IfErr, IfSome};
ghost use Rattle.boss_counters.specs.Matters.{at_counter, IsAt};

use crate::slips::{Duty, Slip};
use crate::steps::{accept, claim, fetch, file, recall, reply_to};
use crate::view::{Errand, Known, Lying, OneRequest, Told};
use atomic_table::Table;
use std::alloc::{AllocError, Global};
use std::marker::Model;
use std::snapshot::Snapshot;

/// A place for one request and its reply.
///
/// Whoever finds it free may post a request. The request lies there until its caller withdraws it, or
/// somebody takes it to serve it. The reply lies there until the caller collects it, and then the counter
/// is free again. Each reply answers the request that it comes back for.
///
/// To a contract a counter is a `Keyed`: its table, and the key that it was made with, which says which
/// requests may lie there.
///
/// Not promised: that a request is ever served. No call waits, so a caller looks again when it likes.
#[derive(Drop)]
pub struct Counter<Q: Errand> {
    table: Table<Lying<Q>, Known<Q>, Told<Q>, OneRequest, Global>,
}

impl<Q: Errand> Model for Counter<Q> {
    ghost use Rattle.std.specs.Prelude.{◌≡◌};
    ghost use Rattle.boss_counters.specs.Matters.{Keyed};

    ghost Value = { Keyed Q.Key };

    ghost view = { λ c. record { table = c.table.shared.table_id; key = c.table.shared.key.value } };

    ghost invariant = { λ c. (c.table.shared.table_id.words ≡ 1) × (c.table.shared.table_id.slots ≡ 1) };
}

impl<Q: Errand> Counter<Q> {
    /// A new counter, which is free. The key is not read: the counter stands for what it says now.
    ///
    /// The only error is want of memory.
    pub fn new(alloc: Global, key: &Q::Key) -> Result<Counter<Q>, AllocError>
        ensures key { IfOk result (λ made. made.key ≡ key.now) }
    {
        let (table, _token) = Table::vacant(alloc, &[0], 1, &Snapshot::of(key))?;
        Ok(Counter { table })
    }

    /// Leaves a request at the counter, and gives the slip for it. Where the counter is not free, the request
    /// comes back as it was, and nothing has changed.
    ///
    /// The request has to be one that may lie at this counter. The call takes no memory and does not wait.
    pub fn post(&self, request: Q) -> Result<Slip<Q>, Q>
        requires may { Q.may self.now.key request }
        ensures posted { IfOk result (λ slip. slip ≡ at_counter self.now request) }
        ensures refused { IfErr result (λ back. back ≡ request) }
    {
        let board = &self.table.shared;
        let Some(mut token) = claim(board) else {
            return Err(request);
        };
        let posted = Snapshot::of(&request);
        file(board, &mut token, request);
        Ok(Slip {
            token,
            request: posted,
        })
    }

    /// Takes a request back, and frees the counter. Where somebody has taken it to serve it, the slip comes
    /// back as it was.
    ///
    /// The slip has to be one of this counter. The call takes no memory and does not wait.
    pub fn withdraw(&self, slip: Slip<Q>) -> Result<Q, Slip<Q>>
        requires own { IsAt self.now slip }
        ensures withdrawn { IfOk result (λ request. request ≡ slip.request) }
        ensures kept { IfErr result (λ kept. kept ≡ slip) }
    {
        let Slip { token, request } = slip;
        match recall(&self.table.shared, token) {
            Ok(back) => Ok(back),
            Err(token) => Err(Slip { token, request }),
        }
    }

    /// Takes the reply to a request, and frees the counter. Where no reply is there yet, the slip comes back
    /// as it was.
    ///
    /// The slip has to be one of this counter. The call takes no memory and does not wait.
    pub fn collect(&self, slip: Slip<Q>) -> Result<Q::Reply, Slip<Q>>
        requires own { IsAt self.now slip }
        ensures answered { IfOk result (λ reply. Q.answers slip.request reply) }
        ensures kept { IfErr result (λ kept. kept ≡ slip) }
    {
        let Slip { token, request } = slip;
        match fetch(&self.table.shared, token) {
            Ok(reply) => Ok(reply),
            Err(token) => Err(Slip { token, request }),
        }
    }

    /// Takes the request that lies at the counter, with the duty to reply to it. Without one it answers none,
    /// and nothing has changed.
    ///
    /// Each request is taken once. The call takes no memory and does not wait.
    pub fn serve(&self) -> Option<(Q, Duty<Q>)>
        ensures may { IfSome result (λ taken. Q.may self.now.key taken.0) }
        ensures duty { IfSome result (λ taken. taken.1 ≡ at_counter self.now taken.0) }
    {
        let (request, token) = accept(&self.table.shared)?;
        let taken = Snapshot::of(&request);
        Some((
            request,
            Duty {
                token,
                request: taken,
            },
        ))
    }

    /// Leaves the reply at the counter, where the slip of its request finds it.
    ///
    /// The duty has to be one of this counter, and the reply has to answer its request. The call takes no
    /// memory and does not wait.
    pub fn tell(&self, duty: Duty<Q>, reply: Q::Reply)
        requires own { IsAt self.now duty }
        requires answers { Q.answers duty.request reply }
    {
        let Duty { token, request: _ } = duty;
        reply_to(&self.table.shared, token, reply);
    }
}
