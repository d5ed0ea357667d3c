//! Numbered requests: what a reply that is kept decides.

ghost use Rattle.std.specs.Prelude.{◌≡◌};
ghost use Rattle.std.specs.Option.{option_map};
ghost use Rattle.boss_model.specs.Replies.{answer_of};
ghost use Rattle.boss_persistent.specs.Replying.{decided_by, decision_answer};

use boss_model::{Acceptance, Answer, KeptReply, Refusal};

/// What the reply that is kept of a process makes of a request.
#[derive(Clone, Copy, Debug, PartialEq, Eq)]
pub enum Decision {
    /// The request was accepted before, and is answered the same again.
    Again(Acceptance),
    /// A request of this greater number was accepted.
    Stale { kept: u64 },
}

impl Decision {
    ghost use Rattle.boss_persistent.specs.Replying.{decision_answer};

    /// The answer that it comes to.
    pub fn answer(self) -> Answer
        ensures { result ≡ decision_answer self }
    {
        match self {
            Decision::Again(acceptance) => answer_of(&acceptance),
            Decision::Stale { kept } => Answer::Refused(Refusal::Stale { kept }),
        }
    }
}

/// What becomes of a request of this number, if the reply that is kept decides it: what was answered before where the number is
/// the same, and a refusal where it is a lesser one.
pub fn decided_by(seq: u64, reply: Option<KeptReply>) -> Option<Decision>
    ensures { option_map decision_answer result ≡ decided_by seq reply }
{
    let reply = reply?;
    if reply.seq == seq {
        return Some(Decision::Again(reply.acceptance));
    }
    if seq < reply.seq {
        return Some(Decision::Stale { kept: reply.seq });
    }
    None
}

/// The answer that an acceptance is.
pub fn answer_of(acceptance: &Acceptance) -> Answer
    ensures { result ≡ answer_of acceptance.now }
{
    match *acceptance {
        Acceptance::Accepted { txn, until } => Answer::Accepted { txn, until },
        Acceptance::Renewed { txn, until } => Answer::Renewed { txn, until },
        Acceptance::Cancelled { txn, at } => Answer::Cancelled { txn, at },
    }
}
