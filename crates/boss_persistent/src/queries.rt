ghost use Rattle.std.specs.Prelude.{◌≡◌, ℕ, ◌≤◌, ◌<◌, min, length, Some, IfSome, vec_capacity};
ghost use Rattle.std.specs.Option.{option_map_or};
ghost use Rattle.boss_model.specs.Lists.{member};
ghost use Rattle.boss_model.specs.Queries.{notices, stage_of, status, status_of};
ghost use Rattle.boss_model.specs.Renew.{transaction_of};
ghost use Rattle.boss_model.specs.Submit.{first_until};
ghost use Rattle.boss_booking.specs.Books.{reverts_on};
ghost use Rattle.boss_persistent.specs.Lasting.{IsKept, IsSoundOfSome, persistent_of};

use crate::lasting::Lasting;
use boss_model::{Answer, Items, Lease, Notice, ProcId, Refusal, Stage, Txn};
use boss_stages::Transaction;

/// How far the transaction has come.
pub fn status(lasting: &Lasting, txn: Txn) -> Answer
    requires sound { IsSoundOfSome lasting.now }
    requires kept { IsKept lasting.now }
    ensures { result ≡ status txn (persistent_of lasting.now) }
{
    match lasting.stages.find(txn) {
        Some(transaction) => status_of(lasting, transaction),
        None => Answer::Refused(Refusal::UnknownTxn),
    }
}

/// The same of a transaction that is kept, which its record tells.
fn status_of(lasting: &Lasting, transaction: &Transaction) -> Answer
    requires sound { IsSoundOfSome lasting.now }
    requires found { transaction_of (persistent_of lasting.now).txns transaction.now.transaction.txn ≡ Some transaction.now.transaction }
    requires reverting { (point : ℕ) → member point transaction.now.reverting ≡ reverts_on transaction.now.transaction.txn point (persistent_of lasting.now).pending }
    ensures { result ≡ status_of (Some transaction.now.transaction) (persistent_of lasting.now) }
{
    let live = transaction.live_parts();
    let pending = transaction.pending_parts();
    Answer::Status {
        txn: Txn(transaction.number()),
        owner: lasting.processes.name(transaction.owner()),
        stage: stage_of(live, pending),
        live,
        pending,
    }
}

/// The stage of a transaction with this number of live leases and of reversions under way.
fn stage_of(live: u64, pending: u64) -> Stage
    ensures { result ≡ stage_of live pending }
{
    if 0 < live {
        return Stage::Run;
    }
    if 0 < pending {
        return Stage::Revert;
    }
    Stage::Done
}

/// The notices of a process from a number on, at most `max` of them, which are put into `into`; those of no process are none.
pub fn notices(
    lasting: &Lasting,
    process: Option<ProcId>,
    from: u64,
    max: u64,
    into: Vec<Notice>,
) -> Answer
    requires process { IfSome process (λ process. process < length (persistent_of lasting.now).processes) }
    requires room { max ≤ vec_capacity into }
    ensures { result ≡ notices process from max (persistent_of lasting.now) }
{
    let mut list = into;
    let (first, next) = match process {
        Some(process) => lasting.processes.notices(process, from, max, &mut list),
        None => {
            list.clear();
            (1, 1)
        }
    };
    Answer::Notices {
        first,
        next,
        list: Items::from_vec(list),
    }
}

/// The first moment at which one of these leases ends, in milliseconds; 0 where there is none.
pub fn first_until(leases: &[Lease]) -> u64
    ensures { result ≡ first_until leases.now }
{
    let mut first = None;
    for lease in leases {
        first = Some(earlier(first, lease.until));
    }
    first.unwrap_or(0)
}

/// The first moment so far, or a further one where it is earlier.
pub fn earlier(first: Option<u64>, until: u64) -> u64
    ensures { result ≡ option_map_or (λ moment. min moment until) first until }
{
    match first {
        Some(moment) => moment.min(until),
        None => until,
    }
}
