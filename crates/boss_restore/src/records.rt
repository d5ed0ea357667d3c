//! The records of transactions are put back, each with the points on which it reverts.

ghost use Rattle.std.specs.Prelude.{◌≡◌, ◌+◌, ◌==◌, ◌<◌, ◌≤◌, false, [], find, map, IfOk};
ghost use Rattle.std.specs.List.{AllByRecursion};
ghost use Rattle.std.specs.Option.{option_map_or};
ghost use Rattle.boss_model.specs.Limits.{done_kept};
ghost use Rattle.boss_model.specs.Seen.{seen, seen_part, seen_txn};
ghost use Rattle.boss_model.specs.Sound.{Rising, number_rank};
ghost use Rattle.boss_booking.specs.Books.{StandsFor};
ghost use Rattle.boss_holdings.specs.Putting.{in_place};
ghost use Rattle.boss_restore.specs.Restoring.{IsSoundOver, is_played, reverting_points, tracked};

use boss_holdings::Holdings;
use boss_model::{Kept, KeptPart, KeptTxn, NoMemory, PointId, Priority, Txn};
use boss_stages::{Stages, Transaction};
use std::alloc::Global;

/// The greatest level of a slot.
const LAST_LEVEL: u8 = 16;

/// The records of a sound state whose leases and reversions are back in their slots: those of all its transactions, which know
/// the reversions under way, and which of them are done, in the order of becoming done.
pub fn records_put_back(alloc: Global, holdings: &Holdings, kept: &Kept) -> Result<Stages, NoMemory>
    requires sound { IsSoundOver holdings.now.points (seen kept.now) }
    requires pending { holdings.now.pending ≡ kept.now.pending }
    ensures stands { IfOk result (λ stages. StandsFor stages (seen kept.entry.now)) }
    ensures room { IfOk result (λ stages. holdings.now.points + done_kept ≤ stages.room) }
{
    let mut stages = transactions_put_back(alloc, holdings, kept.txns.slice())?;
    stages.put_back_done(kept.done.slice());
    Ok(stages)
}

/// The records of these transactions, none of them among the done ones.
fn transactions_put_back(
    alloc: Global,
    holdings: &Holdings,
    txns: &[KeptTxn],
) -> Result<Stages, NoMemory>
    requires numbers { Rising number_rank (map seen_txn txns.now) }
    requires points { AllByRecursion (λ kept. AllByRecursion (λ part. part.point < holdings.now.points) kept.parts) txns.now }
    ensures kept { IfOk result (λ stages. stages.kept ≡ map (tracked holdings.now.pending) (map seen_txn txns.now)) }
    ensures done { IfOk result (λ stages. stages.done ≡ []) }
    ensures room { IfOk result (λ stages. holdings.now.points + done_kept ≤ stages.room) }
{
    let mut stages = Stages::new(alloc, holdings.points())?;
    for kept in txns {
        let transaction = transaction_put_back(alloc, holdings, kept)?;
        stages.reserve()?;
        stages.add(transaction);
    }
    Ok(stages)
}

/// The record of this transaction.
fn transaction_put_back(
    alloc: Global,
    holdings: &Holdings,
    kept: &KeptTxn,
) -> Result<Transaction, NoMemory>
    requires { AllByRecursion (λ part. part.point < holdings.now.points) kept.now.parts }
    ensures { IfOk result (λ transaction. transaction ≡ tracked holdings.now.pending (seen_txn kept.now)) }
{
    let reverting = reverting_points(alloc, holdings, kept.txn, kept.parts.slice())?;
    Transaction::put_back(alloc, kept, &reverting)
}

/// The points of these parts of the transaction in whose slots a reversion of it is under way.
fn reverting_points(
    alloc: Global,
    holdings: &Holdings,
    txn: Txn,
    parts: &[KeptPart],
) -> Result<Vec<PointId>, NoMemory>
    requires { AllByRecursion (λ part. part.point < holdings.now.points) parts.now }
    ensures { IfOk result (λ points. points.items ≡ reverting_points holdings.now.pending txn (map seen_part parts.now)) }
{
    let mut points = Vec::new(alloc);
    for part in parts {
        if is_played(holdings, txn, part) {
            points.push(part.point)?;
        }
    }
    Ok(points)
}

/// Whether this part of the transaction ended, and a reversion of it is under way in its slot.
fn is_played(holdings: &Holdings, txn: Txn, part: &KeptPart) -> bool
    requires { part.now.point < holdings.now.points }
    ensures { result ≡ is_played holdings.now.pending txn (seen_part part.now) }
{
    part.end.is_some()
        && 1 <= part.priority.0
        && part.priority.0 <= LAST_LEVEL
        && plays(holdings, txn, part.point, part.priority)
}

/// Whether a reversion of the transaction is under way in this slot.
fn plays(holdings: &Holdings, txn: Txn, point: PointId, priority: Priority) -> bool
    requires point { point < holdings.now.points }
    requires level { (1 ≤ priority) × (priority ≤ 16) }
    ensures { result ≡ option_map_or (λ reversion. reversion.txn == txn) (find (in_place point priority) holdings.now.pending) false }
{
    match holdings.pending_at(point, priority) {
        Some(reversion) => reversion.txn == txn,
        None => false,
    }
}
