ghost use Rattle.std.specs.Prelude.{◌≡◌, ℕ};
ghost use Rattle.def_bytes.specs.Fields.{tagged};
ghost use Rattle.boss_model.specs.declared.notice.What.TheVariants as what;
ghost use Rattle.def_bytes.specs.Events.{kind_at};
ghost use Rattle.def_bytes.specs.States.{causes, end, ended, reply, whats};
ghost use Rattle.boss_records.specs.Given.{Finds};

use crate::numbers::{read_i64, read_u8, read_u16, read_u32, read_u64};
use crate::parts::{read_policy, read_steps};
use crate::spelled::{Spelled, read_items};
use crate::unread::{NoSpelling, Unread};
use boss_model::{
    Acceptance, Cause, Items, KeptPart, KeptReply, KeptTxn, Lease, Notice, Pending, PointId,
    Priority, ProcId, Txn, What,
};
use std::alloc::Global;

impl Spelled for Txn {
    ghost use Rattle.std.specs.Prelude.{ℕ};
    ghost use Rattle.std.specs.Int.{w64};
    ghost use Rattle.def_bytes.specs.Fields.{number};

    ghost Value = { ℕ };

    ghost view = { λ x. x };

    ghost field = { number w64 };

    fn read(_alloc: Global, bytes: &[u8]) -> Result<(Self, &[u8]), Unread> {
        let (number, rest) = read_u64(bytes)?;
        Ok((Txn(number), rest))
    }
}

impl Spelled for Lease {
    ghost use Rattle.boss_model.specs.declared.state.Lease.{Lease};
    ghost use Rattle.def_bytes.specs.States.{lease};

    ghost Value = { Lease };

    ghost view = { λ x. x };

    ghost field = { lease };

    fn read(alloc: Global, bytes: &[u8]) -> Result<(Self, &[u8]), Unread> {
        let (txn, rest) = read_u64(bytes)?;
        let (owner, rest) = read_u16(rest)?;
        let (point, rest) = read_u32(rest)?;
        let (priority, rest) = read_u8(rest)?;
        let (value, rest) = read_i64(rest)?;
        let (until, rest) = read_u64(rest)?;
        let (policy, rest) = read_policy(rest)?;
        let (revert, rest) = read_steps(alloc, rest)?;
        let lease = Lease {
            txn: Txn(txn),
            owner: ProcId(owner),
            point: PointId(point),
            priority: Priority(priority),
            value,
            until,
            revert: Items::from_vec(revert),
            policy,
        };
        Ok((lease, rest))
    }
}

impl Spelled for Pending {
    ghost use Rattle.boss_model.specs.declared.state.Pending.{Pending};
    ghost use Rattle.def_bytes.specs.States.{pending};

    ghost Value = { Pending };

    ghost view = { λ x. x };

    ghost field = { pending };

    fn read(alloc: Global, bytes: &[u8]) -> Result<(Self, &[u8]), Unread> {
        let (txn, rest) = read_u64(bytes)?;
        let (owner, rest) = read_u16(rest)?;
        let (point, rest) = read_u32(rest)?;
        let (priority, rest) = read_u8(rest)?;
        let (start, rest) = read_u64(rest)?;
        let (steps, rest) = read_steps(alloc, rest)?;
        let pending = Pending {
            txn: Txn(txn),
            owner: ProcId(owner),
            point: PointId(point),
            priority: Priority(priority),
            steps: Items::from_vec(steps),
            start,
        };
        Ok((pending, rest))
    }
}

/// Why a lease ended.
pub fn read_cause(bytes: &[u8]) -> Result<(Cause, &[u8]), NoSpelling>
    ensures { Finds (λ x. (x.0, x.1.now)) result ((tagged causes).at bytes.now) }
{
    let (tag, rest) = read_u8(bytes)?;
    match tag {
        0 => Ok((Cause::Expired, rest)),
        1 => Ok((Cause::Cancelled, rest)),
        2 => Ok((Cause::Died, rest)),
        3 => Ok((Cause::Fault, rest)),
        4 => {
            let (by, rest) = read_u64(rest)?;
            Ok((Cause::Superseded { by: Txn(by) }, rest))
        }
        _ => Err(NoSpelling),
    }
}

impl Spelled for KeptPart {
    ghost use Rattle.boss_model.specs.Records.{Part};
    ghost use Rattle.boss_model.specs.Seen.{seen_part};
    ghost use Rattle.def_bytes.specs.States.{part};

    ghost Value = { Part };

    ghost view = { seen_part };

    ghost field = { part };

    fn read(_alloc: Global, bytes: &[u8]) -> Result<(Self, &[u8]), Unread> {
        let (point, rest) = read_u32(bytes)?;
        let (priority, rest) = read_u8(rest)?;
        let (tag, rest) = read_u8(rest)?;
        let point = PointId(point);
        let priority = Priority(priority);
        if tag == 0 {
            let part = KeptPart {
                point,
                priority,
                end: None,
            };
            return Ok((part, rest));
        }
        if tag != 1 {
            return Err(Unread::NoSpelling);
        }
        match read_end(rest) {
            Ok((end, rest)) => {
                let part = KeptPart {
                    point,
                    priority,
                    end: Some(end),
                };
                Ok((part, rest))
            }
            Err(NoSpelling) => Err(Unread::NoSpelling),
        }
    }
}

/// Why a lease ended, and when.
fn read_end(bytes: &[u8]) -> Result<((Cause, u64), &[u8]), NoSpelling>
    ensures { Finds (λ x. (record { cause = x.0.0; at = x.0.1 }, x.1.now)) result (end.at bytes.now) }
{
    match read_cause(bytes) {
        Ok((cause, rest)) => {
            let (at, rest) = read_u64(rest)?;
            Ok(((cause, at), rest))
        }
        Err(none) => Err(none),
    }
}

impl Spelled for KeptTxn {
    ghost use Rattle.boss_model.specs.Records.{Transaction};
    ghost use Rattle.boss_model.specs.Seen.{seen_txn};
    ghost use Rattle.def_bytes.specs.States.{transaction};

    ghost Value = { Transaction };

    ghost view = { seen_txn };

    ghost field = { transaction };

    fn read(alloc: Global, bytes: &[u8]) -> Result<(Self, &[u8]), Unread> {
        let (txn, rest) = read_u64(bytes)?;
        let (owner, rest) = read_u16(rest)?;
        let (policy, rest) = read_policy(rest)?;
        let (count, rest) = read_u8(rest)?;
        let (parts, rest) = read_items(alloc, u32::from(count), rest)?;
        let kept = KeptTxn {
            txn: Txn(txn),
            owner: ProcId(owner),
            policy,
            parts: Items::from_vec(parts),
        };
        Ok((kept, rest))
    }
}

/// What a notice tells.
fn read_what(bytes: &[u8]) -> Result<(What, &[u8]), NoSpelling>
    ensures { Finds (λ x. (x.0, x.1.now)) result ((tagged whats).at bytes.now) }
{
    let (tag, rest) = read_u8(bytes)?;
    match tag {
        1 => {
            let (point, rest) = read_u32(rest)?;
            let point = PointId(point);
            Ok((What::Fault { point }, rest))
        }
        2 => read_ended(rest),
        3 => {
            let (point, rest) = read_u32(rest)?;
            let point = PointId(point);
            Ok((What::Reverted { point }, rest))
        }
        4 => {
            let (point, rest) = read_u32(rest)?;
            let (by, rest) = read_u64(rest)?;
            let point = PointId(point);
            Ok((What::Cut { point, by: Txn(by) }, rest))
        }
        5 => Ok((What::Done, rest)),
        _ => Err(NoSpelling),
    }
}

/// A lease ended.
fn read_ended(bytes: &[u8]) -> Result<(What, &[u8]), NoSpelling>
    ensures { Finds (λ x. (x.0, x.1.now)) result (kind_at (λ x. what.Ended x.0 x.1) ended bytes.now) }
{
    let (point, rest) = read_u32(bytes)?;
    let point = PointId(point);
    match read_cause(rest) {
        Ok((cause, rest)) => Ok((What::Ended { point, cause }, rest)),
        Err(none) => Err(none),
    }
}

/// The number of a notice takes no bytes: it is 0 here, until it is known which of the last ones it is.
impl Spelled for Notice {
    ghost use Rattle.std.specs.Prelude.{ℕ};
    ghost use Rattle.boss_model.specs.declared.notice.What.{What};
    ghost use Rattle.def_bytes.specs.States.{told, told_of};

    ghost Value = { ℕ × (ℕ × What) };

    ghost view = { told_of };

    ghost field = { told };

    fn read(_alloc: Global, bytes: &[u8]) -> Result<(Self, &[u8]), Unread> {
        let (at, rest) = read_u64(bytes)?;
        let (txn, rest) = read_u64(rest)?;
        match read_what(rest) {
            Ok((what, rest)) => {
                let notice = Notice {
                    number: 0,
                    at,
                    txn: Txn(txn),
                    what,
                };
                Ok((notice, rest))
            }
            Err(NoSpelling) => Err(Unread::NoSpelling),
        }
    }
}

/// What a process's last numbered request that was accepted was answered; version 1 has no bytes for it.
pub fn read_reply(version: u8, bytes: &[u8]) -> Result<(Option<KeptReply>, &[u8]), NoSpelling>
    ensures { Finds (λ x. (x.0, x.1.now)) result ((reply version).at bytes.now) }
{
    if version == 1 {
        return Ok((None, bytes));
    }
    let (tag, rest) = read_u8(bytes)?;
    match tag {
        0 => Ok((None, rest)),
        1 => {
            let (seq, rest) = read_u64(rest)?;
            let (txn, rest) = read_u64(rest)?;
            let (until, rest) = read_u64(rest)?;
            let txn = Txn(txn);
            let acceptance = Acceptance::Accepted { txn, until };
            Ok((Some(KeptReply { seq, acceptance }), rest))
        }
        2 => {
            let (seq, rest) = read_u64(rest)?;
            let (txn, rest) = read_u64(rest)?;
            let (until, rest) = read_u64(rest)?;
            let txn = Txn(txn);
            let acceptance = Acceptance::Renewed { txn, until };
            Ok((Some(KeptReply { seq, acceptance }), rest))
        }
        3 => {
            let (seq, rest) = read_u64(rest)?;
            let (txn, rest) = read_u64(rest)?;
            let (at, rest) = read_u64(rest)?;
            let txn = Txn(txn);
            let acceptance = Acceptance::Cancelled { txn, at };
            Ok((Some(KeptReply { seq, acceptance }), rest))
        }
        _ => Err(NoSpelling),
    }
}
