ghost use Rattle.std.specs.Prelude.{◌≡◌, ◌≤◌, ◌<◌, ℕ, length};
ghost use Rattle.std.specs.Int.{w16, w32, w64};
ghost use Rattle.def_bytes.specs.Fields.{number, only};
ghost use Rattle.boss_model.specs.declared.event.Act.TheVariants as act;
ghost use Rattle.def_bytes.specs.Events.{is_number, kind_at, numbered, owned, points, renewal, submission, writes};
ghost use Rattle.def_bytes.specs.Parts.{moment, name};
ghost use Rattle.boss_records.specs.Given.{Finds, Gives};

use crate::numbers::{
    read_i64, read_natural8, read_natural32, read_u8, read_u16, read_u32, read_u64, read_within,
};
use crate::parts::{read_name, read_policy, read_steps};
use crate::spelled::{Spelled, read_items};
use crate::unread::{NoSpelling, Unread};
use boss_model::{
    Act, Items, LAST_MOMENT, LAST_NUMBER, MOST_WRITES, PointId, ProcId, Setting, Txn,
};
use std::alloc::Global;

impl Spelled for Setting {
    ghost use Rattle.boss_model.specs.declared.command.Setting.{Setting};
    ghost use Rattle.def_bytes.specs.Events.{setting};

    ghost Value = { Setting };

    ghost view = { λ x. x };

    ghost field = { setting };

    fn read(alloc: Global, bytes: &[u8]) -> Result<(Self, &[u8]), Unread> {
        let (point, rest) = read_u32(bytes)?;
        let (value, rest) = read_i64(rest)?;
        let (priority, rest) = read_natural8(rest)?;
        let (lease, rest) = read_natural32(rest)?;
        let (revert, rest) = read_steps(alloc, rest)?;
        let setting = Setting {
            point: PointId(point),
            value,
            priority,
            lease,
            revert: Items::from_vec(revert),
        };
        Ok((setting, rest))
    }
}

impl Spelled for PointId {
    ghost use Rattle.std.specs.Prelude.{ℕ};
    ghost use Rattle.std.specs.Int.{w32};
    ghost use Rattle.def_bytes.specs.Fields.{number};

    ghost Value = { ℕ };

    ghost view = { λ x. x };

    ghost field = { number w32 };

    fn read(_alloc: Global, bytes: &[u8]) -> Result<(Self, &[u8]), Unread> {
        let (place, rest) = read_u32(bytes)?;
        Ok((PointId(place), rest))
    }
}

/// A moment, in milliseconds: at most 2^60.
pub fn read_moment(bytes: &[u8]) -> Result<(u64, &[u8]), NoSpelling>
    ensures { Finds (λ x. (x.0, x.1.now)) result (moment.at bytes.now) }
{
    let (moment, rest) = read_u64(bytes)?;
    if moment > LAST_MOMENT {
        return Err(NoSpelling);
    }
    Ok((moment, rest))
}

/// A process's own number for a request: 1 to 2^62 - 1.
fn read_number(bytes: &[u8]) -> Result<(u64, &[u8]), NoSpelling>
    ensures { Finds (λ x. (x.0, x.1.now)) result ((only is_number (number w64)).at bytes.now) }
{
    let (seq, rest) = read_u64(bytes)?;
    if seq < 1 || seq >= LAST_NUMBER {
        return Err(NoSpelling);
    }
    Ok((seq, rest))
}

/// What a submit writes: 1 to 32 writes.
fn read_writes(alloc: Global, bytes: &[u8]) -> Result<(Vec<Setting>, &[u8]), Unread>
    ensures { Gives (λ x. (x.0.items, x.1.now)) result (writes.at bytes.now) }
{
    let (count, rest) = read_within(1, MOST_WRITES as u8, bytes)?;
    read_items(alloc, u32::from(count), rest)
}

/// The points that a renewal names: at most 32.
fn read_points(alloc: Global, bytes: &[u8]) -> Result<(Vec<PointId>, &[u8]), Unread>
    ensures { Gives (λ x. (x.0.items, x.1.now)) result (points.at bytes.now) }
{
    let (count, rest) = read_u8(bytes)?;
    if usize::from(count) > MOST_WRITES {
        return Err(Unread::NoSpelling);
    }
    read_items(alloc, u32::from(count), rest)
}

/// A name was taken on.
pub fn read_enrol(bytes: &[u8]) -> Result<(Act, &[u8]), Unread>
    ensures { Gives (λ x. (x.0, x.1.now)) result (kind_at act.Enrol name bytes.now) }
{
    match read_name(bytes) {
        Ok((name, rest)) => Ok((Act::Enrol { name }, rest)),
        Err(NoSpelling) => Err(Unread::NoSpelling),
    }
}

/// A submit without a number.
pub fn read_submit(alloc: Global, bytes: &[u8]) -> Result<(Act, &[u8]), Unread>
    ensures { Gives (λ x. (x.0, x.1.now)) result (kind_at (λ x. act.Submit x.0 x.1.0 x.1.1 0) (owned submission) bytes.now) }
{
    let (owner, rest) = read_u16(bytes)?;
    let (policy, rest) = read_policy(rest)?;
    let (writes, rest) = read_writes(alloc, rest)?;
    let act = Act::Submit {
        owner: ProcId(owner),
        policy,
        writes: Items::from_vec(writes),
        seq: 0,
    };
    Ok((act, rest))
}

/// A submit with a number.
pub fn read_numbered_submit(alloc: Global, bytes: &[u8]) -> Result<(Act, &[u8]), Unread>
    ensures { Gives (λ x. (x.0, x.1.now)) result (kind_at (λ x. act.Submit x.0 x.1.1.0 x.1.1.1 x.1.0) (numbered submission) bytes.now) }
{
    let (owner, rest) = read_u16(bytes)?;
    let (seq, rest) = read_number(rest)?;
    let (policy, rest) = read_policy(rest)?;
    let (writes, rest) = read_writes(alloc, rest)?;
    let act = Act::Submit {
        owner: ProcId(owner),
        policy,
        writes: Items::from_vec(writes),
        seq,
    };
    Ok((act, rest))
}

/// A renewal without a number.
pub fn read_renew(alloc: Global, bytes: &[u8]) -> Result<(Act, &[u8]), Unread>
    ensures { Gives (λ x. (x.0, x.1.now)) result (kind_at (λ x. act.Renew x.0 x.1.0 x.1.1.0 x.1.1.1 0) (owned renewal) bytes.now) }
{
    let (owner, rest) = read_u16(bytes)?;
    let (txn, rest) = read_u64(rest)?;
    let (length, rest) = read_natural32(rest)?;
    let (points, rest) = read_points(alloc, rest)?;
    let act = Act::Renew {
        owner: ProcId(owner),
        txn: Txn(txn),
        length,
        points: Items::from_vec(points),
        seq: 0,
    };
    Ok((act, rest))
}

/// A renewal with a number.
pub fn read_numbered_renew(alloc: Global, bytes: &[u8]) -> Result<(Act, &[u8]), Unread>
    ensures { Gives (λ x. (x.0, x.1.now)) result
        (kind_at (λ x. act.Renew x.0 x.1.1.0 x.1.1.1.0 x.1.1.1.1 x.1.0) (numbered renewal) bytes.now) }
{
    let (owner, rest) = read_u16(bytes)?;
    let (seq, rest) = read_number(rest)?;
    let (txn, rest) = read_u64(rest)?;
    let (length, rest) = read_natural32(rest)?;
    let (points, rest) = read_points(alloc, rest)?;
    let act = Act::Renew {
        owner: ProcId(owner),
        txn: Txn(txn),
        length,
        points: Items::from_vec(points),
        seq,
    };
    Ok((act, rest))
}

/// A cancel without a number.
pub fn read_cancel(bytes: &[u8]) -> Result<(Act, &[u8]), Unread>
    ensures { Gives (λ x. (x.0, x.1.now)) result (kind_at (λ x. act.Cancel x.0 x.1 0) (owned (number w64)) bytes.now) }
{
    let (owner, rest) = read_u16(bytes)?;
    let (txn, rest) = read_u64(rest)?;
    let act = Act::Cancel {
        owner: ProcId(owner),
        txn: Txn(txn),
        seq: 0,
    };
    Ok((act, rest))
}

/// A cancel with a number.
pub fn read_numbered_cancel(bytes: &[u8]) -> Result<(Act, &[u8]), Unread>
    ensures { Gives (λ x. (x.0, x.1.now)) result (kind_at (λ x. act.Cancel x.0 x.1.1 x.1.0) (numbered (number w64)) bytes.now) }
{
    let (owner, rest) = read_u16(bytes)?;
    let (seq, rest) = read_number(rest)?;
    let (txn, rest) = read_u64(rest)?;
    let act = Act::Cancel {
        owner: ProcId(owner),
        txn: Txn(txn),
        seq,
    };
    Ok((act, rest))
}

/// A process was lost.
pub fn read_gone(bytes: &[u8]) -> Result<(Act, &[u8]), Unread>
    ensures { Gives (λ x. (x.0, x.1.now)) result (kind_at act.Gone (number w16) bytes.now) }
{
    let (owner, rest) = read_u16(bytes)?;
    let act = Act::Gone {
        owner: ProcId(owner),
    };
    Ok((act, rest))
}

/// A device did not take the value of the lease in force.
pub fn read_fault(bytes: &[u8]) -> Result<(Act, &[u8]), Unread>
    ensures { Gives (λ x. (x.0, x.1.now)) result (kind_at act.Fault (number w32) bytes.now) }
{
    let (point, rest) = read_u32(bytes)?;
    let act = Act::Fault {
        point: PointId(point),
    };
    Ok((act, rest))
}
