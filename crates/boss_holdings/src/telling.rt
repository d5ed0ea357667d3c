//! What is told of leases and reversions that end.

ghost use Rattle.std.specs.Prelude.{◌≡◌, ◌≤◌, ◌+◌, ◌++◌, length, vec_capacity, Some};
ghost use Rattle.boss_model.specs.Ends.{shortened};
ghost use Rattle.boss_model.specs.Reversions.{reversion_of};
ghost use Rattle.boss_model.specs.Submit.{cut, superseded};
ghost use Rattle.law_due.specs.Due.{last_of_lease};
ghost use Rattle.boss_booking.specs.Gathered.{ended_with, lease_tellings, pending_tellings, plain};
ghost use Rattle.law_due.specs.Playing.{IsEndable, IsPlayable};

use boss_booking::{Happening, Telling};
use boss_model::{Cause, Lease, Pending, PointId, ProcId, Txn, What};
use boss_reversion::{end_of, last_turn, over};

/// The last moment up to `n` at which something comes of a lease, its end or that of a step of its reversion, or `last` where
/// nothing does.
pub fn last_of_lease(lease: &Lease, last: u64, n: u64) -> u64
    requires { IsEndable lease.now }
    ensures { result ≡ last_of_lease n last lease.now }
{
    if n < lease.until {
        return last;
    }
    last_turn(lease.until, lease.revert.slice(), last.max(lease.until), n)
}

/// Tells that a lease ends by `n`, if it does, and that its reversion is over by then, if it is.
pub fn tell_lease(lease: &Lease, n: u64, told: &mut Vec<Telling>)
    requires lease { IsEndable lease.now }
    requires room { length told.old.items + length (lease_tellings n lease.now) ≤ vec_capacity told.old }
    ensures told { told.new.items ≡ told.old.items ++ lease_tellings n lease.now }
    ensures room { vec_capacity told.new ≡ vec_capacity told.old }
{
    if n < lease.until {
        return;
    }
    told.push_reserved(ended(lease, &Cause::Expired, lease.until));
    let end = over(lease.until, lease.revert.slice());
    if end <= n && !lease.revert.slice().is_empty() {
        told.push_reserved(reverted(lease.txn, lease.owner, lease.point, end));
    }
}

/// Tells that a reversion is over by `n`, if it is.
pub fn tell_pending(reversion: &Pending, n: u64, told: &mut Vec<Telling>)
    requires reversion { IsPlayable reversion.now }
    requires room { length told.old.items + length (pending_tellings n reversion.now) ≤ vec_capacity told.old }
    ensures told { told.new.items ≡ told.old.items ++ pending_tellings n reversion.now }
    ensures room { vec_capacity told.new ≡ vec_capacity told.old }
{
    let end = end_of(reversion);
    if end <= n && !reversion.steps.slice().is_empty() {
        told.push_reserved(reverted(reversion.txn, reversion.owner, reversion.point, end));
    }
}

/// The lease ends at a moment, and starts its reversion if it has one.
pub fn ended(lease: &Lease, cause: &Cause, at: u64) -> Telling
    ensures { result ≡ ended_with cause.now (reversion_of (shortened at lease.now)) }
{
    Telling {
        happening: Happening {
            at,
            txn: lease.txn,
            owner: lease.owner,
            what: What::Ended {
                point: lease.point,
                cause: *cause,
            },
        },
        reverts: !lease.revert.slice().is_empty(),
    }
}

/// A reversion of the transaction on the point is over.
fn reverted(txn: Txn, owner: ProcId, point: PointId, at: u64) -> Telling
    ensures { result ≡ plain (record { at = at; txn = txn; owner = owner; told = Some (What.Reverted point) }) }
{
    Telling {
        happening: Happening {
            at,
            txn,
            owner,
            what: What::Reverted { point },
        },
        reverts: false,
    }
}

/// A new lease takes the lease's slot; no reversion begins.
pub fn superseded(lease: &Lease, by: Txn, at: u64) -> Telling
    ensures { result ≡ plain (superseded by at lease.now) }
{
    Telling {
        happening: Happening {
            at,
            txn: lease.txn,
            owner: lease.owner,
            what: What::Ended {
                point: lease.point,
                cause: Cause::Superseded { by },
            },
        },
        reverts: false,
    }
}

/// A new lease takes the reversion's slot.
pub fn cut(reversion: &Pending, by: Txn, at: u64) -> Telling
    ensures { result ≡ plain (cut by at reversion.now) }
{
    Telling {
        happening: Happening {
            at,
            txn: reversion.txn,
            owner: reversion.owner,
            what: What::Cut {
                point: reversion.point,
                by,
            },
        },
        reverts: false,
    }
}
