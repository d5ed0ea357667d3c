//! Whether an act is allowed, asked before time passes: what is not allowed leaves everything as it is.

ghost use Rattle.std.specs.Prelude.{◌≡◌, ◌==◌, nat_lt, ◌&&◌, ◌≤◌, ◌<◌, false, is_none, length};
ghost use Rattle.std.specs.List.{AllByRecursion, list_all, list_any};
ghost use Rattle.std.specs.Option.{option_map_or};
ghost use Rattle.boss_model.specs.Acts.{is_known_point, is_known_process};
ghost use Rattle.boss_model.specs.Limits.{most_writes};
ghost use Rattle.boss_model.specs.Renew.{named_parts, transaction_of, wrote};
ghost use Rattle.boss_model.specs.Sound.{IsSoundPersistent};
ghost use Rattle.boss_model.specs.Submit.{is_length, submit_refused};
ghost use Rattle.law_spelling.specs.Ranges.{IsAct};
ghost use Rattle.law_effects.specs.Changes.{is_new};
ghost use Rattle.law_effects.specs.Early.{early, if_owned, is_cancellable, is_renewable, open_still, slot_lease};
ghost use Rattle.boss_persistent.specs.Lasting.{IsSoundOfSome, persistent_of};
ghost use Rattle.boss_persistent.specs.Asking.{HasSlot, is_open_on};

use crate::lasting::Lasting;
use crate::refusals::{full, is_length, submit_refused};
use boss_model::{Act, Actuator, LEVELS, PointId, Priority, ProcId, Setting, Txn};
use boss_stages::Part;

/// Whether an act is not refused at moment `n`, once time has passed up to then. Its process and its points may be unknown.
pub fn is_allowed(plant: &[Actuator], lasting: &Lasting, act: &Act, n: u64) -> bool
    requires act { IsAct act.now }
    requires sound { IsSoundPersistent plant.now (persistent_of lasting.now) }
    requires points { length plant.now ≡ lasting.now.holdings.points }
    ensures { result ≡ early plant.now n act.now (persistent_of lasting.now) }
{
    match act {
        Act::Enrol { name } => lasting.processes.named(name).is_some() || full(lasting).is_none(),
        Act::Submit {
            owner,
            writes,
            seq,
            ..
        } => is_submit_allowed(plant, lasting, *owner, writes.slice(), *seq),
        Act::Renew {
            owner,
            txn,
            length,
            points,
            seq,
        } => {
            are_known_points(plant, points.slice())
                && is_renewal_allowed(lasting, *owner, *txn, *length, points.slice(), *seq, n)
        }
        Act::Cancel { owner, txn, seq } => is_cancel_allowed(lasting, *owner, *txn, *seq, n),
        Act::Gone { owner } => is_known_process(lasting, *owner),
        Act::Tick => true,
        Act::Fault { point } => is_known_point(plant, *point) && is_held(lasting, *point, n),
    }
}

/// Whether a submit of these writes, all on known points, is allowed.
fn is_submit_allowed(
    plant: &[Actuator],
    lasting: &Lasting,
    owner: ProcId,
    writes: &[Setting],
    seq: u64,
) -> bool
    requires { length writes.now ≤ most_writes }
    ensures { result ≡ (list_all (λ write. is_known_point plant.now write.point) writes.now
        && (is_known_process (persistent_of lasting.now) owner && (is_new owner seq (persistent_of lasting.now)
        && is_none (submit_refused plant.now writes.now (persistent_of lasting.now))))) }
{
    are_known_writes(plant, writes)
        && is_request_of(lasting, owner, seq)
        && submit_refused(plant, writes, lasting).is_none()
}

/// Whether the writes are all on known points.
fn are_known_writes(plant: &[Actuator], writes: &[Setting]) -> bool
    ensures { result ≡ list_all (λ write. is_known_point plant.now write.point) writes.now }
{
    writes
        .iter()
        .all(|write| is_known_point(plant, write.point))
}

/// Whether a renewal of leases on these points is allowed, or of all leases of the transaction where none is named.
fn is_renewal_allowed(
    lasting: &Lasting,
    owner: ProcId,
    txn: Txn,
    length: i64,
    points: &[PointId],
    seq: u64,
    n: u64,
) -> bool
    requires { IsSoundOfSome lasting.now }
    ensures { result ≡ (is_known_process (persistent_of lasting.now) owner && (is_new owner seq (persistent_of lasting.now)
        && (is_length length && if_owned owner (is_renewable n (persistent_of lasting.now).leases points.now) (transaction_of (persistent_of lasting.now).txns txn)))) }
{
    is_request_of(lasting, owner, seq)
        && is_length(length)
        && is_renewable(lasting, owner, txn, points, n)
}

/// Whether a cancel of the transaction is allowed.
fn is_cancel_allowed(lasting: &Lasting, owner: ProcId, txn: Txn, seq: u64, n: u64) -> bool
    requires { IsSoundOfSome lasting.now }
    ensures { result ≡ (is_known_process (persistent_of lasting.now) owner && (is_new owner seq (persistent_of lasting.now)
        && if_owned owner (is_cancellable n (persistent_of lasting.now).leases) (transaction_of (persistent_of lasting.now).txns txn))) }
{
    is_request_of(lasting, owner, seq) && is_cancellable(lasting, owner, txn, n)
}

/// Whether the points are all known.
fn are_known_points(plant: &[Actuator], points: &[PointId]) -> bool
    ensures { result ≡ list_all (is_known_point plant.now) points.now }
{
    points.iter().all(|point| is_known_point(plant, *point))
}

fn is_known_point(plant: &[Actuator], point: PointId) -> bool
    ensures { result ≡ is_known_point plant.now point }
{
    (point.0 as usize) < plant.len()
}

fn is_known_process(lasting: &Lasting, process: ProcId) -> bool
    ensures { result ≡ is_known_process (persistent_of lasting.now) process }
{
    (process.0 as usize) < lasting.processes.count()
}

/// Whether a request of this number, 0 for none, is one of a known process and no reply decides it.
fn is_request_of(lasting: &Lasting, owner: ProcId, seq: u64) -> bool
    ensures { result ≡ (is_known_process (persistent_of lasting.now) owner && is_new owner seq (persistent_of lasting.now)) }
{
    is_known_process(lasting, owner) && lasting.processes.decided(owner, seq).is_none()
}

/// Whether the process may renew the leases of the transaction on these points, or all of them where none is named: it wrote the
/// points, and none of the parts meant ends up to moment `n`.
fn is_renewable(lasting: &Lasting, owner: ProcId, txn: Txn, points: &[PointId], n: u64) -> bool
    requires { IsSoundOfSome lasting.now }
    ensures { result ≡ if_owned owner (is_renewable n (persistent_of lasting.now).leases points.now) (transaction_of (persistent_of lasting.now).txns txn) }
{
    let Some(transaction) = lasting.stages.find(txn) else {
        return false;
    };
    if transaction.owner() != owner {
        return false;
    }
    are_meant_open(lasting, transaction.parts(), points, n)
}

/// Whether these points were all written, and no part on them ends up to moment `n`; no part at all, where no point is named.
fn are_meant_open(lasting: &Lasting, parts: &[Part], points: &[PointId], n: u64) -> bool
    requires { AllByRecursion (HasSlot lasting.now.holdings.points) parts.now }
    ensures { result ≡ (list_all (wrote parts.now) points.now && list_all (open_still n (persistent_of lasting.now).leases) (named_parts points.now parts.now)) }
{
    if points.is_empty() {
        return are_open(lasting, parts, n);
    }
    are_open_on(lasting, parts, points, n)
}

/// Whether no part ends up to moment `n`.
fn are_open(lasting: &Lasting, parts: &[Part], n: u64) -> bool
    requires { AllByRecursion (HasSlot lasting.now.holdings.points) parts.now }
    ensures { result ≡ list_all (open_still n (persistent_of lasting.now).leases) parts.now }
{
    for part in parts {
        if !is_open_still(lasting, part, n) {
            return false;
        }
    }
    true
}

/// Whether there is a part on each of these points, and it does not end up to moment `n`.
fn are_open_on(lasting: &Lasting, parts: &[Part], points: &[PointId], n: u64) -> bool
    requires { AllByRecursion (HasSlot lasting.now.holdings.points) parts.now }
    ensures { result ≡ list_all (is_open_on n (persistent_of lasting.now).leases parts.now) points.now }
{
    for point in points {
        if !is_open_on(lasting, parts, *point, n) {
            return false;
        }
    }
    true
}

/// Whether there is a part on the point, and it does not end up to moment `n`.
fn is_open_on(lasting: &Lasting, parts: &[Part], point: PointId, n: u64) -> bool
    requires { AllByRecursion (HasSlot lasting.now.holdings.points) parts.now }
    ensures { result ≡ is_open_on n (persistent_of lasting.now).leases parts.now point }
{
    for part in parts {
        if part.point == point {
            return is_open_still(lasting, part, n);
        }
    }
    false
}

/// Whether the process may cancel the transaction: one of its parts does not end up to moment `n`.
fn is_cancellable(lasting: &Lasting, owner: ProcId, txn: Txn, n: u64) -> bool
    requires { IsSoundOfSome lasting.now }
    ensures { result ≡ if_owned owner (is_cancellable n (persistent_of lasting.now).leases) (transaction_of (persistent_of lasting.now).txns txn) }
{
    let Some(transaction) = lasting.stages.find(txn) else {
        return false;
    };
    if transaction.owner() != owner {
        return false;
    }
    has_open(lasting, transaction.parts(), n)
}

/// Whether a part does not end up to moment `n`.
fn has_open(lasting: &Lasting, parts: &[Part], n: u64) -> bool
    requires { AllByRecursion (HasSlot lasting.now.holdings.points) parts.now }
    ensures { result ≡ list_any (open_still n (persistent_of lasting.now).leases) parts.now }
{
    for part in parts {
        if is_open_still(lasting, part, n) {
            return true;
        }
    }
    false
}

/// Whether the part has no end, and gets none up to moment `n`.
fn is_open_still(lasting: &Lasting, part: &Part, n: u64) -> bool
    requires { HasSlot lasting.now.holdings.points part.now }
    ensures { result ≡ open_still n (persistent_of lasting.now).leases part.now }
{
    part.is_live() && lasts(lasting, part.point, part.priority, n)
}

/// Whether a lease holds the slot, and does not end up to moment `n`.
fn lasts(lasting: &Lasting, point: PointId, priority: Priority, n: u64) -> bool
    requires point { point < lasting.now.holdings.points }
    requires level { (1 ≤ priority) × (priority ≤ 16) }
    ensures { result ≡ option_map_or (λ lease. nat_lt n lease.until) (slot_lease (persistent_of lasting.now).leases point priority) false }
{
    match lasting.lease_at(point, priority) {
        Some(lease) => n < lease.until,
        None => false,
    }
}

/// Whether a lease on the point does not end up to moment `n`.
fn is_held(lasting: &Lasting, point: PointId, n: u64) -> bool
    requires sound { IsSoundOfSome lasting.now }
    requires point { point < lasting.now.holdings.points }
    ensures { result ≡ list_any (λ lease. nat_lt n lease.until && (lease.point == point)) (persistent_of lasting.now).leases }
{
    for place in 0..LEVELS {
        if lasts(lasting, point, Priority(place + 1), n) {
            return true;
        }
    }
    false
}
