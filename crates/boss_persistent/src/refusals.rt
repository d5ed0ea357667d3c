ghost use Rattle.std.specs.Prelude.{◌≡◌, ◌≤◌, ◌<◌, ◌^◌, ◌==◌, [], not, if◌then◌else◌, length, map, filter_map, position, Some, None, IfSome};
ghost use Rattle.std.specs.List.{AllByRecursion, list_any};
ghost use Rattle.std.specs.Option.{option_and_then, option_map};
ghost use Rattle.boss_model.specs.Catalogue.{fits_at};
ghost use Rattle.boss_model.specs.Ends.{cancel_refused, is_of};
ghost use Rattle.boss_model.specs.Limits.{most_writes};
ghost use Rattle.boss_model.specs.Lists.{first_some, latest};
ghost use Rattle.boss_model.specs.Processes.{attach_refused, is_full, session_of};
ghost use Rattle.boss_model.specs.Renew.{named_parts, part_on, renew_refused, wrote};
ghost use Rattle.boss_model.specs.Submit.{is_length, is_level, is_reversion, repeated, submit_refused};
ghost use Rattle.boss_persistent.specs.Refusals.{parts_refused};
ghost use Rattle.boss_persistent.specs.Lasting.{IsSoundOfSome, persistent_of};

use crate::attached::{Attachment, process_of, session_of};
use crate::lasting::Lasting;
use boss_model::{
    Actuator, LAST_NUMBER, LONGEST_LEASE, Lease, MOST_PROCESSES, Name, PointId, ProcId, Refusal,
    SessionId, Setting, Txn, fits_at, is_level, is_reversion,
};
use boss_stages::{End, Part};

/// Why a submit is refused, if it is.
pub fn submit_refused(plant: &[Actuator], writes: &[Setting], lasting: &Lasting) -> Option<Refusal>
    requires { length writes.now ≤ most_writes }
    ensures { result ≡ submit_refused plant.now writes.now (persistent_of lasting.now) }
{
    if let Some(index) = repeated(writes) {
        return Some(Refusal::SamePoint { index });
    }
    if let Some(index) = first_bad_level(writes) {
        return Some(Refusal::BadPriority { index });
    }
    if let Some(index) = first_out_of_range(plant, writes) {
        return Some(Refusal::OutOfRange { index });
    }
    if let Some(index) = first_bad_lease(writes) {
        return Some(Refusal::BadLease { index });
    }
    if let Some(index) = first_bad_reversion(plant, writes) {
        return Some(Refusal::BadReversion { index });
    }
    if lasting.next_txn == LAST_NUMBER {
        return Some(Refusal::Spent);
    }
    None
}

/// The first place whose point stands at an earlier one.
fn repeated(writes: &[Setting]) -> Option<u32>
    requires { length writes.now ≤ most_writes }
    ensures { result ≡ repeated [] 0 writes.now }
{
    for place in 0..writes.len() {
        if has_point(&writes[..place], writes[place].point) {
            return Some(place as u32);
        }
    }
    None
}

/// A place as it is told.
fn told(place: Option<usize>) -> Option<u32>
    requires { IfSome place (λ p. p < 2 ^ 32) }
    ensures { result ≡ place }
{
    match place {
        Some(place) => Some(place as u32),
        None => None,
    }
}

/// Whether one of the writes is on this point.
fn has_point(writes: &[Setting], point: PointId) -> bool
    ensures { result ≡ list_any (λ write. write.point == point) writes.now }
{
    writes.iter().any(|write| write.point == point)
}

/// The first place whose level may not be written at.
fn first_bad_level(writes: &[Setting]) -> Option<u32>
    requires { length writes.now ≤ most_writes }
    ensures { result ≡ position (λ write. not (is_level write.priority)) writes.now }
{
    told(writes.iter().position(|write| !is_level(write.priority)))
}

/// The first place whose value its point does not take.
fn first_out_of_range(plant: &[Actuator], writes: &[Setting]) -> Option<u32>
    requires { length writes.now ≤ most_writes }
    ensures { result ≡ position (λ write. not (fits_at plant.now write.point write.value)) writes.now }
{
    told(
        writes
            .iter()
            .position(|write| !fits_at(plant, write.point, write.value)),
    )
}

/// The first place whose lease is too short or too long.
fn first_bad_lease(writes: &[Setting]) -> Option<u32>
    requires { length writes.now ≤ most_writes }
    ensures { result ≡ position (λ write. not (is_length write.lease)) writes.now }
{
    told(writes.iter().position(|write| !is_length(write.lease)))
}

/// How long a lease may be, in milliseconds.
pub fn is_length(length: i64) -> bool
    ensures { result ≡ is_length length }
{
    1 <= length && length <= LONGEST_LEASE
}

/// The first place with a reversion that its point can't play.
fn first_bad_reversion(plant: &[Actuator], writes: &[Setting]) -> Option<u32>
    requires { length writes.now ≤ most_writes }
    ensures { result ≡ position (λ write. not (is_reversion plant.now write.point write.revert)) writes.now }
{
    told(writes.iter().position(|write| !is_reversion(plant, write.point, write.revert.slice())))
}

/// Why a renewal by this process at moment `n` is refused, if it is.
pub fn renew_refused(
    lasting: &Lasting,
    owner: ProcId,
    txn: Txn,
    duration: i64,
    points: &[PointId],
    n: u64,
) -> Option<Refusal>
    requires { length points.now ≤ most_writes }
    ensures { result ≡ renew_refused owner txn duration points.now n (persistent_of lasting.now) }
{
    if !is_length(duration) {
        return Some(Refusal::BadLease { index: 0 });
    }
    let Some(transaction) = lasting.stages.find(txn) else {
        return Some(Refusal::UnknownTxn);
    };
    if transaction.owner() != owner {
        return Some(Refusal::NotYours);
    }
    parts_refused(transaction.parts(), points, n)
}

/// Why a renewal of these parts at moment `n` is refused, if it is.
fn parts_refused(parts: &[Part], points: &[PointId], n: u64) -> Option<Refusal>
    requires { length points.now ≤ most_writes }
    ensures { result ≡ parts_refused parts.now points.now n }
{
    if let Some(index) = first_unwritten(parts, points) {
        return Some(Refusal::NotInTxn { index });
    }
    match first_end(parts, points) {
        Some(end) => Some(Refusal::Ended {
            cause: end.cause,
            at: end.at,
            moment: n,
        }),
        None => None,
    }
}

/// The first place of a point that the transaction did not write.
fn first_unwritten(parts: &[Part], points: &[PointId]) -> Option<u32>
    requires { length points.now ≤ most_writes }
    ensures { result ≡ position (λ point. not (wrote parts.now point)) points.now }
{
    told(points.iter().position(|point| !wrote(parts, *point)))
}

/// Whether the transaction wrote this point.
fn wrote(parts: &[Part], point: PointId) -> bool
    ensures { result ≡ wrote parts.now point }
{
    parts.iter().any(|part| part.point == point)
}

/// The end of the first part meant whose lease ended: of those on the points, in the order of these, or of all where no
/// point is named.
fn first_end(parts: &[Part], points: &[PointId]) -> Option<End>
    ensures { result ≡ first_some (map (λ part. part.end) (named_parts points.now parts.now)) }
{
    if points.is_empty() {
        return first_end_of_all(parts);
    }
    for point in points {
        if let Some(end) = end_on(parts, *point) {
            return Some(end);
        }
    }
    None
}

/// The end of the first part whose lease ended.
fn first_end_of_all(parts: &[Part]) -> Option<End>
    ensures { result ≡ first_some (map (λ part. part.end) parts.now) }
{
    for part in parts {
        if let Some(end) = part.end {
            return Some(end);
        }
    }
    None
}

/// How the lease of the part on a point ended, if it did.
fn end_on(parts: &[Part], point: PointId) -> Option<End>
    ensures { result ≡ option_and_then (λ part. part.end) (part_on parts.now point) }
{
    for part in parts {
        if part.point == point {
            return part.end;
        }
    }
    None
}

/// Why a cancel by this process is refused, if it is.
pub fn cancel_refused(lasting: &Lasting, owner: ProcId, txn: Txn) -> Option<Refusal>
    requires sound { IsSoundOfSome lasting.now }
    ensures { result ≡ cancel_refused owner txn (persistent_of lasting.now) }
{
    let Some(transaction) = lasting.stages.find(txn) else {
        return Some(Refusal::UnknownTxn);
    };
    if transaction.owner() != owner {
        return Some(Refusal::NotYours);
    }
    if transaction.has_live() {
        return None;
    }
    Some(Refusal::Over {
        at: last_part_end(transaction.parts()),
    })
}

/// The last of the moments at which the transaction's leases ended; 0 where none did.
fn last_part_end(parts: &[Part]) -> u64
    ensures { result ≡ latest (map (λ end. end.at) (filter_map (λ part. part.end) parts.now)) }
{
    let mut last = 0;
    for part in parts {
        if let Some(end) = part.end {
            last = end.at.max(last);
        }
    }
    last
}

/// Why an attach is refused, if it is.
pub fn attach_refused(
    lasting: &Lasting,
    attached: &[Attachment],
    session: SessionId,
    name: &Name,
) -> Option<Refusal>
    requires { AllByRecursion (λ attachment. attachment.process < length (persistent_of lasting.now).processes) attached.now }
    ensures { result ≡ attach_refused session name.now attached.now (persistent_of lasting.now) }
{
    if let Some(process) = process_of(attached, session) {
        return Some(Refusal::Already {
            name: lasting.processes.name(process),
        });
    }
    match lasting.processes.named(name) {
        Some(process) => taken(attached, process),
        None => full(lasting),
    }
}

/// Another session holds the process.
fn taken(attached: &[Attachment], process: ProcId) -> Option<Refusal>
    ensures { result ≡ option_map Refusal.Taken (session_of attached.now process) }
{
    match session_of(attached, process) {
        Some(session) => Some(Refusal::Taken { session }),
        None => None,
    }
}

/// There are as many processes as there may be.
pub fn full(lasting: &Lasting) -> Option<Refusal>
    ensures { result ≡ (if is_full (persistent_of lasting.now).processes then Some Refusal.TooManyProcesses else None) }
{
    if MOST_PROCESSES <= lasting.processes.count() {
        return Some(Refusal::TooManyProcesses);
    }
    None
}
