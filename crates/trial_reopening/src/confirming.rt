// Reads over a pair whose disk in force dies: it is found out at the first of them that comes a second or more after the disk was asked.
ghost use Rattle.std.specs.Prelude.{◌≡◌, ◌≤◌, ◌<◌, length};
ghost use Rattle.boss_model.specs.Catalogue.{actuators};
ghost use Rattle.boss_model.specs.Limits.{last_moment};

use crate::limited::LOG_LIMIT;
use crate::outside::*;
use crate::stops::MANY;
use boss_disk::MemoryDisk;
use boss_durable::Durable;
use boss_model::{Command, PointId, SessionId};
use boss_opening::open;
use boss_points::Catalogue;
use def_history::Outcome;
use std::alloc::Global;
use std::process::Abort;

/// The moments of the reads, in milliseconds. At the last one the clock was set back.
const MOMENTS: [u64; 8] = [1_000, 1_999, 2_000, 2_001, 2_999, 3_000, 2_001, 2_000];

/// The places of those before which the disk is asked: the first, each a second or more behind the one before, and one as much
/// before it.
const ASKED: [usize; 4] = [0, 2, 5, 7];

/// How a read ended.
#[derive(Clone, Copy, PartialEq, Eq)]
enum Ended {
    Done,
    DiskFault,
    Stopped,
}

/// Reads the first point at a moment.
fn read_at(
    rt: &impl Abort,
    catalogue: &Catalogue,
    durable: &mut Durable<MemoryDisk>,
    moment: u64,
) -> Ended
    requires moment { moment ≤ last_moment }
    requires points { 0 < length (actuators catalogue.now) }
    requires plant { durable.old.engine.plant ≡ actuators catalogue.now }
    ensures plant { durable.new.engine.plant ≡ durable.old.engine.plant }
{
    let read = Command::Read { point: PointId(0) };
    match durable.apply(SessionId(1), &read, moment) {
        Outcome::Done { .. } => Ended::Done,
        Outcome::DiskFault => Ended::DiskFault,
        Outcome::Stopped => Ended::Stopped,
        Outcome::NoMemory | Outcome::Denied { .. } => rt.panic("a read of a journal"),
    }
}

/// Reads at each of the moments. The place of the read at which the disk failed: those before it are done, and those behind it are
/// told that it had. Where none failed it is their number.
fn failed_at(rt: &impl Abort, catalogue: &Catalogue, durable: Durable<MemoryDisk>) -> usize
    requires points { 0 < length (actuators catalogue.now) }
    requires plant { durable.engine.plant ≡ actuators catalogue.now }
{
    let mut durable = durable;
    let mut failed = MOMENTS.len();
    for place in 0..8usize {
        let ended = read_at(rt, catalogue, &mut durable, MOMENTS[place]);
        if ended == Ended::DiskFault {
            assert!(rt; failed == MOMENTS.len());
            failed = place;
        } else {
            assert!(rt; (ended == Ended::Stopped) == (failed < place));
        }
    }
    assert!(rt; durable.stopped() == (failed < MOMENTS.len()));
    failed
}

/// The place of the read at which a first disk fails whose calls behind so many come to nothing. None where the pair does not open.
fn fails_behind(rt: &impl Abort, alloc: Global, catalogue: &Catalogue, calls: u64) -> Option<usize>
    requires { 0 < length (actuators catalogue.now) }
{
    let first = disk(rt, alloc, &[], Trouble::Stops(calls));
    let second = disk(rt, alloc, &[], Trouble::None);
    match open(alloc, catalogue, first, second, LOG_LIMIT) {
        Ok(durable) => Some(failed_at(rt, catalogue, durable)),
        Err(_) => None,
    }
}

/// One call more, and the disk is found dead at the next of the reads before which it is asked.
#[test]
fn a_dead_disk_is_found_where_nothing_changes(rt: HostRuntime) {
    let alloc = rt.alloc();
    let catalogue = three_points(&rt, alloc);
    assert!(&rt; catalogue.count() == 3);
    let mut left: &[usize] = &ASKED;
    for calls in 0..MANY {
        let Some(place) = fails_behind(&rt, alloc, &catalogue, calls) else {
            continue;
        };
        let Some((next, rest)) = left.split_first() else {
            assert!(&rt; place == MOMENTS.len());
            return;
        };
        assert!(&rt; place == *next);
        left = rest;
    }
    rt.panic("a disk that lives");
}
