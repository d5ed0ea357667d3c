// What two callers ask for at once, as one record, on disks that fail at each of their calls.
ghost use Rattle.std.specs.Prelude.{◌≡◌, ◌<◌, List, length};
ghost use Rattle.boss_model.specs.declared.state.Actuator.{Actuator};
ghost use Rattle.boss_model.specs.Catalogue.{actuators};
ghost use Rattle.boss_shared.specs.Together.{MayAsk};

use crate::limited::LOG_LIMIT;
use crate::outside::*;
use crate::stops::{MANY, PICKS};
use boss_disk::MemoryDisk;
use boss_durable::Durable;
use boss_model::{Name, SessionId};
use boss_opening::open;
use boss_points::Catalogue;
use boss_shared::Asked;
use def_history::Outcome;
use std::alloc::Global;
use std::process::Abort;
use trial_keeper::asked;

const NEW: &str = "journal new\n";

const NOTHING: &str = "events 0 now 0 leases 0 pending 0\n";

/// Both callers' attaches and submits.
const ALL: &str = "events 4 now 1000 leases 2 pending 0\n";

/// How a call for two callers ended, and the disks that it left.
struct Ended {
    /// Whether all was done. If not, the first caller was told that the disk failed, and the second that it had.
    done: bool,
    disks: Pair,
}

/// An attach under this name and a submit at this level, by one of several callers.
fn caller(rt: &impl Abort, alloc: Global, session: u64, name: &[u8], priority: i64) -> Asked
    ensures count { length result.commands ≡ 2 }
    ensures may { (plant : List Actuator) → 0 < length plant → MayAsk plant result }
{
    let name = Name::new(name).expect(rt, "a name");
    asked(alloc, SessionId(session), name, priority).expect(rt, "memory")
}

/// Has what two callers ask for done together.
fn ask_together(
    rt: &impl Abort,
    alloc: Global,
    catalogue: &Catalogue,
    durable: Durable<MemoryDisk>,
) -> Ended
    requires points { 0 < length (actuators catalogue.now) }
    requires plant { durable.engine.plant ≡ actuators catalogue.now }
{
    let mut durable = durable;
    let mut group = [caller(rt, alloc, 1, b"a", 8), caller(rt, alloc, 2, b"b", 7)];
    durable.apply_together(&mut group);
    let [first, second] = &group;
    let done = first.outcomes.rest.is_none() && second.outcomes.rest.is_none();
    if done {
        assert!(rt; first.answers.len() == 2 && second.answers.len() == 2);
    } else {
        assert!(rt; matches!(first.outcomes.rest, Some(Outcome::DiskFault)));
        assert!(rt; matches!(second.outcomes.rest, Some(Outcome::Stopped)));
        assert!(rt; first.answers.is_empty() && second.answers.is_empty());
    }
    assert!(rt; durable.stopped() != done);
    Ended {
        done,
        disks: durable.close(),
    }
}

/// Looks at all that a crash may leave: what both asked for is there whole, or nothing of it; and where it was done it is there.
fn look(rt: &impl Abort, alloc: Global, catalogue: &Catalogue, disks: &Pair, done: bool) {
    for picks in &PICKS {
        look_at(rt, alloc, catalogue, disks, *picks, done);
    }
}

/// Looks at the images that these numbers pick.
fn look_at(
    rt: &impl Abort,
    alloc: Global,
    catalogue: &Catalogue,
    disks: &Pair,
    picks: (u64, u64),
    done: bool,
) {
    let left = images(rt, alloc, disks, picks);
    let (_, sink) = check(rt, alloc, catalogue, left);
    assert!(rt; may_tell(sink.taken(), done));
}

/// Whether a check may tell this.
fn may_tell(told: &[u8], done: bool) -> bool {
    let nothing = told == NOTHING.as_bytes() || told == NEW.as_bytes();
    told == ALL.as_bytes() || (nothing && !done)
}

/// Asks over an empty pair with these troubles. Whether all was done.
fn try_disks(
    rt: &impl Abort,
    alloc: Global,
    catalogue: &Catalogue,
    first: Trouble,
    second: Trouble,
) -> bool
    requires { 0 < length (actuators catalogue.now) }
{
    let (first, second) = (disk(rt, alloc, &[], first), disk(rt, alloc, &[], second));
    match open(alloc, catalogue, first, second, LOG_LIMIT) {
        Ok(durable) => {
            let Ended { done, disks } = ask_together(rt, alloc, catalogue, durable);
            look(rt, alloc, catalogue, &disks, done);
            done
        }
        Err((disks, _)) => {
            look(rt, alloc, catalogue, &disks, false);
            false
        }
    }
}

/// The same where the calls of the first disk behind so many, or the next one of either alone, come to nothing. Whether all was done each
/// time.
fn try_calls(rt: &impl Abort, alloc: Global, catalogue: &Catalogue, calls: u64) -> bool
    requires { 0 < length (actuators catalogue.now) }
{
    let fails = Trouble::Fails(calls.saturating_add(1));
    let stops = Trouble::Stops(calls);
    let failed = try_disks(rt, alloc, catalogue, fails, Trouble::None);
    let stopped = try_disks(rt, alloc, catalogue, stops, Trouble::None);
    let other = try_disks(rt, alloc, catalogue, Trouble::None, fails);
    failed && stopped && other
}

#[test]
fn what_two_callers_ask_for_is_kept_whole_or_not_at_all(rt: HostRuntime) {
    let alloc = rt.alloc();
    let catalogue = three_points(&rt, alloc);
    assert!(&rt; catalogue.count() == 3);
    for calls in 0..MANY {
        if try_calls(&rt, alloc, &catalogue, calls) {
            return;
        }
    }
    rt.panic("a call that is done");
}
