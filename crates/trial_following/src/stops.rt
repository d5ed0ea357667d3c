// A feed that is cut off, and disks that stop while it is followed: what a journal has then, and that it goes on from there.
ghost use Rattle.std.specs.Prelude.{◌≡◌};
ghost use Rattle.boss_model.specs.Catalogue.{actuators};

use crate::outside::*;
use boss_disk::MemoryDisk;
use boss_durable::Durable;
use boss_following::FollowEnd;
use boss_model::LOG_LIMIT;
use boss_opening::open;
use boss_points::Catalogue;
use std::alloc::Global;
use std::process::Abort;

/// A process is attached, and at 1000 it takes a lease of the damper.
const TWO_EVENTS: &[u8] = b"event 1 0100000000000000000161
event 2 0200000000000003e80000000100000000000000000000afc8080000ea6000
";

/// The attach, and then the first state of all in the place of five events.
const WITH_STATE: &[u8] = b"event 1 0100000000000000000161
state 5 32
part 0000000000000000000000000000000100000000000000000000000000000000
";

/// How many events a journal may have that has followed up to some line of these. No lease is live, and the moment is 0.
const FRONTS: [u64; 3] = [0, 1, 5];

/// The ways in which bytes that a crash may change are picked.
const PICKS: [u64; 4] = [0, 1, 2, 5];

/// More calls than the following makes of a disk.
const MANY: u64 = 60;

/// Follows all of it, which has to come to its end.
fn follow_all(
    rt: &impl Abort,
    alloc: Global,
    catalogue: &Catalogue,
    durable: &mut Durable<MemoryDisk>,
    bytes: &[u8],
    wanted: (u64, u64, u64),
)
    requires { durable.old.engine.plant ≡ actuators catalogue.now }
    ensures { durable.new.engine.plant ≡ durable.old.engine.plant }
{
    let end = follow_bytes(rt, alloc, catalogue, durable, bytes);
    assert!(rt; end == FollowEnd::End);
    assert!(rt; summary(durable) == wanted);
}

/// The worked feed, twice; and the journal opened again.
#[test]
fn events_are_appended_once(rt: HostRuntime) {
    let alloc = rt.alloc();
    let catalogue = three_points(&rt, alloc);
    let mut durable = new_journal(&rt, alloc, &catalogue);
    for _ in 0..2 {
        follow_all(
            &rt,
            alloc,
            &catalogue,
            &mut durable,
            TWO_EVENTS,
            (2, 1000, 1),
        );
    }
    let (first, second) = durable.close();
    let durable = reopened(&rt, alloc, &catalogue, (first, second));
    assert!(&rt; summary(&durable) == (2, 1000, 1));
}

/// Whether a journal has what lasts after some of the lines.
fn is_front(durable: &Durable<MemoryDisk>) -> bool {
    let (events, now, leases) = summary(durable);
    FRONTS.contains(&events) && now == 0 && leases == 0
}

/// The first bytes are followed, one more each time, and then all of them.
#[test]
fn a_feed_may_be_cut_anywhere(rt: HostRuntime) {
    let alloc = rt.alloc();
    let catalogue = three_points(&rt, alloc);
    let mut durable = new_journal(&rt, alloc, &catalogue);
    for size in 0..WITH_STATE.len() {
        let end = follow_bytes(&rt, alloc, &catalogue, &mut durable, &WITH_STATE[..size]);
        assert!(&rt;
            matches!(
                end,
                FollowEnd::End | FollowEnd::Short | FollowEnd::BadLine { .. }
            )
        );
        assert!(&rt; is_front(&durable));
    }
    follow_all(&rt, alloc, &catalogue, &mut durable, WITH_STATE, (5, 0, 0));
}

/// Whether what a crash may leave of these disks opens to what lasts after some of the lines.
fn leave_fronts(rt: &impl Abort, alloc: Global, catalogue: &Catalogue, disks: &Pair) -> bool {
    for pick in &PICKS {
        if !leaves_front(rt, alloc, catalogue, disks, *pick) {
            return false;
        }
    }
    true
}

fn leaves_front(
    rt: &impl Abort,
    alloc: Global,
    catalogue: &Catalogue,
    disks: &Pair,
    pick: u64,
) -> bool {
    let first = disks.0.image(alloc, pick).expect(rt, "memory");
    let second = disks.1.image(alloc, pick).expect(rt, "memory");
    is_front(&reopened(rt, alloc, catalogue, (first, second)))
}

/// Follows all of it over two new disks, which answer no more calls than so many. Whether that was done.
fn stop_at(rt: &impl Abort, alloc: Global, catalogue: &Catalogue, first: u64, second: u64) -> bool {
    let mut one = empty_disk(rt, alloc);
    let mut other = empty_disk(rt, alloc);
    one.stop_after(first);
    other.stop_after(second);
    match open(alloc, catalogue, one, other, LOG_LIMIT) {
        Ok(opened) => {
            let mut durable = opened;
            let end = follow_bytes(rt, alloc, catalogue, &mut durable, WITH_STATE);
            let done = end == FollowEnd::End;
            assert!(rt; done || end == FollowEnd::DiskFault);
            let disks = durable.close();
            assert!(rt; leave_fronts(rt, alloc, catalogue, &disks));
            done
        }
        Err((disks, _)) => {
            assert!(rt; leave_fronts(rt, alloc, catalogue, &disks));
            false
        }
    }
}

#[test]
fn a_stop_leaves_what_lasts_after_some_line(rt: HostRuntime) {
    let alloc = rt.alloc();
    let catalogue = three_points(&rt, alloc);
    for calls in 0..MANY {
        let one = stop_at(&rt, alloc, &catalogue, calls, MANY);
        let other = stop_at(&rt, alloc, &catalogue, MANY, calls);
        if one && other {
            return;
        }
    }
    rt.panic("a feed that is followed to its end");
}
