// Moments that are taken back over disks that stop or fail at each of their calls, and what is opened of all that a crash may leave.
use crate::bytes::{DIGEST, earlier_as, kept_as, worked};
use crate::outside::*;
use boss_manager::{Status, shift_on_disks};
use boss_outside::BytesSink;
use boss_points::Catalogue;
use std::alloc::Global;
use std::process::Abort;

/// By how many milliseconds they are taken back.
const BY: u64 = 400;

/// By more than the journal's own moment, which is 1,000.
const TOO_FAR: u64 = 1001;

/// What is told of moments that were taken back.
const SHIFTED: &str = "shifted events 3 now 600 leases 1 pending 0\n";

/// And of some that can't be, so far.
const REFUSED: &str = "shift too-far 1000\n";

/// What a check tells of the state with earlier moments.
const EARLIER: &str = "events 3 now 600 leases 1 pending 0\n";

/// And of the state before.
const KEPT: &str = "events 2 now 1000 leases 1 pending 0\n";

/// The pairs, each with a lease behind two events: a journal alone; a kept state behind it, in the second disk; and one behind that, in
/// the first.
const STARTS: usize = 3;

/// The bytes of the disks of this pair.
fn start(rt: &impl Abort, alloc: Global, place: usize) -> (Vec<u8>, Vec<u8>) {
    match place {
        0 => (worked(rt, alloc), Vec::new(alloc)),
        1 => (worked(rt, alloc), kept_as(rt, alloc, DIGEST, 1)),
        _ => (kept_as(rt, alloc, DIGEST, 2), kept_as(rt, alloc, DIGEST, 1)),
    }
}

/// And once its moments are taken back: the disk that was not in force has the next generation, under the same catalogue.
fn bytes_behind(rt: &impl Abort, alloc: Global, place: usize) -> (Vec<u8>, Vec<u8>) {
    match place {
        0 => (worked(rt, alloc), earlier_as(rt, alloc, 1)),
        1 => (earlier_as(rt, alloc, 2), kept_as(rt, alloc, DIGEST, 1)),
        _ => (kept_as(rt, alloc, DIGEST, 2), earlier_as(rt, alloc, 3)),
    }
}

/// The ways in which bytes that a crash may change are picked.
const PICKS: [u64; 4] = [0, 1, 2, 5];

/// More calls than it makes of a disk.
const MANY: u64 = 60;

/// What was left of it.
#[derive(Drop)]
struct Shifted {
    disks: Pair,
    status: Status,
    sink: BytesSink,
}

/// Takes the moments of this pair back by so many milliseconds, with these troubles.
fn shift(
    rt: &impl Abort,
    alloc: Global,
    catalogue: &Catalogue,
    place: usize,
    by: u64,
    first: Trouble,
    second: Trouble,
) -> Shifted {
    let (bytes, others) = start(rt, alloc, place);
    let first = disk(rt, alloc, &bytes, first);
    let second = disk(rt, alloc, &others, second);
    let mut sink = sink(rt, alloc, 0);
    let (disks, status) = shift_on_disks(alloc, catalogue, by, first, second, &mut sink);
    Shifted {
        disks,
        status,
        sink,
    }
}

/// Does so, and looks at all that a crash may leave. Whether it was done.
fn try_shift(
    rt: &impl Abort,
    alloc: Global,
    catalogue: &Catalogue,
    place: usize,
    first: Trouble,
    second: Trouble,
) -> bool {
    let shifted = shift(rt, alloc, catalogue, place, BY, first, second);
    let done = shifted.status == Status::DONE;
    assert!(rt; done || shifted.status == Status::FILE_FAULT);
    expect_told(rt, &shifted.sink, if done { SHIFTED } else { "" });
    look(rt, alloc, catalogue, &shifted.disks, done);
    done
}

/// Looks at all that a crash may leave.
fn look(rt: &impl Abort, alloc: Global, catalogue: &Catalogue, disks: &Pair, done: bool) {
    for pick in &PICKS {
        let earlier = is_earlier(rt, alloc, catalogue, disks, *pick);
        assert!(rt; earlier || !done);
    }
}

/// Whether the images that a number picks hold the state with earlier moments. If not, they have to hold the state before.
fn is_earlier(
    rt: &impl Abort,
    alloc: Global,
    catalogue: &Catalogue,
    disks: &Pair,
    pick: u64,
) -> bool {
    let left = images(rt, alloc, disks, (pick, pick));
    let (status, sink) = check(rt, alloc, catalogue, left);
    assert_eq!(rt; status, Status::DONE);
    let earlier = sink.taken() == EARLIER.as_bytes();
    expect_told(rt, &sink, if earlier { EARLIER } else { KEPT });
    earlier
}

/// Takes them back where the calls of either disk behind so many, or the next one alone, come to nothing. Whether each was done.
fn try_calls(
    rt: &impl Abort,
    alloc: Global,
    catalogue: &Catalogue,
    place: usize,
    calls: u64,
) -> bool {
    let (stops, fails) = (
        Trouble::Stops(calls),
        Trouble::Fails(calls.saturating_add(1)),
    );
    let stopped = try_shift(rt, alloc, catalogue, place, stops, Trouble::None);
    let failed = try_shift(rt, alloc, catalogue, place, fails, Trouble::None);
    let other_stopped = try_shift(rt, alloc, catalogue, place, Trouble::None, stops);
    let other_failed = try_shift(rt, alloc, catalogue, place, Trouble::None, fails);
    stopped && failed && other_stopped && other_failed
}

/// Takes them back where each call comes to nothing in turn, up to the last.
fn stop_at_each(rt: &impl Abort, alloc: Global, catalogue: &Catalogue, place: usize) {
    for calls in 0..MANY {
        if try_calls(rt, alloc, catalogue, place, calls) {
            return;
        }
    }
    rt.panic("moments that are taken back");
}

/// Takes them back over disks of which no call fails, and compares their bytes.
fn expect_shifted(rt: &impl Abort, alloc: Global, catalogue: &Catalogue, place: usize) {
    let none = Trouble::None;
    let shifted = shift(rt, alloc, catalogue, place, BY, none, none);
    assert!(rt; shifted.status == Status::DONE);
    expect_told(rt, &shifted.sink, SHIFTED);
    expect_both(rt, shifted.disks, bytes_behind(rt, alloc, place));
}

/// Too far the pair stays as it is.
fn expect_refused(rt: &impl Abort, alloc: Global, catalogue: &Catalogue, place: usize) {
    let none = Trouble::None;
    let refused = shift(rt, alloc, catalogue, place, TOO_FAR, none, none);
    assert!(rt; refused.status == Status::ADOPTION);
    expect_told(rt, &refused.sink, REFUSED);
    expect_both(rt, refused.disks, start(rt, alloc, place));
}

/// Whether these are the bytes of two disks.
fn expect_both(rt: &impl Abort, disks: Pair, bytes: (Vec<u8>, Vec<u8>)) {
    expect_bytes(rt, disks.0, &bytes.0);
    expect_bytes(rt, disks.1, &bytes.1);
}

#[test]
fn a_shift_leaves_the_old_moments_or_the_new(rt: HostRuntime) {
    let alloc = rt.alloc();
    let catalogue = three_points(&rt, alloc);
    for place in 0..STARTS {
        expect_shifted(&rt, alloc, &catalogue, place);
        expect_refused(&rt, alloc, &catalogue, place);
        stop_at_each(&rt, alloc, &catalogue, place);
    }
}
