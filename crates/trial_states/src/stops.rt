ghost use Rattle.std.specs.Prelude.{◌≡◌, true};
ghost use Rattle.def_bytes.specs.States.{state};
ghost use Rattle.boss_model.specs.Seen.{seen};

use crate::bytes::{DIGEST, LATE_SUMS, SMALL, leases, state_disk, summed_disk};
use crate::disks::{disk_of, failing_disk, spelled};
use boss_disk::MemoryDisk;
use boss_model::Kept;
use boss_snapshot::{kind, write_state};
use def_log::DiskKind;
use std::alloc::Global;
use std::process::Abort;

/// Whether the bytes behind the first of each are the same, which is 0 in neither.
fn differ_at_first(some: &[u8], other: &[u8]) -> bool {
    if some.is_empty() || other.is_empty() {
        return false;
    }
    some[0] != 0 && other[0] != 0 && some[1..] == other[1..]
}

/// Whether bytes are what a stop may leave while a state is written: nothing that counts, or what they were but for the first
/// byte; or the state, which is all that they may be afterwards.
fn may_be_left(bytes: &[u8], was: &[u8], wanted: &[u8], done: bool) -> bool {
    if done || differ_at_first(bytes, wanted) {
        return differ_at_first(bytes, wanted);
    }
    bytes.len() <= 1 || bytes[0] == 0 || differ_at_first(bytes, was)
}

/// Whether this is the kind of these bytes, as far as generation 4 goes.
fn is_kind(told: DiskKind, bytes: &[u8], wanted: &[u8]) -> bool {
    let is_new = told == DiskKind::State { generation: 4 };
    is_new == differ_at_first(bytes, wanted)
}

/// Writes a state as generation 4, with seven events before it, over a disk that stops after so many calls, and looks at what is
/// left. Whether it was written whole.
fn write_to_stop(
    rt: &impl Abort,
    alloc: Global,
    held: &[u8],
    kept: &Kept,
    wanted: &[u8],
    stop: u64,
) -> bool
    requires { (state 2).fits (seen kept.now) ≡ true }
{
    let mut disk = disk_of(rt, alloc, held);
    disk.stop_after(stop);
    let done = write_state(kept, &mut disk, &DIGEST, 4, 7).is_ok();
    look_at_each(rt, alloc, &disk, held, wanted, done);
    done
}

/// Which of what a stop may leave is looked at.
const PICKS: &[u64] = &[0, 1, 2, 5];

/// Looks at some of what a stop may leave of a disk.
fn look_at_each(
    rt: &impl Abort,
    alloc: Global,
    disk: &MemoryDisk,
    held: &[u8],
    wanted: &[u8],
    done: bool,
) {
    for pick in PICKS {
        let image = disk.image(alloc, *pick).expect(rt, "memory");
        assert!(rt; is_left(image, held, wanted, done), "pick {pick}");
    }
}

/// Whether a disk is what a stop may leave.
fn is_left(mut image: MemoryDisk, held: &[u8], wanted: &[u8], done: bool) -> bool {
    let told = kind(&mut image).unwrap_or(DiskKind::Other);
    let bytes = image.into_bytes();
    may_be_left(bytes.slice(), held, wanted, done) && is_kind(told, bytes.slice(), wanted)
}

/// Stops a disk that holds these bytes at each of so many calls while this state is written, and after the last.
fn stop_at_each(rt: &impl Abort, alloc: Global, held: &[u8], kept: &Kept, calls: u64)
    requires { (state 2).fits (seen kept.now) ≡ true }
{
    let wanted = summed_disk(rt, alloc, 4, 7, SMALL, LATE_SUMS);
    for stop in 0..=calls {
        let done = write_to_stop(rt, alloc, held, kept, &wanted, stop);
        assert_eq!(rt; done, stop == calls, "stop {stop}");
    }
}

/// The state of the small bytes.
fn small(rt: &impl Abort, alloc: Global) -> Kept
    ensures { (state 2).fits (seen result) ≡ true }
{
    spelled(alloc, SMALL).expect(rt, "a state")
}

/// Stops disks that hold nothing, a few bytes, and an older state.
#[test]
fn stop_at_any_call_leaves_the_old_or_the_new(rt: HostRuntime) {
    let alloc = rt.alloc();
    let kept = small(&rt, alloc);
    // A length, and byte 0 read where there is one; a write and a sync where it is not 0; a cut; the state, and its length; what
    // stands before the seed, and the seed; the state again, and its sum; a sync, byte 0, and a sync.
    stop_at_each(&rt, alloc, &[], &kept, 13);
    stop_at_each(&rt, alloc, &[0, 1, 2], &kept, 12);
    let older = state_disk(&rt, alloc, 3, 5, &leases(&rt, alloc, 9));
    stop_at_each(&rt, alloc, &older, &kept, 14);
}

/// Whether a write over an empty disk fails just where one of its first thirteen calls is the one that fails, with one fault then.
fn fails_as_its_disk(rt: &impl Abort, alloc: Global, kept: &Kept, call: u64) -> bool
    requires { (state 2).fits (seen kept.now) ≡ true }
{
    let mut disk = failing_disk(rt, alloc, &[], call);
    let failed = write_state(kept, &mut disk, &DIGEST, 4, 7).is_err();
    failed == (call < 14) && disk.faults() == u64::from(failed)
}

/// Writes this state over disks of which each call fails in turn.
#[test]
fn each_write_of_the_disk_may_fail(rt: HostRuntime) {
    let alloc = rt.alloc();
    let kept = small(&rt, alloc);
    for call in 1..15 {
        assert!(&rt; fails_as_its_disk(&rt, alloc, &kept, call), "call {call}");
    }
}
