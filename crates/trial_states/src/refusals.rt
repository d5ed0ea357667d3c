use crate::bytes::{DIGEST, OTHER, SEED_OF_4, SMALL, SMALL_SUMS, joined, state_disk, summed_disk};
use crate::disks::{disk_of, failing_disk};
use boss_disk::MemoryDisk;
use boss_snapshot::{SnapshotRefusal, kind, read_state};
use def_log::DiskKind;
use std::alloc::Global;
use std::process::Abort;

/// Whether a disk has a kept state that is refused so.
fn is_refused(alloc: Global, disk: &mut MemoryDisk, wanted: SnapshotRefusal) -> bool {
    let Ok(DiskKind::State { .. }) = kind(disk) else {
        return false;
    };
    match read_state(alloc, disk, &DIGEST) {
        Ok(_kept) => false,
        Err(refusal) => refusal == wanted,
    }
}

/// Whether bytes are refused so whose byte at this place is changed to this value.
fn is_refused_changed(
    rt: &impl Abort,
    alloc: Global,
    bytes: &[u8],
    place: usize,
    value: u8,
    wanted: SnapshotRefusal,
) -> bool {
    let mut bytes = joined(rt, alloc, &[bytes]);
    if place < bytes.len() {
        bytes[place] = value;
    }
    let mut disk = disk_of(rt, alloc, &bytes);
    is_refused(alloc, &mut disk, wanted)
}

/// Changes the head of a kept state.
fn change_head(rt: &impl Abort, alloc: Global, whole: &[u8]) {
    let version = SnapshotRefusal::Version { found: 0 };
    assert!(rt; is_refused_changed(rt, alloc, whole, 8, 0, version));
    let mut kept = DIGEST;
    kept[31] = 8;
    let catalogue = SnapshotRefusal::Catalogue {
        kept,
        found: DIGEST,
    };
    assert!(rt; is_refused_changed(rt, alloc, whole, 40, 8, catalogue));
}

/// Which byte is changed, to what, and the place that is told. From 65 on it is of the number of processes, a name's length, the
/// name, the number of kept notices, a reply, a policy, an end, the number of steps; the last is a version without replies.
const DAMAGES: &[(usize, u8, u64)] = &[
    (49, 0x40, 49),
    (49, 0xff, 49),
    (57, 1, 57),
    (64, 97, 57),
    (64, 95, 65),
    (64, 0, 65),
    (82, 0, 65),
    (83, 0, 65),
    (84, b'A', 65),
    (93, 4, 65),
    (94, 1, 65),
    (95, 4, 65),
    (110, 2, 65),
    (117, 2, 65),
    (156, 9, 65),
    (8, 1, 65),
];

/// Changes other bytes of it.
fn change_state(rt: &impl Abort, alloc: Global, whole: &[u8]) {
    for (at, value, place) in DAMAGES {
        let damaged = SnapshotRefusal::Damaged { place: *place };
        let refused = is_refused_changed(rt, alloc, whole, *at, *value, damaged);
        assert!(rt; refused, "{at} {value}");
    }
}

#[test]
fn changed_byte_is_refused_at_its_place(rt: HostRuntime) {
    let whole = state_disk(&rt, rt.alloc(), 3, 5, SMALL);
    change_head(&rt, rt.alloc(), &whole);
    change_state(&rt, rt.alloc(), &whole);
}

/// Cuts a kept state to each length that has the head and a part of the rest.
fn cut_each(rt: &impl Abort, alloc: Global, whole: &[u8]) {
    for size in 66..whole.len() {
        let mut disk = disk_of(rt, alloc, &whole[..size]);
        let refused = is_refused(alloc, &mut disk, SnapshotRefusal::Damaged { place: 57 });
        assert!(rt; refused, "{size}");
    }
}

/// A kept state in which all is wrong but byte 65: the version, the catalogue, the number of events and the length.
fn wrong(rt: &impl Abort, alloc: Global, whole: &[u8]) -> Vec<u8> {
    let mut wrong = joined(rt, alloc, &[whole]);
    if wrong.len() > 65 {
        wrong[8] = 0;
        wrong[9..41].copy_from_slice(&OTHER);
        wrong[49] = 0x80;
        wrong[57] = 0x80;
    }
    wrong
}

/// What is told where all is wrong, and where all is wrong but the version.
fn refuse_wrong(rt: &impl Abort, alloc: Global, wrong: &[u8]) {
    let version = SnapshotRefusal::Version { found: 0 };
    assert!(rt; is_refused_changed(rt, alloc, wrong, 65, 1, version));
    let catalogue = SnapshotRefusal::Catalogue {
        kept: OTHER,
        found: DIGEST,
    };
    assert!(rt; is_refused_changed(rt, alloc, wrong, 8, 2, catalogue));
    assert!(rt; is_refused_changed(rt, alloc, wrong, 8, 1, catalogue));
}

#[test]
fn first_cause_is_told(rt: HostRuntime) {
    let whole = state_disk(&rt, rt.alloc(), 3, 5, SMALL);
    cut_each(&rt, rt.alloc(), &whole);
    refuse_wrong(&rt, rt.alloc(), &wrong(&rt, rt.alloc(), &whole));
}

/// Whether the kind of a disk is not told whose call of this number fails.
fn has_no_kind(rt: &impl Abort, alloc: Global, whole: &[u8], call: u64) -> bool {
    let mut disk = failing_disk(rt, alloc, whole, call);
    kind(&mut disk).is_err() && disk.faults() == 1
}

/// Whether the state of a disk is not read whose call of this number fails.
fn has_no_state(rt: &impl Abort, alloc: Global, whole: &[u8], call: u64) -> bool {
    let mut disk = failing_disk(rt, alloc, whole, call);
    is_refused(alloc, &mut disk, SnapshotRefusal::DiskFault) && disk.faults() == 1
}

/// Fails each read in turn: the kind takes the length and the first bytes; the state takes the length, what stands before it, and
/// its bytes.
#[test]
fn each_read_of_the_disk_may_fail(rt: HostRuntime) {
    let whole = state_disk(&rt, rt.alloc(), 3, 5, SMALL);
    for call in 1..3 {
        assert!(&rt; has_no_kind(&rt, rt.alloc(), &whole, call), "{call}");
    }
    for call in 3..6 {
        assert!(&rt; has_no_state(&rt, rt.alloc(), &whole, call), "{call}");
    }
}

/// The small state in version 3.
fn summed(rt: &impl Abort, alloc: Global) -> Vec<u8> {
    summed_disk(rt, alloc, 3, 5, SMALL, SMALL_SUMS)
}

fn is_other(disk: &mut MemoryDisk) -> bool {
    matches!(kind(disk), Ok(DiskKind::Other))
}

/// Whether a disk has a kept state that is read.
fn is_read(alloc: Global, disk: &mut MemoryDisk) -> bool {
    let Ok(DiskKind::State { .. }) = kind(disk) else {
        return false;
    };
    read_state(alloc, disk, &DIGEST).is_ok()
}

/// Whether the state of a disk is found as it was changed: in its head the disk is another program's, and behind it the place of the
/// head's end is told. Version 3 changed to an older one is told so too, as what stands at 65 is no state then. The gate is no part
/// of the state, and byte 0 may be any but 0.
fn is_found(disk: &mut MemoryDisk, alloc: Global, place: usize, version: u8) -> bool {
    let is_plain = place == 0 || place == 177;
    let is_behind = place >= 73 || version < 3;
    if is_plain {
        return is_read(alloc, disk);
    }
    if is_behind {
        return is_refused(alloc, disk, SnapshotRefusal::Damaged { place: 65 });
    }
    is_other(disk)
}

/// Changes one bit of these bytes.
fn turned(rt: &impl Abort, alloc: Global, bytes: &[u8], place: usize, bit: u8) -> Vec<u8> {
    let mut bytes = joined(rt, alloc, &[bytes]);
    if place < bytes.len() {
        bytes[place] ^= bit;
    }
    bytes
}

const BITS: &[u8] = &[1, 2, 4, 8, 16, 32, 64, 128];

/// Each bit of a kept state with its sum, changed.
#[test]
fn each_changed_bit_of_a_state_is_found(rt: HostRuntime) {
    let alloc = rt.alloc();
    let whole = summed(&rt, alloc);
    assert_eq!(&rt; whole.len(), 178);
    for place in 0..whole.len() {
        for bit in BITS {
            let bytes = turned(&rt, alloc, &whole, place, *bit);
            let version = bytes.get(8).copied().unwrap_or(0);
            let mut disk = disk_of(&rt, alloc, &bytes);
            assert!(&rt; is_found(&mut disk, alloc, place, version), "{place} {bit}");
        }
    }
}

/// Cut within its seed it is another program's, and behind it the length is damaged.
#[test]
fn summed_state_cut_short_is_refused(rt: HostRuntime) {
    let alloc = rt.alloc();
    let whole = summed(&rt, alloc);
    for size in 66..whole.len() {
        let mut disk = disk_of(&rt, alloc, &whole[..size]);
        let found = if size < 73 {
            is_other(&mut disk)
        } else {
            is_refused(alloc, &mut disk, SnapshotRefusal::Damaged { place: 57 })
        };
        assert!(&rt; found, "{size}");
    }
}

/// A later version is told where its seed is right.
#[test]
fn later_version_is_told(rt: HostRuntime) {
    let alloc = rt.alloc();
    let mut whole = summed(&rt, alloc);
    assert!(&rt; whole.len() == 178);
    whole[8] = 4;
    whole[65..73].copy_from_slice(&SEED_OF_4);
    let mut disk = disk_of(&rt, alloc, &whole);
    assert!(&rt; is_refused(alloc, &mut disk, SnapshotRefusal::Version { found: 4 }));
}
