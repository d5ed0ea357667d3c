//! What a crash leaves of a disk in memory.

use crate::calls::{call, edit, is_edited, put, shorten, whole};
use boss_disk::{Disk, MemoryDisk};
use boss_model::Items;
use std::alloc::Global;
use std::process::Abort;

/// The images that are looked at.
const PICKS: [u64; 4] = [0, 1, 2, 5];

/// The bytes from 100 to 135.
const RECORD: &[u8; 36] = &[
    100, 101, 102, 103, 104, 105, 106, 107, 108, 109, 110, 111, 112, 113, 114, 115, 116, 117, 118,
    119, 120, 121, 122, 123, 124, 125, 126, 127, 128, 129, 130, 131, 132, 133, 134, 135,
];

/// Each of them, taken from 255.
const TURNED: &[u8; 36] = &[
    155, 154, 153, 152, 151, 150, 149, 148, 147, 146, 145, 144, 143, 142, 141, 140, 139, 138, 137,
    136, 135, 134, 133, 132, 131, 130, 129, 128, 127, 126, 125, 124, 123, 122, 121, 120,
];

/// From place 58 on those of them whose place, modulo 64, is 0 or 2, and 0 for the others.
const PICKED: &[u8; 36] = &[
    0, 0, 0, 0, 0, 0, 106, 0, 108, 0, 0, 0, 0, 0, 0, 0, 0, 0, 0, 0, 0, 0, 0, 0, 0, 0, 0, 0, 0, 0,
    0, 0, 0, 0, 0, 0,
];

/// A call of a disk.
enum Step {
    Write(u64, &'static [u8]),
    Cut(u64),
    Sync,
}

/// So many zero bytes, then these, then the record or nothing.
#[derive(Clone, Copy)]
struct Image(usize, &'static [u8], bool);

/// Calls of a disk of 58 zero bytes, one after another, and its image of each pick after each.
const ROWS: &[(Step, &[Image; 4])] = &[
    (
        Step::Write(58, RECORD),
        &[
            Image(58, b"", false),
            Image(58, RECORD, false),
            Image(58, TURNED, false),
            Image(58, PICKED, false),
        ],
    ),
    (Step::Sync, &[Image(58, b"", true); 4]),
    (
        Step::Write(57, &[1]),
        &[
            Image(58, b"", true),
            Image(57, &[1], true),
            Image(57, &[254], true),
            Image(58, b"", true),
        ],
    ),
    (Step::Sync, &[Image(57, &[1], true); 4]),
    (
        Step::Cut(57),
        &[
            Image(57, &[1], true),
            Image(57, b"", false),
            Image(57, b"", false),
            Image(57, b"", false),
        ],
    ),
    (
        Step::Write(57, &[7, 8]),
        &[
            Image(57, &[1], true),
            Image(57, &[7, 8], false),
            Image(57, &[248, 247], false),
            Image(57, &[0, 0], false),
        ],
    ),
];

impl Image {
    fn bytes(&self, rt: &impl Abort, alloc: Global) -> Vec<u8> {
        let mut bytes = Vec::new(alloc);
        bytes.resize(self.0, 0).expect(rt, "memory");
        bytes.extend_from_slice(self.1).expect(rt, "memory");
        let record: &[u8] = if self.2 { RECORD } else { &[] };
        bytes.extend_from_slice(record).expect(rt, "memory");
        bytes
    }
}

/// A disk of so many zero bytes, of which the call with this number fails.
fn zeros(rt: &impl Abort, alloc: Global, count: usize, fails: u64) -> MemoryDisk {
    let bytes = Items::from_vec(Image(count, b"", false).bytes(rt, alloc));
    MemoryDisk::new(alloc, bytes, call(rt, alloc, fails)).expect(rt, "memory")
}

/// Whether the image of this pick has these bytes, and no others.
fn has_image(rt: &impl Abort, alloc: Global, disk: &MemoryDisk, pick: u64, bytes: &[u8]) -> bool {
    let image = disk.image(alloc, pick).expect(rt, "memory");
    image.into_bytes().slice() == bytes
}

/// Looks at the image of this pick.
fn look_at(rt: &impl Abort, alloc: Global, disk: &MemoryDisk, pick: u64, wanted: &Image) {
    let bytes = wanted.bytes(rt, alloc);
    assert!(rt; has_image(rt, alloc, disk, pick, &bytes), "pick {pick}");
}

/// Looks at the image of each pick.
fn look(rt: &impl Abort, alloc: Global, disk: &MemoryDisk, wanted: &[Image; 4]) {
    for place in 0..4usize {
        look_at(rt, alloc, disk, PICKS[place], &wanted[place]);
    }
}

/// A disk does a call.
fn take(rt: &impl Abort, disk: &mut MemoryDisk, step: &Step) {
    match step {
        Step::Write(at, bytes) => put(rt, disk, *at, *bytes),
        Step::Cut(size) => shorten(rt, disk, *size),
        Step::Sync => disk.sync().expect(rt, "a sync"),
    }
}

/// A disk does the call of each row, and its images are looked at behind it.
fn take_all(rt: &impl Abort, alloc: Global, disk: &mut MemoryDisk, rows: &[(Step, &[Image; 4])]) {
    for row in rows {
        take(rt, disk, &row.0);
        look(rt, alloc, disk, row.1);
    }
}

#[test]
fn a_crash_leaves_what_is_picked(rt: HostRuntime) {
    let mut disk = zeros(&rt, rt.alloc(), 58, 0);
    take_all(&rt, rt.alloc(), &mut disk, ROWS);
}

/// Whether a disk of 58 bytes fails at its second call only.
fn fails_once(disk: &mut MemoryDisk) -> bool {
    disk.sync().is_ok()
        && disk.length().is_err()
        && matches!(disk.length(), Ok(58))
        && disk.faults() == 1
}

/// Whether that disk, stopped after one more call, fails at each later one.
fn fails_from_then_on(disk: &mut MemoryDisk) -> bool {
    disk.stop_after(1);
    disk.sync().is_ok() && disk.sync().is_err() && disk.length().is_err() && disk.faults() == 3
}

#[test]
fn calls_fail_as_planned_and_from_a_stop_on(rt: HostRuntime) {
    let mut disk = zeros(&rt, rt.alloc(), 58, 2);
    assert!(rt; fails_once(&mut disk) && fails_from_then_on(&mut disk));
}

#[test]
fn a_disk_in_memory_reads_what_was_written(rt: HostRuntime) {
    let mut disk = zeros(&rt, rt.alloc(), 0, 0);
    edit(&rt, &mut disk);
    assert!(rt; is_edited(&whole(&rt, rt.alloc(), &mut disk)));
}
