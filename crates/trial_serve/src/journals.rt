//! Servers over a journal on two disks in memory, one after another: what each connection is answered, and the journal's bytes
//! afterwards; and a server whose disk fails.

ghost use Rattle.std.specs.Prelude.{◌<◌, IfSome};

use crate::clocks::call;
use crate::connections::Talk;
use crate::rows::PLAIN;
use crate::stage::{Pair, Setting, run_on_disks};
use crate::texts::expect_text;
use boss_disk::MemoryDisk;
use boss_manager::check_on_disks;
use boss_model::Items;
use boss_outside::BytesSink;
use boss_points::Catalogue;
use std::alloc::Global;
use std::process::Abort;
use std::sync::Wait;
use std::thread::Threads;
use trial_parts::THREE_POINTS;

/// Servers one after another over the same two disks, and what comes of them.
struct Row {
    shows: &'static str,
    settings: &'static [Setting<'static>],
    told: &'static str,
    /// What the first disk has behind its heading.
    log: &'static [&'static [u8]],
}

/// Three requests in one piece.
const HOLD_AND_READ: Talk<'static> = Talk {
    text: r#"{"op":"attach","process":"a"}
{"op":"submit","writes":[{"point":"ahu1.damper","value":45000,"priority":8,"lease":60000}]}
{"op":"read","point":"ahu1.damper"}
"#,
    fails: 0,
};

/// The same, and what comes next is lost.
const LOST_HOLDER: Talk<'static> = Talk {
    fails: 2,
    ..HOLD_AND_READ
};

const ATTACH_B: Talk<'static> = Talk {
    text: r#"{"op":"attach","process":"b"}
"#,
    fails: 0,
};

const NUMBERED: Talk<'static> = Talk {
    text: r#"{"op":"attach","process":"a"}
{"op":"submit","seq":5,"writes":[{"point":"ahu1.damper","value":45000,"priority":8,"lease":60000}]}
"#,
    fails: 0,
};

const AGAIN: Setting<'static> = Setting {
    workers: &[&[NUMBERED]],
    ..PLAIN
};

/// The heading of a journal, before the digest of its catalogue.
const HEADING: &[u8] = b"BOSSJRNL\x03";

/// Each record ends with its sum, the first eight bytes that `sha256sum` gives of the seed, its place and its events. An open gate, 50
/// bytes: the attach of `a` at 1,000, and behind it a submit by process 0, which aborts, of the damper at 45 for a
/// minute, at priority 8.
const HELD: &[u8] =
    b"\x01\0\0\0\x32\x01\0\0\0\0\0\0\x03\xe8\x01a\x02\0\0\0\0\0\0\x03\xe8\0\0\0\x01\0\0\0\0\0\0\0\0\0\0\xaf\xc8\x08\0\0\xea\x60\0\x73\xc4\x2f\x90\x5e\xef\xda\xb1";

/// An open gate, 58 bytes: the same with the number 5.
const HELD_BY_NUMBER: &[u8] =
    b"\x01\0\0\0\x3a\x01\0\0\0\0\0\0\x03\xe8\x01a\x08\0\0\0\0\0\0\x03\xe8\0\0\0\0\0\0\0\0\0\x05\0\x01\0\0\0\0\0\0\0\0\0\0\xaf\xc8\x08\0\0\xea\x60\0\x0a\xc0\x82\x87\x53\xdf\x47\x6e";

/// An open gate, 19 bytes: process 0 is lost at 1,000. The gate is at 96.
const LOST: &[u8] = b"\x01\0\0\0\x13\x05\0\0\0\0\0\0\x03\xe8\0\0\xe2\xce\x4a\x6d\x3d\xb3\x71\x6c";

/// The same with the gate at 104.
const LOST_AT_104: &[u8] =
    b"\x01\0\0\0\x13\x05\0\0\0\0\0\0\x03\xe8\0\0\x4e\xa3\x61\x29\x06\x4a\x9b\x08";

/// An open gate, 19 bytes: the attach of `b` at 1,000. The gate is at 120.
const ATTACHED_B: &[u8] =
    b"\x01\0\0\0\x13\x01\0\0\0\0\0\0\x03\xe8\x01b\x8f\xe3\x02\x60\x94\x95\xea\xa5";

/// A gate that is shut.
pub const SHUT: &[u8] = b"\0";

/// Three requests that come in one piece are done as one record, of the two that change something; the end of the session is another.
const ROWS: &[Row] = &[
    Row {
        shows: "three requests in one piece are one record",
        settings: &[Setting {
            workers: &[&[HOLD_AND_READ]],
            ..PLAIN
        }],
        told: r#"session 1
{"ok":"attached","process":"a","next":1}
{"ok":"accepted","txn":1,"until":61000}
{"ok":"read","point":"ahu1.damper","value":45000,"from":"lease","priority":8,"txn":1,"mark":"pending"}
pauses 0
pauses 1 closed
events 3 now 1000 leases 0 pending 0
status 0
"#,
        log: &[HELD, LOST, SHUT],
    },
    // The first connection's second read fails, which is kept as its end is. A process without a lease is lost without an event.
    Row {
        shows: "of two connections one is lost",
        settings: &[Setting {
            workers: &[&[LOST_HOLDER, ATTACH_B]],
            ..PLAIN
        }],
        told: r#"session 1
{"ok":"attached","process":"a","next":1}
{"ok":"accepted","txn":1,"until":61000}
{"ok":"read","point":"ahu1.damper","value":45000,"from":"lease","priority":8,"txn":1,"mark":"pending"}
session 2
{"ok":"attached","process":"b","next":1}
pauses 0
pauses 1 closed
events 4 now 1000 leases 0 pending 0
status 0
"#,
        log: &[HELD, LOST, ATTACHED_B, SHUT],
    },
    // The second server knows the number: the answer is that of the first, though the lease is over, and nothing is written. Its attach
    // is of a process that is known by its name, so it is no event.
    Row {
        shows: "a numbered submit that is sent again behind an opening is made once",
        settings: &[AGAIN, AGAIN],
        told: r#"session 1
{"ok":"attached","process":"a","next":1}
{"ok":"accepted","txn":1,"until":61000}
pauses 0
pauses 1 closed
events 3 now 1000 leases 0 pending 0
status 0
session 1
{"ok":"attached","process":"a","next":3}
{"ok":"accepted","txn":1,"until":61000}
pauses 0
pauses 1 closed
events 3 now 1000 leases 0 pending 0
status 0
"#,
        log: &[HELD_BY_NUMBER, LOST_AT_104, SHUT],
    },
];

/// An empty disk that fails the call of this number, counted from 1; 0 is none.
fn empty_disk(rt: &impl Abort, alloc: Global, fails: u64) -> MemoryDisk {
    MemoryDisk::new(alloc, Items::new(alloc), call(rt, alloc, fails)).expect(rt, "memory")
}

/// Two empty disks, of which the first fails the call of this number, counted from 1; 0 is none.
pub fn empty_disks(rt: &impl Abort, alloc: Global, fails: u64) -> Pair {
    (empty_disk(rt, alloc, fails), empty_disk(rt, alloc, 0))
}

/// Puts down bytes.
pub fn put_bytes(rt: &impl Abort, bytes: &mut Vec<u8>, more: &[u8]) {
    bytes.extend_from_slice(more).expect(rt, "memory");
}

/// The journal of this catalogue with this log.
fn journal(rt: &impl Abort, alloc: Global, catalogue: &Catalogue, log: &[&[u8]]) -> Vec<u8> {
    let mut bytes = HEADING.to_vec(alloc).expect(rt, "memory");
    put_bytes(rt, &mut bytes, &catalogue.digest());
    for record in log {
        put_bytes(rt, &mut bytes, record);
    }
    bytes
}

/// What servers tell that run one after another over two empty disks, and what the disks have then.
fn run_all<R: Abort + Threads + Wait + Sync>(
    rt: &R,
    alloc: Global,
    catalogue: &Catalogue,
    settings: &[Setting],
) -> (String, Pair) {
    let mut told = String::new(alloc);
    let mut disks = empty_disks(rt, alloc, 0);
    for setting in settings {
        disks = run_next(rt, alloc, catalogue, setting, disks, &mut told);
    }
    (told, disks)
}

/// The disks that a server leaves, which puts what it tells behind this text.
fn run_next<R: Abort + Threads + Wait + Sync>(
    rt: &R,
    alloc: Global,
    catalogue: &Catalogue,
    setting: &Setting,
    disks: Pair,
    told: &mut String,
) -> Pair {
    let (text, left) = run_on_disks(rt, alloc, catalogue, setting, disks);
    told.push_str(text.as_str()).expect(rt, "memory");
    left
}

/// Whether a disk has these bytes, and no others.
fn has_bytes(disk: MemoryDisk, bytes: &[u8]) -> bool {
    disk.into_bytes().slice() == bytes
}

/// A disk has to have these bytes, and no others.
pub fn expect_bytes(rt: &impl Abort, disk: MemoryDisk, bytes: &[u8], shows: &str) {
    assert!(rt; has_bytes(disk, bytes), "{shows}");
}

/// A disk has to have the journal of this catalogue with this log.
pub fn expect_journal(
    rt: &impl Abort,
    alloc: Global,
    catalogue: &Catalogue,
    disk: MemoryDisk,
    log: &[&[u8]],
    shows: &str,
) {
    let wanted = journal(rt, alloc, catalogue, log);
    expect_bytes(rt, disk, wanted.as_slice(), shows);
}

/// Runs the servers of a row, and compares what is told, and what the disks have then: the first its journal, and the second nothing.
fn expect_row<R: Abort + Threads + Wait + Sync>(
    rt: &R,
    alloc: Global,
    catalogue: &Catalogue,
    row: &Row,
) {
    let (told, (first, second)) = run_all(rt, alloc, catalogue, row.settings);
    expect_text(rt, told.as_str(), row.told, row.shows);
    expect_journal(rt, alloc, catalogue, first, row.log, row.shows);
    expect_bytes(rt, second, &[], row.shows);
}

/// The same of each row.
fn expect_rows<R: Abort + Threads + Wait + Sync>(
    rt: &R,
    alloc: Global,
    catalogue: &Catalogue,
    rows: &[Row],
) {
    for row in rows {
        expect_row(rt, alloc, catalogue, row);
    }
}

#[test]
fn servers_over_a_journal(rt: HostRuntime) {
    let alloc = rt.alloc();
    let catalogue = Catalogue::read(alloc, THREE_POINTS.as_bytes()).expect(&rt, "a catalogue");
    expect_rows(&rt, alloc, &catalogue, ROWS);
}

/// A worker with a connection behind another.
const TWO: Setting<'static> = Setting {
    workers: &[&[HOLD_AND_READ, ATTACH_B]],
    ..PLAIN
};

/// What a server tells whose disk failed, and what a check of the journal may tell then: that what failed was not done, or that it was.
struct Broken {
    told: &'static str,
    held: [&'static str; 2],
}

/// The disk fails as the journal is opened; as the first connection's requests are kept; as its loss is; as the second connection's attach
/// is; or not at all. A connection that comes behind the one that met the fault is not taken, and time meets a disk that failed before.
const BROKEN: [Broken; 5] = [
    Broken {
        told: "status 5\n",
        held: ["journal new\n", "events 0 now 0 leases 0 pending 0\n"],
    },
    Broken {
        told: r#"session 1
{"error":"stopped"}
pauses 0
pauses 0
status 5
"#,
        held: [
            "events 0 now 0 leases 0 pending 0\n",
            "events 2 now 1000 leases 1 pending 0\n",
        ],
    },
    Broken {
        told: r#"session 1
{"ok":"attached","process":"a","next":1}
{"ok":"accepted","txn":1,"until":61000}
{"ok":"read","point":"ahu1.damper","value":45000,"from":"lease","priority":8,"txn":1,"mark":"pending"}
pauses 0
pauses 0
status 5
"#,
        held: [
            "events 2 now 1000 leases 1 pending 0\n",
            "events 3 now 1000 leases 0 pending 0\n",
        ],
    },
    Broken {
        told: r#"session 1
{"ok":"attached","process":"a","next":1}
{"ok":"accepted","txn":1,"until":61000}
{"ok":"read","point":"ahu1.damper","value":45000,"from":"lease","priority":8,"txn":1,"mark":"pending"}
session 2
{"error":"stopped"}
pauses 0
pauses 0
status 5
"#,
        held: [
            "events 3 now 1000 leases 0 pending 0\n",
            "events 4 now 1000 leases 0 pending 0\n",
        ],
    },
    Broken {
        told: r#"session 1
{"ok":"attached","process":"a","next":1}
{"ok":"accepted","txn":1,"until":61000}
{"ok":"read","point":"ahu1.damper","value":45000,"from":"lease","priority":8,"txn":1,"mark":"pending"}
session 2
{"ok":"attached","process":"b","next":1}
pauses 0
pauses 1 closed
events 4 now 1000 leases 0 pending 0
status 0
"#,
        held: [
            "events 4 now 1000 leases 0 pending 0\n",
            "events 4 now 1000 leases 0 pending 0\n",
        ],
    },
];

/// More calls than the server makes of its first disk.
const MANY: u64 = 60;

/// Whether this is what is told at this place.
fn is_told_at(place: usize, told: &str) -> bool
    requires { place < 5 }
{
    BROKEN[place].told == told
}

/// The place of what is told among those that may be.
fn place_of(told: &str) -> Option<usize>
    ensures { IfSome result (λ place. place < 5) }
{
    for place in 0..5usize {
        if is_told_at(place, told) {
            return Some(place);
        }
    }
    None
}

/// What a check tells of what a crash may leave of two disks: what was not synced is lost for 0, and stays for 1.
fn checked(
    rt: &impl Abort,
    alloc: Global,
    catalogue: &Catalogue,
    disks: &Pair,
    pick: u64,
) -> BytesSink {
    let first = disks.0.image(alloc, pick).expect(rt, "memory");
    let second = disks.1.image(alloc, pick).expect(rt, "memory");
    let mut sink = BytesSink::new(alloc, Items::new(alloc)).expect(rt, "memory");
    let _disks = check_on_disks(alloc, catalogue, first, second, &mut sink);
    sink
}

/// Whether a check tells one of these of what a crash may leave for this pick.
fn may_be_picked(
    rt: &impl Abort,
    alloc: Global,
    catalogue: &Catalogue,
    disks: &Pair,
    held: &[&str; 2],
    pick: u64,
) -> bool {
    let sink = checked(rt, alloc, catalogue, disks, pick);
    is_one_of(sink.taken(), held)
}

/// Whether these bytes are one of two texts.
fn is_one_of(told: &[u8], held: &[&str; 2]) -> bool {
    told == held[0].as_bytes() || told == held[1].as_bytes()
}

/// Fails the call of this number, and compares what is told behind what was told at this place: the same, or what comes next. A crash may
/// leave only what that row has. Gives the place of what is told.
fn expect_next<R: Abort + Threads + Wait + Sync>(
    rt: &R,
    alloc: Global,
    catalogue: &Catalogue,
    call: u64,
    place: usize,
) -> usize
    ensures { result < 5 }
{
    let (told, left) = run_on_disks(rt, alloc, catalogue, &TWO, empty_disks(rt, alloc, call));
    let next = place_of(told.as_str()).expect(rt, "what may be told");
    assert!(rt; place <= next && next - place <= 1);
    expect_left(rt, alloc, catalogue, &left, next, call);
    next
}

/// A crash may leave only what the row at this place has, whether it lost what was not synced or not.
fn expect_left(
    rt: &impl Abort,
    alloc: Global,
    catalogue: &Catalogue,
    disks: &Pair,
    place: usize,
    call: u64,
)
    requires { place < 5 }
{
    let held = &BROKEN[place].held;
    let lost = may_be_picked(rt, alloc, catalogue, disks, held, 0);
    let stays = may_be_picked(rt, alloc, catalogue, disks, held, 1);
    assert!(rt; lost && stays, "call {call}");
}

/// The place of what is told at the end, where each call of the disk fails in turn.
fn expect_each<R: Abort + Threads + Wait + Sync>(
    rt: &R,
    alloc: Global,
    catalogue: &Catalogue,
) -> usize {
    let mut place: usize = 0;
    for call in 1..MANY {
        place = expect_next(rt, alloc, catalogue, call, place);
    }
    place
}

/// Each call of the disk fails in turn, and none of what may be told is missing.
#[test]
fn behind_a_disk_that_failed_no_connection_is_taken(rt: HostRuntime) {
    let alloc = rt.alloc();
    let catalogue = Catalogue::read(alloc, THREE_POINTS.as_bytes()).expect(&rt, "a catalogue");
    let place = expect_each(&rt, alloc, &catalogue);
    assert_eq!(rt; place, 4);
}
