use std::alloc::Global;
use std::process::Abort;

/// The digest of the catalogue.
pub const DIGEST: [u8; 32] = [7; 32];

/// The digest of another.
pub const OTHER: [u8; 32] = [8; 32];

/// A process `a` without notices, its transaction 1 with one write, and the lease: 96 bytes in version 2, of which byte 30, from
/// 0 on, says that there is no kept reply.
pub const SMALL: &[u8] =
    b"\0\0\0\0\0\0\x03\xe8\0\0\0\0\0\0\0\x02\0\x01\x01a\0\0\0\0\0\0\0\0\0\0\0\0\0\0\x01\0\0\0\0\0\0\0\x01\0\0\0\x01\0\0\0\0\x08\0\0\0\0\0\0\x01\0\0\0\0\0\0\0\x01\0\0\0\0\0\0\x08\0\0\0\0\0\0\xaf\xc8\0\0\0\0\0\0\xee\x48\0\0\0\0\0\0";

/// The moment 70000, the next transaction 5, and two processes.
const START: &[u8] = b"\0\0\0\0\0\x01\x11\x70\0\0\0\0\0\0\0\x05\0\x02";

/// `ahu`: nine notices so far, of which five are kept.
const AHU: &[u8] = b"\x03ahu\0\0\0\0\0\0\0\x09\0\x05";

/// At 1000, of transaction 1: a fault of point 0.
const FAULT: &[u8] = b"\0\0\0\0\0\0\x03\xe8\0\0\0\0\0\0\0\x01\x01\0\0\0\0";

/// At 61000, of 2: its lease on point 1 ended, superseded by 3.
const ENDED: &[u8] = b"\0\0\0\0\0\0\xee\x48\0\0\0\0\0\0\0\x02\x02\0\0\0\x01\x04\0\0\0\0\0\0\0\x03";

/// At 62000, of 2: its reversion on point 2 reached its end.
const REVERTED: &[u8] = b"\0\0\0\0\0\0\xf2\x30\0\0\0\0\0\0\0\x02\x03\0\0\0\x02";

/// At 62000, of 2: its reversion on point 3 was cut by 4.
const CUT: &[u8] = b"\0\0\0\0\0\0\xf2\x30\0\0\0\0\0\0\0\x02\x04\0\0\0\x03\0\0\0\0\0\0\0\x04";

/// At 62000, of 2: it is done.
const DONE: &[u8] = b"\0\0\0\0\0\0\xf2\x30\0\0\0\0\0\0\0\x02\x05";

/// Request 5 was answered that transaction 1 was renewed until 63000.
const REPLY: &[u8] = b"\x02\0\0\0\0\0\0\0\x05\0\0\0\0\0\0\0\x01\0\0\0\0\0\0\xf6\x18";

/// `b`: no notices and no reply.
const OTHER_PROCESS: &[u8] = b"\x01b\0\0\0\0\0\0\0\0\0\0\0";

/// Two records. That of 1, by process 0, is to abort and has a live lease on point 0 at priority 8.
const LIVE: &[u8] = b"\0\0\0\x02\0\0\0\0\0\0\0\x01\0\0\0\x01\0\0\0\0\x08\0";

/// That of 2, by process 0, is to be kept and has two ended leases: on point 1 at priority 16, superseded by 3 at 61000, and on
/// point 2 at priority 8, cancelled at 62000.
const PAST: &[u8] =
    b"\0\0\0\0\0\0\0\x02\0\0\x01\x02\0\0\0\x01\x10\x01\x04\0\0\0\0\0\0\0\x03\0\0\0\0\0\0\xee\x48\0\0\0\x02\x08\x01\x01\0\0\0\0\0\0\xf2\x30";

/// One is done: 2.
const ARE_DONE: &[u8] = b"\0\x01\0\0\0\0\0\0\0\x02";

/// One lease: of 1 on point 0 at priority 8, 45000 until 130000, and then -1 for 5000 and 30000 for 86400000.
const LEASES: &[u8] =
    b"\0\0\0\x01\0\0\0\0\0\0\0\x01\0\0\0\0\0\0\x08\0\0\0\0\0\0\xaf\xc8\0\0\0\0\0\x01\xfb\xd0\0\x02\xff\xff\xff\xff\xff\xff\xff\xff\0\0\x13\x88\0\0\0\0\0\0\x75\x30\x05\x26\x5c\0";

/// One reversion: of 2 on point 1 at priority 16, from 61000 on, 1 for 60000.
const REVERSIONS: &[u8] =
    b"\0\0\0\x01\0\0\0\0\0\0\0\x02\0\0\0\0\0\x01\x10\0\0\0\0\0\0\xee\x48\x01\0\0\0\0\0\0\0\x01\0\0\xea\x60";

/// A state with all of these: 371 bytes.
pub const LARGE: &[&[u8]] = &[
    START,
    AHU,
    FAULT,
    ENDED,
    REVERTED,
    CUT,
    DONE,
    REPLY,
    OTHER_PROCESS,
    LIVE,
    PAST,
    ARE_DONE,
    LEASES,
    REVERSIONS,
];

/// The same as a text.
pub const LARGE_TOLD: &str = r#"70000 5
ahu 9 [Notice { number: 5, at: 1000, txn: Txn(1), what: Fault { point: PointId(0) } }, Notice { number: 6, at: 61000, txn: Txn(2), what: Ended { point: PointId(1), cause: Superseded { by: Txn(3) } } }, Notice { number: 7, at: 62000, txn: Txn(2), what: Reverted { point: PointId(2) } }, Notice { number: 8, at: 62000, txn: Txn(2), what: Cut { point: PointId(3), by: Txn(4) } }, Notice { number: 9, at: 62000, txn: Txn(2), what: Done }] Some(KeptReply { seq: 5, acceptance: Renewed { txn: Txn(1), until: 63000 } })
b 0 [] None
1 0 Abort, 0 8 None
2 0 Keep, 1 16 Some((Superseded { by: Txn(3) }, 61000)), 2 8 Some((Cancelled, 62000))
done [Txn(2)]
leases [Lease { txn: Txn(1), owner: ProcId(0), point: PointId(0), priority: Priority(8), value: 45000, until: 130000, revert: Items { items: [Step { value: -1, hold: 5000 }, Step { value: 30000, hold: 86400000 }] }, policy: Abort }]
reversions [Pending { txn: Txn(2), owner: ProcId(0), point: PointId(1), priority: Priority(16), steps: Items { items: [Step { value: 1, hold: 60000 }] }, start: 61000 }]
"#;

/// Puts these bytes behind others.
pub fn put(rt: &impl Abort, into: &mut Vec<u8>, bytes: &[u8]) {
    into.extend_from_slice(bytes).expect(rt, "memory");
}

/// All of these, one after another.
pub fn joined(rt: &impl Abort, alloc: Global, parts: &[&[u8]]) -> Vec<u8> {
    let mut bytes = Vec::new(alloc);
    for part in parts {
        put(rt, &mut bytes, part);
    }
    bytes
}

/// A state with so many leases and nothing else, below 256.
pub fn leases(rt: &impl Abort, alloc: Global, count: u8) -> Vec<u8> {
    let mut bytes = joined(rt, alloc, &[&[0; 24], &[0, 0, 0, count]]);
    for i in 0..count {
        put(rt, &mut bytes, &[0; 13]);
        put(rt, &mut bytes, &[i, 8]);
        put(rt, &mut bytes, &[0; 18]);
    }
    put(rt, &mut bytes, &[0; 4]);
    bytes
}

/// The seed of a disk of version 3, and the sum of its state: the first eight bytes that `sha256sum` gives.
pub type Sums = ([u8; 8], [u8; 8]);

/// Of the small state, as generation 3 with five events before it.
pub const SMALL_SUMS: &Sums = &(
    *b"\x73\xf8\x81\x97\xc0\x9c\x87\x1a",
    *b"\x98\xb7\x38\x4b\xeb\xf5\x70\xd0",
);

/// The same of the state with 250 leases.
pub const MANY_SUMS: &Sums = &(
    *b"\x12\x36\xb7\xb3\x1b\x6c\xd6\x71",
    *b"\xe3\x2e\x50\x76\x81\xf1\xde\x9b",
);

/// The same of the large state.
pub const LARGE_SUMS: &Sums = &(
    *b"\xf5\x73\xaf\x6e\x5e\x36\x14\xe5",
    *b"\xa0\x2b\x3c\xcf\xd9\x8b\x62\x0b",
);

/// Of the small state, as generation 4 with seven events before it.
pub const LATE_SUMS: &Sums = &(
    *b"\x29\x7e\x53\xd0\x76\x43\x44\x3b",
    *b"\x5c\x43\x80\x8f\x2f\x2d\xff\x47",
);

/// The seed of the small state's disk, as generation 3 with five events before it, if its version were 4.
pub const SEED_OF_4: [u8; 8] = *b"\x4c\x56\xc2\xb6\xe6\x10\xb4\x7e";

/// The disk of a state of this generation with so many events before it, in version 3, and a shut gate.
pub fn summed_disk(
    rt: &impl Abort,
    alloc: Global,
    generation: u8,
    events: u8,
    spelled: &[u8],
    sums: &Sums,
) -> Vec<u8> {
    let size = (spelled.len() as u64).wrapping_add(8).to_be_bytes();
    joined(
        rt,
        alloc,
        &[
            b"BOSSSNAP\x03",
            &DIGEST,
            &[0, 0, 0, 0, 0, 0, 0, generation],
            &[0, 0, 0, 0, 0, 0, 0, events],
            &size,
            &sums.0,
            spelled,
            &sums.1,
            &[0],
        ],
    )
}

/// The same in version 2, which has no sums.
pub fn state_disk(
    rt: &impl Abort,
    alloc: Global,
    generation: u8,
    events: u8,
    spelled: &[u8],
) -> Vec<u8> {
    let size = (spelled.len() as u64).to_be_bytes();
    joined(
        rt,
        alloc,
        &[
            b"BOSSSNAP\x02",
            &DIGEST,
            &[0, 0, 0, 0, 0, 0, 0, generation],
            &[0, 0, 0, 0, 0, 0, 0, events],
            &size,
            spelled,
            &[0],
        ],
    )
}
