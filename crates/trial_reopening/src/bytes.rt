// The bytes of journals of the three points, as the format has them by their places.
use crate::sums::{seed_of, sum_of};
use std::alloc::Global;
use std::process::Abort;

/// SHA-256 of the canonical text of the three points.
pub const DIGEST: &[u8; 32] =
    b"\xaa\xf2Ot\xf7Tn\xc5\xb6Q\x86D\xb7\x91\xc1o&i\xc8s\x80vd5\xde-\x82\xa7\xa6\x10\xd0Y";

/// The record of an attach of `a` at 0: an open gate, 11 bytes, the event.
pub const ATTACHED: &[u8] = b"\x01\0\0\0\x0b\x01\0\0\0\0\0\0\0\0\x01a";

/// Its event.
pub const ATTACH_EVENT: &[u8] = b"\x01\0\0\0\0\0\0\0\0\x01a";

/// The tag of a submit.
pub const SUBMIT_TAG: &[u8] = b"\x02";

/// An open gate, 31 bytes, and the tag of a submit.
pub const SUBMIT_HEAD: &[u8] = b"\x01\0\0\0\x1f\x02";

/// Behind the moment of a submit: by process 0, which aborts, the damper at 45 for a minute, at priority 8.
pub const SUBMIT_TAIL: &[u8] = b"\0\0\0\x01\0\0\0\0\0\0\0\0\0\0\xaf\xc8\x08\0\0\xea\x60\0";

/// A gate that is shut.
pub const SHUT: &[u8] = b"\0";

/// The moment 1000.
pub const AT_1000: &[u8] = b"\0\0\0\0\0\0\x03\xe8";

/// What outlasts a stop behind the attach and a submit at 1000: the moment 1000, the next transaction 2, a process `a`
/// without notices and without a kept reply, transaction 1 with one live part, none done, the lease until 61000, and no reversion.
const STATE: &[u8] =
    b"\0\0\0\0\0\0\x03\xe8\0\0\0\0\0\0\0\x02\0\x01\x01a\0\0\0\0\0\0\0\0\0\0\0\0\0\0\x01\0\0\0\0\0\0\0\x01\0\0\0\x01\0\0\0\0\x08\0\0\0\0\0\0\x01\0\0\0\0\0\0\0\x01\0\0\0\0\0\0\x08\0\0\0\0\0\0\xaf\xc8\0\0\0\0\0\0\xee\x48\0\0\0\0\0\0";

/// The same with its moments 400 ms earlier: the moment 600, and the lease until 60600.
const EARLIER: &[u8] =
    b"\0\0\0\0\0\0\x02\x58\0\0\0\0\0\0\0\x02\0\x01\x01a\0\0\0\0\0\0\0\0\0\0\0\0\0\0\x01\0\0\0\0\0\0\0\x01\0\0\0\x01\0\0\0\0\x08\0\0\0\0\0\0\x01\0\0\0\0\0\0\0\x01\0\0\0\0\0\0\x08\0\0\0\0\0\0\xaf\xc8\0\0\0\0\0\0\xec\xb8\0\0\0\0\0\0";

/// These bytes behind one another.
pub fn joined(rt: &impl Abort, alloc: Global, parts: &[&[u8]]) -> Vec<u8> {
    let mut bytes = Vec::new(alloc);
    put_parts(rt, &mut bytes, parts);
    bytes
}

/// Puts these bytes behind others.
pub fn put(rt: &impl Abort, into: &mut Vec<u8>, bytes: &[u8]) {
    into.extend_from_slice(bytes).expect(rt, "memory");
}

fn put_parts(rt: &impl Abort, into: &mut Vec<u8>, parts: &[&[u8]]) {
    for part in parts {
        put(rt, into, part);
    }
}

/// The journal of the attach and the submit: 94 bytes, in version 2.
pub fn worked_2(rt: &impl Abort, alloc: Global) -> Vec<u8> {
    let log = [ATTACHED, SUBMIT_HEAD, AT_1000, SUBMIT_TAIL, SHUT];
    journal(rt, alloc, b"\x02", DIGEST, &log)
}

/// Its records in version 3, each with its sum: the first eight bytes that `sha256sum` gives.
const SUMMED_ATTACH: &[u8] =
    b"\x01\0\0\0\x13\x01\0\0\0\0\0\0\0\0\x01a\x99\x4f\x2f\xef\x93\xe0\xe6\xad";

const SUBMIT_SUM: &[u8] = b"\xe3\xc2\x28\x04\x27\xc3\xb4\xb1";

/// The same in version 3: 110 bytes.
pub fn worked(rt: &impl Abort, alloc: Global) -> Vec<u8> {
    let head: &[u8] = b"\x01\0\0\0\x27\x02";
    let log = [SUMMED_ATTACH, head, AT_1000, SUBMIT_TAIL, SUBMIT_SUM, SHUT];
    journal(rt, alloc, b"\x03", DIGEST, &log)
}

/// A journal of this version and digest, and what stands behind its heading.
pub fn journal(
    rt: &impl Abort,
    alloc: Global,
    version: &[u8; 1],
    digest: &[u8; 32],
    log: &[&[u8]],
) -> Vec<u8> {
    let mut bytes = joined(rt, alloc, &[b"BOSSJRNL", version, digest]);
    put_parts(rt, &mut bytes, log);
    bytes
}

/// The disk of the state behind the attach and the submit: generation 1, two events before it, and a shut gate. 178 bytes.
pub fn kept(rt: &impl Abort, alloc: Global) -> Vec<u8> {
    kept_as(rt, alloc, DIGEST, 1)
}

/// The same in another generation, under a catalogue of this digest.
pub fn kept_as(rt: &impl Abort, alloc: Global, digest: &[u8; 32], generation: u64) -> Vec<u8> {
    kept_behind(rt, alloc, digest, generation, 2, STATE)
}

/// The disk of the state with its moments 400 ms earlier, in this generation, with one event more before it.
pub fn earlier_as(rt: &impl Abort, alloc: Global, generation: u64) -> Vec<u8> {
    kept_behind(rt, alloc, DIGEST, generation, 3, EARLIER)
}

/// The disk of a state of so many bytes as the first has, behind so many events.
fn kept_behind(
    rt: &impl Abort,
    alloc: Global,
    digest: &[u8; 32],
    generation: u64,
    events: u64,
    state: &[u8],
) -> Vec<u8> {
    let mut front = joined(rt, alloc, &[b"OSSSNAP\x03", digest]);
    put(rt, &mut front, &generation.to_be_bytes());
    put(rt, &mut front, &events.to_be_bytes());
    put(rt, &mut front, b"\0\0\0\0\0\0\0\x68");
    let seed = seed_of(rt, alloc, &[&front]);
    let sum = sum_of(rt, alloc, &seed, 65, state);
    joined(rt, alloc, &[b"B", &front, &seed, state, &sum, SHUT])
}

/// The first in version 2, which has no sums: 162 bytes.
pub fn kept_2(rt: &impl Abort, alloc: Global) -> Vec<u8> {
    let generation: u64 = 1;
    let digest = DIGEST;
    let numbers: &[u8] = b"\0\0\0\0\0\0\0\x02\0\0\0\0\0\0\0\x60";
    joined(
        rt,
        alloc,
        &[
            b"BOSSSNAP\x02",
            digest,
            &generation.to_be_bytes(),
            numbers,
            STATE,
            SHUT,
        ],
    )
}
