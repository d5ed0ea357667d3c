// The bytes of journals of the three points, as the format has them by their places, and the lines that tell them.
use std::alloc::Global;
use std::process::Abort;

/// SHA-256 of the canonical text of the three points.
const DIGEST: &[u8; 32] =
    b"\xaa\xf2Ot\xf7Tn\xc5\xb6Q\x86D\xb7\x91\xc1o&i\xc8s\x80vd5\xde-\x82\xa7\xa6\x10\xd0Y";

/// The records of an attach of `a` at 0, and of a submit at 1000: the damper at 45 for a minute, at priority 8.
const WORKED: &[u8] =
    b"\x01\0\0\0\x0b\x01\0\0\0\0\0\0\0\0\x01a\x01\0\0\0\x1f\x02\0\0\0\0\0\0\x03\xe8\0\0\0\x01\0\0\0\0\0\0\0\0\0\0\xaf\xc8\x08\0\0\xea\x60\0";

/// What outlasts a stop behind them, up to the process's kept reply: the moment 1000, the next transaction 2, a process `a`
/// without notices.
const STATE_HEAD: &[u8] = b"\0\0\0\0\0\0\x03\xe8\0\0\0\0\0\0\0\x02\0\x01\x01a\0\0\0\0\0\0\0\0\0\0";

/// Behind the kept reply: transaction 1 with one live part, none done, the lease until 61000, and no reversion.
const STATE_TAIL: &[u8] =
    b"\0\0\0\x01\0\0\0\0\0\0\0\x01\0\0\0\x01\0\0\0\0\x08\0\0\0\0\0\0\x01\0\0\0\0\0\0\0\x01\0\0\0\0\0\0\x08\0\0\0\0\0\0\xaf\xc8\0\0\0\0\0\0\xee\x48\0\0\0\0\0\0";

/// The record of a tick at 61000, and a shut gate.
const TICKED: &[u8] = b"\x01\0\0\0\x09\x06\0\0\0\0\0\0\xee\x48\0";

pub const FIRST: &str = "event 1 0100000000000000000161\n";

pub const SECOND: &str = "event 2 0200000000000003e80000000100000000000000000000afc8080000ea6000\n";

pub const THIRD: &str = "event 3 06000000000000ee48\n";

pub const STATE: &str =
    "state 2 96\npart 00000000000003e8000000000000000200010161000000000000000000000000000001000000000000000100000001000000000800000000000001000000000000000100000000000008000000000000afc8000000000000ee48000000000000\n";

/// The records of both in version 3, with their sums, the first eight bytes that `sha256sum` gives; the second gate is at 65.
const SUMMED: &[u8] =
    b"\x01\0\0\0\x13\x01\0\0\0\0\0\0\0\0\x01a\x99\x4f\x2f\xef\x93\xe0\xe6\xad\x01\0\0\0\x27\x02\0\0\0\0\0\0\x03\xe8\0\0\0\x01\0\0\0\0\0\0\0\0\0\0\xaf\xc8\x08\0\0\xea\x60\0\xe3\xc2\x28\x04\x27\xc3\xb4\xb1";

/// The seed of the kept state in version 3, and its sum.
const SEED: &[u8] = b"\x05\x97\x10\x21\x2f\x33\x6c\xa9";

const STATE_SUM: &[u8] = b"\x7c\x56\x31\x88\xd2\xfc\x48\xa6";

/// The record of the tick behind it, whose gate is at 177, and a shut gate.
const SUMMED_TICK: &[u8] =
    b"\x01\0\0\0\x11\x06\0\0\0\0\0\0\xee\x48\xf0\x28\x53\xf1\xdc\x55\x8b\xbe\0";

/// What a disk holds.
#[derive(Clone, Copy)]
pub enum Held {
    Nothing,
    /// The attach and the submit, and this gate behind them, at place 93.
    Log { gate: u8 },
    /// The same with sums; the gate is at place 109.
    SummedLog { gate: u8 },
    /// The state behind them, with its sum, and the tick.
    SummedKept,
    /// The state of version 2, and the tick.
    Kept,
    /// The same of version 1, which has no kept replies.
    OldKept,
}

fn joined(rt: &impl Abort, alloc: Global, parts: &[&[u8]]) -> Vec<u8> {
    let mut bytes = Vec::new(alloc);
    for part in parts {
        bytes.extend_from_slice(part).expect(rt, "memory");
    }
    bytes
}

/// A kept state of this version, with two events before it, in generation 1.
fn kept(rt: &impl Abort, alloc: Global, version: &[u8], size: &[u8], reply: &[u8]) -> Vec<u8> {
    let numbers: &[u8] = b"\0\0\0\0\0\0\0\x01\0\0\0\0\0\0\0\x02\0\0\0\0\0\0\0";
    joined(
        rt,
        alloc,
        &[
            b"BOSSSNAP",
            version,
            DIGEST,
            numbers,
            size,
            STATE_HEAD,
            reply,
            STATE_TAIL,
            TICKED,
        ],
    )
}

/// Its bytes.
pub fn bytes_of(rt: &impl Abort, alloc: Global, held: Held) -> Vec<u8> {
    match held {
        Held::Nothing => Vec::new(alloc),
        Held::Log { gate } => joined(rt, alloc, &[b"BOSSJRNL\x02", DIGEST, WORKED, &[gate]]),
        Held::SummedLog { gate } => joined(rt, alloc, &[b"BOSSJRNL\x03", DIGEST, SUMMED, &[gate]]),
        Held::SummedKept => joined(
            rt,
            alloc,
            &[
                b"BOSSSNAP\x03",
                DIGEST,
                b"\0\0\0\0\0\0\0\x01\0\0\0\0\0\0\0\x02\0\0\0\0\0\0\0\x68",
                SEED,
                STATE_HEAD,
                b"\0",
                STATE_TAIL,
                STATE_SUM,
                SUMMED_TICK,
            ],
        ),
        Held::Kept => kept(rt, alloc, b"\x02", b"\x60", b"\0"),
        Held::OldKept => kept(rt, alloc, b"\x01", b"\x5f", b""),
    }
}
