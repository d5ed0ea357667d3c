use crate::bytes::{LARGE, SMALL, joined};
use crate::disks::spelled;
use crate::texts::told;
use boss_shifting::{most_shift, shift_state};
use std::alloc::Global;
use std::process::Abort;

/// The large state, each moment 1000 earlier.
const EARLIER: &str = r#"69000 5
ahu 9 [Notice { number: 5, at: 0, txn: Txn(1), what: Fault { point: PointId(0) } }, Notice { number: 6, at: 60000, txn: Txn(2), what: Ended { point: PointId(1), cause: Superseded { by: Txn(3) } } }, Notice { number: 7, at: 61000, txn: Txn(2), what: Reverted { point: PointId(2) } }, Notice { number: 8, at: 61000, txn: Txn(2), what: Cut { point: PointId(3), by: Txn(4) } }, Notice { number: 9, at: 61000, txn: Txn(2), what: Done }] Some(KeptReply { seq: 5, acceptance: Renewed { txn: Txn(1), until: 62000 } })
b 0 [] None
1 0 Abort, 0 8 None
2 0 Keep, 1 16 Some((Superseded { by: Txn(3) }, 60000)), 2 8 Some((Cancelled, 61000))
done [Txn(2)]
leases [Lease { txn: Txn(1), owner: ProcId(0), point: PointId(0), priority: Priority(8), value: 45000, until: 129000, revert: Items { items: [Step { value: -1, hold: 5000 }, Step { value: 30000, hold: 86400000 }] }, policy: Abort }]
reversions [Pending { txn: Txn(2), owner: ProcId(0), point: PointId(1), priority: Priority(16), steps: Items { items: [Step { value: 1, hold: 60000 }] }, start: 60000 }]
"#;

/// The same 61000 earlier: its reversion starts at 0, and what is older was told then.
const EARLIEST: &str = r#"9000 5
ahu 9 [Notice { number: 5, at: 0, txn: Txn(1), what: Fault { point: PointId(0) } }, Notice { number: 6, at: 0, txn: Txn(2), what: Ended { point: PointId(1), cause: Superseded { by: Txn(3) } } }, Notice { number: 7, at: 1000, txn: Txn(2), what: Reverted { point: PointId(2) } }, Notice { number: 8, at: 1000, txn: Txn(2), what: Cut { point: PointId(3), by: Txn(4) } }, Notice { number: 9, at: 1000, txn: Txn(2), what: Done }] Some(KeptReply { seq: 5, acceptance: Renewed { txn: Txn(1), until: 2000 } })
b 0 [] None
1 0 Abort, 0 8 None
2 0 Keep, 1 16 Some((Superseded { by: Txn(3) }, 0)), 2 8 Some((Cancelled, 1000))
done [Txn(2)]
leases [Lease { txn: Txn(1), owner: ProcId(0), point: PointId(0), priority: Priority(8), value: 45000, until: 69000, revert: Items { items: [Step { value: -1, hold: 5000 }, Step { value: 30000, hold: 86400000 }] }, policy: Abort }]
reversions [Pending { txn: Txn(2), owner: ProcId(0), point: PointId(1), priority: Priority(16), steps: Items { items: [Step { value: 1, hold: 60000 }] }, start: 0 }]
"#;

/// The moment 2000, the next transaction 2, and one process, `a`, without notices.
const ASKED: &[u8] = b"\0\0\0\0\0\0\x07\xd0\0\0\0\0\0\0\0\x02\0\x01\x01a\0\0\0\0\0\0\0\0\0\0";

/// Behind the kind of an answer: it is to request 5, of transaction 1, at 61000. Nothing else is kept.
const ANSWERED: &[u8] =
    b"\0\0\0\0\0\0\0\x05\0\0\0\0\0\0\0\x01\0\0\0\0\0\0\xee\x48\0\0\0\0\0\0\0\0\0\0\0\0\0\0";

/// What becomes of the state that these bytes spell, as a text.
fn shifted(rt: &impl Abort, alloc: Global, bytes: &[u8], by: u64) -> String {
    let kept = spelled(alloc, bytes).expect(rt, "a state");
    let most = most_shift(&kept);
    if by > most {
        return format!(in alloc; "too far, {most} at most").expect(rt, "memory");
    }
    told(rt, alloc, &shift_state(alloc, kept, by))
}

/// The same of a state with an answer of this kind, 1000 earlier.
fn answer_shifted(rt: &impl Abort, alloc: Global, kind: u8) -> String {
    shifted(
        rt,
        alloc,
        &joined(rt, alloc, &[ASKED, &[kind], ANSWERED]),
        1000,
    )
}

#[test]
fn each_moment_is_as_much_earlier(rt: HostRuntime) {
    let large = joined(&rt, rt.alloc(), LARGE);
    assert_eq!(&rt; shifted(&rt, rt.alloc(), &large, 1000).as_str(), EARLIER);
    assert_eq!(&rt; shifted(&rt, rt.alloc(), &large, 61000).as_str(), EARLIEST);
}

#[test]
fn no_reversion_starts_before_0(rt: HostRuntime) {
    let large = joined(&rt, rt.alloc(), LARGE);
    assert_eq!(&rt;
        shifted(&rt, rt.alloc(), &large, 61001).as_str(),
        "too far, 61000 at most"
    );
    assert_eq!(&rt;
        shifted(&rt, rt.alloc(), SMALL, 1001).as_str(),
        "too far, 1000 at most"
    );
}

#[test]
fn each_kind_of_answer_is_as_much_earlier(rt: HostRuntime) {
    assert_eq!(&rt;
        answer_shifted(&rt, rt.alloc(), 1).as_str(),
        "1000 2\na 0 [] Some(KeptReply { seq: 5, acceptance: Accepted { txn: Txn(1), until: 60000 } })\ndone []\nleases []\nreversions []\n"
    );
    assert_eq!(&rt;
        answer_shifted(&rt, rt.alloc(), 2).as_str(),
        "1000 2\na 0 [] Some(KeptReply { seq: 5, acceptance: Renewed { txn: Txn(1), until: 60000 } })\ndone []\nleases []\nreversions []\n"
    );
    assert_eq!(&rt;
        answer_shifted(&rt, rt.alloc(), 3).as_str(),
        "1000 2\na 0 [] Some(KeptReply { seq: 5, acceptance: Cancelled { txn: Txn(1), at: 60000 } })\ndone []\nleases []\nreversions []\n"
    );
}
