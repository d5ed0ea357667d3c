use boss_model::{
    Acceptance, Buffer, Cause, Items, KeptReply, KeptTxn, Lease, Notice, Pending, PointId, Policy,
    Priority, ProcId, Txn, What,
};
use boss_records::{Written, put_reply, read_items, read_reply};
use std::alloc::Global;
use std::test::Fail;

const LEASE: &[u8] =
    b"\0\0\0\0\0\0\0\x01\0\0\0\0\0\0\x08\0\0\0\0\0\0\xaf\xc8\0\0\0\0\0\0\xee\x48\0\0";

const PENDING: &[u8] = b"\0\0\0\0\0\0\0\x01\0\0\0\0\0\0\x08\0\0\0\0\0\0\xee\x48\0";

const NOTICE: &[u8] = b"\0\0\0\0\0\0\xee\x48\0\0\0\0\0\0\0\x02\x02\0\0\0\x01\x04\0\0\0\0\0\0\0\x03";

const TRANSACTION: &[u8] =
    b"\0\0\0\0\0\0\0\x02\0\0\x01\x01\0\0\0\x01\x10\x01\0\0\0\0\0\0\0\xee\x48";

const REPLY: &[u8] = b"\x02\0\0\0\0\0\0\0\x05\0\0\0\0\0\0\0\x01\0\0\0\0\0\0\xf6\x18";

/// What is read of a lease, a reversion, a notice and a transaction.
fn told(alloc: Global) -> Result<String, Fail> {
    let (leases, _rest) = read_items::<Lease>(alloc, 1, LEASE)?;
    let (pending, _rest) = read_items::<Pending>(alloc, 1, PENDING)?;
    let (notices, _rest) = read_items::<Notice>(alloc, 1, NOTICE)?;
    Ok(format!(in alloc; "{leases:?} {pending:?} {notices:?}")?)
}

/// How many transactions and parts are read, and what is left behind them.
fn counted(alloc: Global) -> Result<(usize, usize), Fail> {
    let (txns, rest) = read_items::<KeptTxn>(alloc, 1, TRANSACTION)?;
    let mut parts = 0;
    for txn in &txns {
        parts = txn.parts.slice().len();
    }
    Ok((parts, rest.len()))
}

#[test]
fn items_of_a_kept_state_are_read(rt: HostRuntime) -> Result<(), Fail> {
    let alloc = rt.alloc();
    assert_eq!(rt;
        told(alloc)?.as_str(),
        "[Lease { txn: Txn(1), owner: ProcId(0), point: PointId(0), priority: Priority(8), value: 45000, until: 61000, revert: Items { items: [] }, policy: Abort }] [Pending { txn: Txn(1), owner: ProcId(0), point: PointId(0), priority: Priority(8), steps: Items { items: [] }, start: 61000 }] [Notice { number: 0, at: 61000, txn: Txn(2), what: Ended { point: PointId(1), cause: Superseded { by: Txn(3) } } }]"
    );
    assert_eq!(rt; counted(alloc)?, (1, 0));
    let reply = match read_reply(2, REPLY) {
        Ok((reply, _rest)) => reply,
        Err(_none) => None,
    };
    let renewed = KeptReply {
        seq: 5,
        acceptance: Acceptance::Renewed {
            txn: Txn(1),
            until: 63_000,
        },
    };
    assert!(rt; reply == Some(renewed));
    Ok(())
}

#[test]
fn items_of_a_kept_state_are_written(rt: HostRuntime) -> Result<(), Fail> {
    let alloc = rt.alloc();
    let mut text = Buffer::new(alloc, 4_096)?;
    let lease = Lease {
        txn: Txn(1),
        owner: ProcId(0),
        point: PointId(0),
        priority: Priority(8),
        value: 45_000,
        until: 61_000,
        revert: Items::new(alloc),
        policy: Policy::Abort,
    };
    lease.write(&mut text);
    assert_eq!(rt; text.bytes(), LEASE);
    text.clear();
    let notice = Notice {
        number: 9,
        at: 61_000,
        txn: Txn(2),
        what: What::Ended {
            point: PointId(1),
            cause: Cause::Superseded { by: Txn(3) },
        },
    };
    notice.write(&mut text);
    assert_eq!(rt; text.bytes(), NOTICE);
    text.clear();
    let renewed = KeptReply {
        seq: 5,
        acceptance: Acceptance::Renewed {
            txn: Txn(1),
            until: 63_000,
        },
    };
    put_reply(&mut text, Some(renewed));
    assert_eq!(rt; text.bytes(), REPLY);
    Ok(())
}
