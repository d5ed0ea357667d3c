// Several commands of one call, which make one record.
ghost use Rattle.std.specs.Prelude.{◌≡◌, ◌≤◌, ◌<◌, List, length, vec_capacity};
ghost use Rattle.std.specs.List.{AllByRecursion};
ghost use Rattle.def_history.specs.History.{MayCall};
ghost use Rattle.boss_model.specs.Catalogue.{actuators};
ghost use Rattle.boss_model.specs.declared.state.Actuator.{Actuator};
ghost use Rattle.boss_model.specs.Sound.{IsAllowed};

use crate::bytes::{DIGEST, SUBMIT_TAIL, joined, put};
use crate::limited::LOG_LIMIT;
use crate::outside::*;
use crate::sums::summed;
use boss_model::{Answer, Command, Items, Name, PointId, Policy, SessionId, Setting, Txn};
use boss_opening::open;
use boss_points::Catalogue;
use std::alloc::Global;
use std::process::Abort;

/// The process `a` is attached, holds the damper at 45 for a minute, at priority 8, and renews its lease 14 times.
fn command(rt: &impl Abort, alloc: Global, place: u64) -> Command
    ensures { (plant : List Actuator) → 0 < length plant → IsAllowed plant result }
{
    match place {
        0 => Command::Attach {
            name: Name::new(b"a").expect(rt, "a name"),
        },
        1 => submit(rt, alloc),
        _ => Command::Renew {
            txn: Txn(1),
            length: 60_000,
            points: Items::new(alloc),
            seq: 0,
        },
    }
}

fn submit(rt: &impl Abort, alloc: Global) -> Command
    ensures { (plant : List Actuator) → 0 < length plant → IsAllowed plant result }
{
    let mut writes = Items::new(alloc);
    let write = Setting {
        point: PointId(0),
        value: 45_000,
        priority: 8,
        lease: 60_000,
        revert: Items::new(alloc),
    };
    writes.try_push(write).expect(rt, "memory");
    Command::Submit {
        writes,
        policy: Policy::Abort,
        seq: 0,
    }
}

/// Sixteen commands, a millisecond after one another from 1000 on.
fn sixteen(rt: &impl Abort, alloc: Global) -> Items<(Command, u64)>
    ensures count { length result ≡ 16 }
    ensures may { (plant : List Actuator) → 0 < length plant → AllByRecursion (MayCall plant) result }
{
    let mut calls = Items::new(alloc);
    for place in 0..16 {
        let call = (command(rt, alloc, place), 1000 + place);
        calls.try_push(call).expect(rt, "memory");
    }
    calls
}

/// What they make, 378 bytes: the attach at 1000, the submit at 1001, and the renewals.
fn record(rt: &impl Abort, alloc: Global) -> Vec<u8> {
    let head: &[u8] = b"\x01\0\0\0\0\0\0\x03\xe8\x01a\x02\0\0\0\0\0\0\x03\xe9";
    let mut bytes = joined(rt, alloc, &[head, SUBMIT_TAIL]);
    for moment in 1002..1016u64 {
        put_renewal(rt, &mut bytes, moment);
    }
    bytes
}

/// The renewal at a moment.
fn put_renewal(rt: &impl Abort, into: &mut Vec<u8>, moment: u64) {
    put(rt, into, b"\x03");
    put(rt, into, &moment.to_be_bytes());
    put(rt, into, b"\0\0\0\0\0\0\0\0\0\x01\0\0\xea\x60\0");
}

/// How many of the commands are done on two empty disks, and what the first has then.
fn done_together(
    rt: &impl Abort,
    alloc: Global,
    catalogue: &Catalogue,
    calls: &Items<(Command, u64)>,
) -> (u32, Items<u8>)
    requires count { length calls.now ≡ 16 }
    requires may { AllByRecursion (MayCall (actuators catalogue.now)) calls.now }
{
    let mut answers: Vec<Answer> = Vec::with_capacity(alloc, 16).expect(rt, "memory");
    let (first, second) = pair(rt, alloc, &[], &[]);
    match open(alloc, catalogue, first, second, LOG_LIMIT) {
        Ok(durable) => {
            let mut durable = durable;
            let outcomes = durable.apply_all(SessionId(1), calls, &mut answers);
            let (first, _) = durable.close();
            (outcomes.done, first.into_bytes())
        }
        Err(_) => rt.panic("a pair that opens"),
    }
}

#[test]
fn sixteen_commands_make_one_record(rt: HostRuntime) {
    let alloc = rt.alloc();
    let catalogue = three_points(&rt, alloc);
    assert_eq!(&rt; catalogue.count(), 3);
    let calls = sixteen(&rt, alloc);
    let (done, bytes) = done_together(&rt, alloc, &catalogue, &calls);
    expect_record(&rt, alloc, done, bytes.slice());
}

/// All of them are done, and make a journal of the one record.
fn expect_record(rt: &impl Abort, alloc: Global, done: u32, bytes: &[u8]) {
    assert!(rt; done == 16);
    let record = record(rt, alloc);
    assert!(rt; record.len() == 378);
    let wanted = summed(rt, alloc, DIGEST, &[&record]);
    assert!(rt; bytes == wanted.as_slice());
}
