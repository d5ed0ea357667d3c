ghost use Rattle.std.specs.Prelude.{◌≡◌};
ghost use Rattle.boss_model.specs.Catalogue.{actuators};

use crate::calls::{answer, first_engine};
use crate::plants::plant;
use boss_engine::{Engine, RestoreRefusal};
use boss_model::{Kept, Txn};
use boss_points::Catalogue;
use std::alloc::Global;
use std::process::Abort;
use trial_parts::THREE_POINTS;

/// Transaction 1 is reverting from 2000 to 102000, 2 is done, and 3 holds two slots, the first of them until 63000.
const ASKED: &str = r#"{"op":"attach","process":"a"}
{"at":1000,"op":"submit","writes":[{"point":"lamp","value":1,"priority":8,"lease":60000,"revert":[[0,100000]]}]}
{"at":1000,"op":"submit","writes":[{"point":"fan","value":2,"priority":8,"lease":60000}]}
{"at":2000,"op":"cancel","txn":1}
{"at":2000,"op":"cancel","txn":2}
{"at":3000,"op":"submit","writes":[{"point":"ahu1.damper","value":45000,"priority":8,"lease":60000},{"point":"fan","value":3,"priority":9,"lease":70000}]}"#;

/// What is altered of a state.
#[derive(Clone, Copy)]
enum Change {
    /// The moment of the last change.
    Now(u64),
    /// The number of the next transaction.
    Next(u64),
    /// A transaction is listed as done, behind the others.
    Done(u64),
    NoProcess,
    NoTransaction,
    NoneDone,
    NoLease,
    NoReversion,
}

/// The changes, and whether the state is sound with them.
const CASES: &[(&str, bool, Change)] = &[
    ("what it is", true, Change::Next(4)),
    ("numbers that are left out", true, Change::Next(1_000)),
    ("a number that is not given yet", false, Change::Next(3)),
    ("a moment before a lease's end", true, Change::Now(62_999)),
    ("a lease at its end", false, Change::Now(63_000)),
    ("the moment of the last end", true, Change::Now(2_000)),
    ("an end that is to come", false, Change::Now(1_999)),
    ("a done one that is listed twice", false, Change::Done(2)),
    ("a live one that is listed as done", false, Change::Done(3)),
    (
        "one that is not known, listed as done",
        false,
        Change::Done(4),
    ),
    ("an owner that is not known", false, Change::NoProcess),
    ("a lease of no transaction", false, Change::NoTransaction),
    ("a done one that is not listed", false, Change::NoneDone),
    ("a live part without its lease", false, Change::NoLease),
    (
        "one with nothing left that is not listed as done",
        false,
        Change::NoReversion,
    ),
];

fn alter(rt: &impl Abort, kept: &mut Kept, change: Change) {
    match change {
        Change::Now(moment) => kept.now = moment,
        Change::Next(txn) => kept.next = Txn(txn),
        Change::Done(txn) => kept.done.try_push(Txn(txn)).expect(rt, "memory"),
        Change::NoProcess => kept.processes.clear(),
        Change::NoTransaction => kept.txns.clear(),
        Change::NoneDone => kept.done.clear(),
        Change::NoLease => kept.leases.clear(),
        Change::NoReversion => kept.pending.clear(),
    }
}

/// Whether an engine is made of what was kept of this one, with a change.
fn is_sound(
    rt: &impl Abort,
    alloc: Global,
    catalogue: &Catalogue,
    engine: &Engine,
    change: Change,
) -> bool {
    let mut kept = engine.keep(alloc).expect(rt, "memory");
    alter(rt, &mut kept, change);
    is_restored(rt, alloc, catalogue, &kept)
}

/// Whether an engine is made of what was kept.
fn is_restored(rt: &impl Abort, alloc: Global, catalogue: &Catalogue, kept: &Kept) -> bool {
    match Engine::restore(alloc, catalogue, kept) {
        Ok(_engine) => true,
        Err(RestoreRefusal::NotSound) => false,
        Err(RestoreRefusal::NoMemory) => panic!(rt; "memory"),
    }
}

/// An engine carries these lines out.
fn carry_out(
    rt: &impl Abort,
    alloc: Global,
    catalogue: &Catalogue,
    engine: &mut Engine,
    lines: &str,
)
    requires { engine.old.plant ≡ actuators catalogue.now }
{
    for line in lines.split('\n') {
        answer(rt, alloc, catalogue, engine, line, 1);
    }
}

/// The state of this engine has to be sound with a change, or not.
fn expect_case(
    rt: &impl Abort,
    alloc: Global,
    catalogue: &Catalogue,
    engine: &Engine,
    case: &(&str, bool, Change),
) {
    let sound = is_sound(rt, alloc, catalogue, engine, case.2);
    assert!(rt; sound == case.1, "{}", case.0);
}

/// The same with each of these changes.
fn expect_cases(
    rt: &impl Abort,
    alloc: Global,
    catalogue: &Catalogue,
    engine: &Engine,
    cases: &[(&str, bool, Change)],
) {
    for case in cases {
        expect_case(rt, alloc, catalogue, engine, case);
    }
}

#[test]
fn a_state_is_sound_or_not(rt: HostRuntime) {
    let alloc = rt.alloc();
    let catalogue = plant(&rt, alloc, THREE_POINTS.as_bytes());
    let mut engine = first_engine(&rt, alloc, &catalogue);
    carry_out(&rt, alloc, &catalogue, &mut engine, ASKED);
    expect_cases(&rt, alloc, &catalogue, &engine, CASES);
}
