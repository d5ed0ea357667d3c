ghost use Rattle.std.specs.Prelude.{◌<◌, length};

use boss_model::{Cause, PointId, ProcId, Txn, What};
use boss_notices::Rings;
use std::alloc::Global;
use std::process::Abort;

/// Compares the answer to a process that asks for at most two notices from a number on, and what is left in the list.
fn expect(rt: &impl Abort, alloc: Global, rings: &Rings, owner: ProcId, number: u64, wanted: &str)
    requires { owner < length rings.now }
{
    let mut list = Vec::with_capacity(alloc, 2).expect(rt, "memory");
    let (first, next) = rings.from(owner, number, 2, &mut list);
    let told = format!(in alloc; "{first} {next} {list:?}").expect(rt, "memory");
    assert_eq!(rt; told.as_str(), wanted);
}

#[test]
fn a_process_has_its_last_notices(rt: HostRuntime) {
    let alloc = rt.alloc();
    let mut rings = Rings::new(alloc).expect(&rt, "memory");
    let quiet = rings.add_process(alloc).expect(&rt, "memory");
    let busy = rings.add_process(alloc).expect(&rt, "memory");
    let ended = What::Ended {
        point: PointId(0),
        cause: Cause::Superseded { by: Txn(2) },
    };
    rings.post(quiet, 2000, Txn(1), ended);
    rings.post(quiet, 2000, Txn(1), What::Done);
    for txn in 1..1031 {
        rings.post(busy, 2000, Txn(txn), What::Done);
    }
    assert_eq!(&rt; rings.count(quiet), 2);
    expect(
        &rt,
        alloc,
        &rings,
        quiet,
        1,
        "1 3 [Notice { number: 1, at: 2000, txn: Txn(1), what: Ended { point: PointId(0), cause: Superseded { by: Txn(2) } } }, Notice { number: 2, at: 2000, txn: Txn(1), what: Done }]",
    );
    expect(&rt, alloc, &rings, quiet, 9, "1 3 []");
    expect(
        &rt,
        alloc,
        &rings,
        busy,
        1,
        "7 9 [Notice { number: 7, at: 2000, txn: Txn(7), what: Done }, Notice { number: 8, at: 2000, txn: Txn(8), what: Done }]",
    );
    expect(
        &rt,
        alloc,
        &rings,
        busy,
        1030,
        "7 1031 [Notice { number: 1030, at: 2000, txn: Txn(1030), what: Done }]",
    );
}

#[test]
fn who_was_told_something_is_given_out_once(rt: HostRuntime) {
    let alloc = rt.alloc();
    let mut rings = Rings::new(alloc).expect(&rt, "memory");
    let first = rings.add_process(alloc).expect(&rt, "memory");
    let second = rings.add_process(alloc).expect(&rt, "memory");
    assert_eq!(&rt; rings.next_noticed(), None);
    rings.post(second, 2000, Txn(1), What::Done);
    rings.post(first, 2000, Txn(2), What::Done);
    rings.post(second, 3000, Txn(3), What::Done);
    assert_eq!(&rt; rings.next_noticed(), Some(first));
    assert_eq!(&rt; rings.next_noticed(), Some(second));
    assert_eq!(&rt; rings.next_noticed(), None);
    rings.post(first, 4000, Txn(4), What::Done);
    assert_eq!(&rt; rings.next_noticed(), Some(first));
    assert_eq!(&rt; rings.next_noticed(), None);
}
