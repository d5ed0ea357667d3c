use boss_model::{Cause, Items, PointId, Policy, Priority, ProcId, Stage, Txn};
use boss_stages::{PartEnd, Stages};
use std::alloc::Global;
use std::process::Abort;

const DAMPER: PointId = PointId(0);

const LAMP: PointId = PointId(1);

const OWNER: ProcId = ProcId(3);

fn parts(
    rt: &impl Abort,
    alloc: Global,
    slots: &[(PointId, Priority)],
) -> Items<(PointId, Priority)> {
    let mut parts = Items::new(alloc);
    for slot in slots {
        parts.try_push(*slot).expect(rt, "memory");
    }
    parts
}

#[test]
fn a_superseded_transaction_is_done(rt: HostRuntime) {
    let alloc = rt.alloc();
    let mut stages = Stages::new(alloc, 4).expect(&rt, "memory");
    let parts = parts(&rt, alloc, &[(DAMPER, Priority(8))]);
    let begun = stages.begin(alloc, Txn(1), OWNER, Policy::Abort, &parts);
    begun.expect(&rt, "memory");
    assert!(&rt; stages.stage(Txn(1)) == Some(Stage::Run));
    assert!(&rt; stages.owner(Txn(1)) == Some(OWNER));
    assert!(&rt; stages.part(Txn(1), 0) == Some((DAMPER, Priority(8))));
    assert!(&rt; stages.part(Txn(1), 1).is_none());
    assert!(&rt; stages.end_of(Txn(1), LAMP) == PartEnd::NotInTxn);
    assert!(&rt; stages.end_of(Txn(1), DAMPER) == PartEnd::Live);
    let cause = Cause::Superseded { by: Txn(2) };
    stages.lease_ended(Txn(1), DAMPER, cause, 2000, false);
    assert!(&rt; stages.stage(Txn(1)) == Some(Stage::Done));
    let end = PartEnd::Ended {
        cause: Cause::Superseded { by: Txn(2) },
        at: 2000,
    };
    assert!(&rt; stages.end_of(Txn(1), DAMPER) == end);
    assert!(&rt; stages.stage(Txn(9)).is_none());
}

#[test]
fn a_transaction_reverts_until_its_reversion_ends(rt: HostRuntime) {
    let alloc = rt.alloc();
    let mut stages = Stages::new(alloc, 4).expect(&rt, "memory");
    let parts = parts(&rt, alloc, &[(DAMPER, Priority(8)), (LAMP, Priority(10))]);
    let begun = stages.begin(alloc, Txn(1), OWNER, Policy::Keep, &parts);
    begun.expect(&rt, "memory");
    assert!(&rt; stages.end_of(Txn(1), DAMPER) == PartEnd::Live);
    stages.lease_ended(Txn(1), DAMPER, Cause::Expired, 61000, true);
    assert!(&rt; stages.stage(Txn(1)) == Some(Stage::Run));
    assert!(&rt; stages.end_of(Txn(1), LAMP) == PartEnd::Live);
    stages.lease_ended(Txn(1), LAMP, Cause::Cancelled, 62000, false);
    assert!(&rt; stages.stage(Txn(1)) == Some(Stage::Revert));
    stages.reversion_ended(Txn(1), DAMPER);
    assert!(&rt; stages.stage(Txn(1)) == Some(Stage::Done));
}
