ghost use Rattle.std.specs.Prelude.{◌≡◌, IfOk};
ghost use Rattle.boss_model.specs.Catalogue.{actuators};
ghost use Rattle.boss_points.specs.Seen.{seen as seen_point};

use crate::bytes::joined;
use crate::disks::spelled;
use crate::texts::told;
use boss_adopting::{AdoptRefusal, added_points, adopt_state, removed_points};
use boss_model::{Actuator, Kept, PointId};
use boss_points::{Catalogue, Point};
use boss_state_check::is_sound;
use std::alloc::{AllocError, Global};
use std::process::Abort;

/// A damper, a lamp and a fan.
const OLD: &[u8] =
    b"drivers=['field']\npoint=[{name='ahu1.damper',driver='field',kind='analog',min=0,max=100000,default=20000},{name='lamp',driver='field',kind='binary',default=0},{name='fan',driver='field',kind='multi',states=3,default=1}]";

/// The same in another order.
const TURNED: &[u8] =
    b"drivers=['field']\npoint=[{name='fan',driver='field',kind='multi',states=3,default=1},{name='lamp',driver='field',kind='binary',default=0},{name='ahu1.damper',driver='field',kind='analog',min=0,max=100000,default=20000}]";

/// The lamp is on where nobody holds it, the fan is removed, and a valve is added.
const CHANGED: &[u8] =
    b"drivers=['field']\npoint=[{name='ahu1.damper',driver='field',kind='analog',min=0,max=100000,default=20000},{name='lamp',driver='field',kind='binary',default=1},{name='valve',driver='field',kind='analog',min=0,max=100,default=10}]";

/// The damper is removed.
const WITHOUT: &[u8] =
    b"drivers=['field']\npoint=[{name='lamp',driver='field',kind='binary',default=0},{name='fan',driver='field',kind='multi',states=3,default=1}]";

/// The damper takes less.
const NARROW: &[u8] =
    b"drivers=['field']\npoint=[{name='ahu1.damper',driver='field',kind='analog',min=0,max=40000,default=20000},{name='lamp',driver='field',kind='binary',default=0},{name='fan',driver='field',kind='multi',states=3,default=1}]";

/// The moment 2000, the next transaction 4, and two processes.
const START: &[u8] = b"\0\0\0\0\0\0\x07\xd0\0\0\0\0\0\0\0\x04\0\x02";

/// `a`: no notices and no reply.
const A: &[u8] = b"\x01a\0\0\0\0\0\0\0\0\0\0\0";

/// `b`: four notices so far, all of them kept. At 1500, of transaction 3, its lease on the fan was cancelled, and all was done.
const B: &[u8] =
    b"\x01b\0\0\0\0\0\0\0\x04\0\x04\0\0\0\0\0\0\x05\xdc\0\0\0\0\0\0\0\x03\x02\0\0\0\x02\x01\0\0\0\0\0\0\x05\xdc\0\0\0\0\0\0\0\x03\x05";

/// At 2000, of 2, its leases on the damper and on the lamp ended; no reply.
const ENDED: &[u8] =
    b"\0\0\0\0\0\0\x07\xd0\0\0\0\0\0\0\0\x02\x02\0\0\0\0\0\0\0\0\0\0\0\x07\xd0\0\0\0\0\0\0\0\x02\x02\0\0\0\x01\0\0";

/// Three records, each to abort. That of 1, by `a`, has live leases on the damper at priority 8 and on the lamp at 9.
const HELD: &[u8] = b"\0\0\0\x03\0\0\0\0\0\0\0\x01\0\0\0\x02\0\0\0\0\x08\0\0\0\0\x01\x09\0";

/// That of 2, by `b`, has leases on the same at priority 5, which ended at 2000.
const REVERTING: &[u8] =
    b"\0\0\0\0\0\0\0\x02\0\x01\0\x02\0\0\0\0\x05\x01\0\0\0\0\0\0\0\x07\xd0\0\0\0\x01\x05\x01\0\0\0\0\0\0\0\x07\xd0";

/// That of 3, by `b`, had one on the fan at priority 8, which was cancelled at 1500. It is done.
const PAST: &[u8] =
    b"\0\0\0\0\0\0\0\x03\0\x01\0\x01\0\0\0\x02\x08\x01\x01\0\0\0\0\0\0\x05\xdc\0\x01\0\0\0\0\0\0\0\x03";

/// Two leases, of 1: 45000 on the damper and 1 on the lamp, until 61000, and nothing behind it.
const LEASES: &[u8] =
    b"\0\0\0\x02\0\0\0\0\0\0\0\x01\0\0\0\0\0\0\x08\0\0\0\0\0\0\xaf\xc8\0\0\0\0\0\0\xee\x48\0\0\0\0\0\0\0\0\0\x01\0\0\0\0\0\x01\x09\0\0\0\0\0\0\0\x01\0\0\0\0\0\0\xee\x48\0\0";

/// Two reversions, of 2, from 2000 on for 5000: 30000 on the damper and 0 on the lamp.
const REVERSIONS: &[u8] =
    b"\0\0\0\x02\0\0\0\0\0\0\0\x02\0\x01\0\0\0\0\x05\0\0\0\0\0\0\x07\xd0\x01\0\0\0\0\0\0\x75\x30\0\0\x13\x88\0\0\0\0\0\0\0\x02\0\x01\0\0\0\x01\x05\0\0\0\0\0\0\x07\xd0\x01\0\0\0\0\0\0\0\0\0\0\x13\x88";

/// The state with the three points, as they stand in the old catalogue.
const STATE: &[&[u8]] = &[
    START, A, B, ENDED, HELD, REVERTING, PAST, LEASES, REVERSIONS,
];

/// The same as a text.
const SAME_TOLD: &str = r#"2000 4
a 0 [] None
b 4 [Notice { number: 1, at: 1500, txn: Txn(3), what: Ended { point: PointId(2), cause: Cancelled } }, Notice { number: 2, at: 1500, txn: Txn(3), what: Done }, Notice { number: 3, at: 2000, txn: Txn(2), what: Ended { point: PointId(0), cause: Expired } }, Notice { number: 4, at: 2000, txn: Txn(2), what: Ended { point: PointId(1), cause: Expired } }] None
1 0 Abort, 0 8 None, 1 9 None
2 1 Abort, 0 5 Some((Expired, 2000)), 1 5 Some((Expired, 2000))
3 1 Abort, 2 8 Some((Cancelled, 1500))
done [Txn(3)]
leases [Lease { txn: Txn(1), owner: ProcId(0), point: PointId(0), priority: Priority(8), value: 45000, until: 61000, revert: Items { items: [] }, policy: Abort }, Lease { txn: Txn(1), owner: ProcId(0), point: PointId(1), priority: Priority(9), value: 1, until: 61000, revert: Items { items: [] }, policy: Abort }]
reversions [Pending { txn: Txn(2), owner: ProcId(1), point: PointId(0), priority: Priority(5), steps: Items { items: [Step { value: 30000, hold: 5000 }] }, start: 2000 }, Pending { txn: Txn(2), owner: ProcId(1), point: PointId(1), priority: Priority(5), steps: Items { items: [Step { value: 0, hold: 5000 }] }, start: 2000 }]
"#;

/// The same where the fan comes first and the damper last.
const TURNED_TOLD: &str = r#"2000 4
a 0 [] None
b 4 [Notice { number: 1, at: 1500, txn: Txn(3), what: Ended { point: PointId(0), cause: Cancelled } }, Notice { number: 2, at: 1500, txn: Txn(3), what: Done }, Notice { number: 3, at: 2000, txn: Txn(2), what: Ended { point: PointId(2), cause: Expired } }, Notice { number: 4, at: 2000, txn: Txn(2), what: Ended { point: PointId(1), cause: Expired } }] None
1 0 Abort, 2 8 None, 1 9 None
2 1 Abort, 2 5 Some((Expired, 2000)), 1 5 Some((Expired, 2000))
3 1 Abort, 0 8 Some((Cancelled, 1500))
done [Txn(3)]
leases [Lease { txn: Txn(1), owner: ProcId(0), point: PointId(1), priority: Priority(9), value: 1, until: 61000, revert: Items { items: [] }, policy: Abort }, Lease { txn: Txn(1), owner: ProcId(0), point: PointId(2), priority: Priority(8), value: 45000, until: 61000, revert: Items { items: [] }, policy: Abort }]
reversions [Pending { txn: Txn(2), owner: ProcId(1), point: PointId(1), priority: Priority(5), steps: Items { items: [Step { value: 0, hold: 5000 }] }, start: 2000 }, Pending { txn: Txn(2), owner: ProcId(1), point: PointId(2), priority: Priority(5), steps: Items { items: [Step { value: 30000, hold: 5000 }] }, start: 2000 }]
"#;

/// The same without the fan, and so without the record that is done.
const CHANGED_TOLD: &str = r#"2000 4
a 0 [] None
b 4 [Notice { number: 2, at: 1500, txn: Txn(3), what: Done }, Notice { number: 3, at: 2000, txn: Txn(2), what: Ended { point: PointId(0), cause: Expired } }, Notice { number: 4, at: 2000, txn: Txn(2), what: Ended { point: PointId(1), cause: Expired } }] None
1 0 Abort, 0 8 None, 1 9 None
2 1 Abort, 0 5 Some((Expired, 2000)), 1 5 Some((Expired, 2000))
done []
leases [Lease { txn: Txn(1), owner: ProcId(0), point: PointId(0), priority: Priority(8), value: 45000, until: 61000, revert: Items { items: [] }, policy: Abort }, Lease { txn: Txn(1), owner: ProcId(0), point: PointId(1), priority: Priority(9), value: 1, until: 61000, revert: Items { items: [] }, policy: Abort }]
reversions [Pending { txn: Txn(2), owner: ProcId(1), point: PointId(0), priority: Priority(5), steps: Items { items: [Step { value: 30000, hold: 5000 }] }, start: 2000 }, Pending { txn: Txn(2), owner: ProcId(1), point: PointId(1), priority: Priority(5), steps: Items { items: [Step { value: 0, hold: 5000 }] }, start: 2000 }]
"#;

/// The catalogue that these bytes spell.
fn read(rt: &impl Abort, alloc: Global, bytes: &[u8]) -> Catalogue {
    Catalogue::read(alloc, bytes).expect(rt, "a catalogue")
}

/// What the machine knows of a catalogue's points.
fn plant_of(alloc: Global, catalogue: &Catalogue) -> Result<Vec<Actuator>, AllocError>
    ensures { IfOk result (λ plant. plant.items ≡ actuators catalogue.now) }
{
    let mut plant = Vec::new(alloc);
    for place in 0..catalogue.count() {
        plant.push(actuator_of(catalogue.point(PointId(place))))?;
    }
    Ok(plant)
}

/// The same of one point.
fn actuator_of(point: &Point) -> Actuator
    ensures { result ≡ (seen_point point.now).actuator }
{
    Actuator {
        kind: point.kind,
        default: point.default,
        driver: point.driver,
    }
}

/// What is answered where the state is adopted under these catalogues; `None` where it is not sound under the first.
fn adopted(
    alloc: Global,
    old: &Catalogue,
    new: &Catalogue,
    kept: &Kept,
) -> Result<Option<Result<Kept, AdoptRefusal>>, AllocError> {
    let plant = plant_of(alloc, old)?;
    if !is_sound(&plant, kept) {
        return Ok(None);
    }
    Ok(Some(adopt_state(alloc, old, new, kept)))
}

/// An answer as a text.
fn answer(rt: &impl Abort, alloc: Global, answer: &Option<Result<Kept, AdoptRefusal>>) -> String {
    match answer {
        Some(Ok(kept)) => told(rt, alloc, kept),
        Some(Err(refusal)) => refused(rt, alloc, refusal),
        None => rt.panic("a state that is not sound"),
    }
}

fn refused(rt: &impl Abort, alloc: Global, refusal: &AdoptRefusal) -> String {
    match refusal {
        AdoptRefusal::InUse { name } => format!(in alloc; "in use {name}").expect(rt, "memory"),
        AdoptRefusal::Unfit { name } => format!(in alloc; "unfit {name}").expect(rt, "memory"),
        AdoptRefusal::NoMemory => rt.panic("no memory"),
    }
}

/// What is answered where the state is adopted under this catalogue, as a text.
fn adopted_under(rt: &impl Abort, alloc: Global, new: &[u8]) -> String {
    let old = read(rt, alloc, OLD);
    let new = read(rt, alloc, new);
    let kept = spelled(alloc, &joined(rt, alloc, STATE)).expect(rt, "a state");
    answer(
        rt,
        alloc,
        &adopted(alloc, &old, &new, &kept).expect(rt, "memory"),
    )
}

#[test]
fn leases_and_reversions_stand_in_the_new_order(rt: HostRuntime) {
    assert_eq!(&rt;
        adopted_under(&rt, rt.alloc(), TURNED).as_str(),
        TURNED_TOLD
    );
    assert_eq!(&rt; adopted_under(&rt, rt.alloc(), OLD).as_str(), SAME_TOLD);
}

#[test]
fn what_is_done_goes_with_its_point(rt: HostRuntime) {
    assert_eq!(&rt;
        adopted_under(&rt, rt.alloc(), CHANGED).as_str(),
        CHANGED_TOLD
    );
}

#[test]
fn a_state_that_holds_a_point_is_refused(rt: HostRuntime) {
    assert_eq!(&rt;
        adopted_under(&rt, rt.alloc(), WITHOUT).as_str(),
        "in use ahu1.damper"
    );
    assert_eq!(&rt;
        adopted_under(&rt, rt.alloc(), NARROW).as_str(),
        "unfit ahu1.damper"
    );
}

#[test]
fn points_are_counted_by_their_names(rt: HostRuntime) {
    let old = read(&rt, rt.alloc(), OLD);
    let changed = read(&rt, rt.alloc(), CHANGED);
    assert_eq!(&rt; removed_points(&old, &changed), 1);
    assert_eq!(&rt; added_points(&old, &changed), 1);
    assert_eq!(&rt; removed_points(&old, &old), 0);
}
