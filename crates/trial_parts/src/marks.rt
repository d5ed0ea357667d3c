ghost use Rattle.std.specs.Prelude.{◌≤◌, ◌<◌, ◌^◌, length};

use self::Deed::{
    Differed, Doubted, HasWant, Looked, Next, NextRetry, Reported, Retried, Settled, Started, Took,
    Wanting,
};
use boss_marks::Marks;
use boss_model::{DriverId, Items, PointId};
use std::alloc::Global;
use std::fmt::Debug;
use std::process::Abort;

const DAMPER: u32 = 0;

const LAMP: u32 = 1;

const FAN: u32 = 2;

const FIELD: u16 = 0;

const ROOF: u16 = 1;

/// What is done with the marks of a damper and a lamp of one driver, and of a fan of another.
#[derive(Clone, Copy)]
enum Deed {
    /// The point is to be told this target anew.
    Started(u32, i64),
    /// The point is to be told this target.
    Settled(u32, i64),
    /// The driver asks for its next want.
    Next(u16),
    /// The driver tells whether the point's device took this version, at a moment.
    Reported(u32, u64, bool, u32),
    /// The point's device is doubted, and whether it was found with another value.
    Doubted(u32, bool),
    /// How often it was found with another value is asked for.
    Differed(u32),
    /// What its device took last is asked for.
    Took(u32),
    /// What failed is tried again, at a moment.
    Retried(u32),
    /// The point's mark is asked for.
    Looked(u32),
    /// Whether this driver has a want is asked for.
    HasWant(u16),
    /// The moment is asked for before which no failed write is tried again.
    NextRetry,
    /// The least driver that has a want is asked for.
    Wanting,
}

/// What is done with fresh marks, with the answers.
const TRIALS: &[&[(Deed, &str)]] = &[
    // Points want their defaults at first.
    &[
        (Reported(DAMPER, 1, true, 0), "Old"),
        (Looked(DAMPER), "Pending"),
        (Wanting, "Some(DriverId(0))"),
        (
            Next(FIELD),
            "Some(Want { point: PointId(0), version: 1, value: 20000 })",
        ),
        (
            Next(FIELD),
            "Some(Want { point: PointId(1), version: 1, value: 0 })",
        ),
        (Next(FIELD), "None"),
        (HasWant(FIELD), "false"),
        (HasWant(ROOF), "true"),
        (HasWant(2), "false"),
        (NextRetry, "18446744073709551615"),
        (Wanting, "Some(DriverId(1))"),
        (
            Next(ROOF),
            "Some(Want { point: PointId(2), version: 1, value: 1 })",
        ),
        (Wanting, "None"),
        (Reported(FAN, 1, true, 0), "Settled"),
        (Looked(FAN), "Settled"),
    ],
    // The report of an older version changes nothing.
    &[
        (Settled(DAMPER, 45000), "()"),
        (
            Next(FIELD),
            "Some(Want { point: PointId(1), version: 1, value: 0 })",
        ),
        (
            Next(FIELD),
            "Some(Want { point: PointId(0), version: 2, value: 45000 })",
        ),
        (Settled(DAMPER, 50000), "()"),
        (Reported(DAMPER, 2, false, 1000), "Old"),
        (
            Next(FIELD),
            "Some(Want { point: PointId(0), version: 3, value: 50000 })",
        ),
        (Settled(DAMPER, 50000), "()"),
        (Next(FIELD), "None"),
        (Started(DAMPER, 50000), "()"),
        (
            Next(FIELD),
            "Some(Want { point: PointId(0), version: 1, value: 50000 })",
        ),
    ],
    // A failed write is tried again after five seconds.
    &[
        (
            Next(FIELD),
            "Some(Want { point: PointId(0), version: 1, value: 20000 })",
        ),
        (
            Next(FIELD),
            "Some(Want { point: PointId(1), version: 1, value: 0 })",
        ),
        (Reported(LAMP, 1, false, 1000), "FirstFailure"),
        (NextRetry, "6000"),
        (Retried(5999), "()"),
        (Looked(LAMP), "Failed"),
        (Next(FIELD), "None"),
        (Retried(6000), "()"),
        (Looked(LAMP), "Pending"),
        (
            Next(FIELD),
            "Some(Want { point: PointId(1), version: 1, value: 0 })",
        ),
        (Reported(LAMP, 1, false, 6000), "LaterFailure"),
    ],
    // A settled device that is doubted is written again, with the same version and value, and its failure concerns nobody.
    &[
        (Doubted(FAN, true), "false"),
        (Took(FAN), "None"),
        (
            Next(ROOF),
            "Some(Want { point: PointId(2), version: 1, value: 1 })",
        ),
        (Doubted(FAN, true), "false"),
        (Reported(FAN, 1, true, 0), "Settled"),
        (Differed(FAN), "0"),
        (Doubted(FAN, true), "true"),
        (Looked(FAN), "Pending"),
        (Doubted(FAN, true), "false"),
        (
            Next(ROOF),
            "Some(Want { point: PointId(2), version: 1, value: 1 })",
        ),
        (Reported(FAN, 1, false, 1000), "LaterFailure"),
        (Doubted(FAN, true), "false"),
        (Retried(6000), "()"),
        (
            Next(ROOF),
            "Some(Want { point: PointId(2), version: 1, value: 1 })",
        ),
        (Reported(FAN, 1, true, 6000), "Settled"),
        (Doubted(FAN, false), "true"),
        (Differed(FAN), "1"),
        (Settled(FAN, 0), "()"),
        (
            Next(ROOF),
            "Some(Want { point: PointId(2), version: 2, value: 0 })",
        ),
        (Reported(FAN, 2, false, 7000), "FirstFailure"),
        (Took(FAN), "Some(Took { value: 1, since: 0 })"),
        (Retried(12000), "()"),
        (
            Next(ROOF),
            "Some(Want { point: PointId(2), version: 2, value: 0 })",
        ),
        (Reported(FAN, 2, true, 12000), "Settled"),
        (Took(FAN), "Some(Took { value: 0, since: 12000 })"),
    ],
];

/// The point at this place of the marks.
fn known(rt: &impl Abort, marks: &Marks, place: u32) -> PointId
    ensures { result < length marks.now.drivers }
{
    if place as usize >= marks.count() {
        rt.panic("a point");
    }
    PointId(place)
}

fn shown<T: Debug>(rt: &impl Abort, alloc: Global, answer: &T) -> String {
    format!(in alloc; "{answer:?}").expect(rt, "memory")
}

/// Does this, and tells the answer.
fn told(rt: &impl Abort, alloc: Global, marks: &mut Marks, deed: Deed) -> String {
    match deed {
        Started(point, target) => {
            let point = known(rt, marks, point);
            shown(rt, alloc, &marks.start(point, target))
        }
        Settled(point, target) => {
            let point = known(rt, marks, point);
            shown(rt, alloc, &marks.settle(point, target))
        }
        Next(driver) => shown(rt, alloc, &marks.next(DriverId(driver))),
        Reported(point, version, ok, n) => {
            let point = known(rt, marks, point);
            shown(rt, alloc, &marks.report(point, version, ok, u64::from(n)))
        }
        Doubted(point, differs) => {
            let point = known(rt, marks, point);
            shown(rt, alloc, &marks.doubt(point, differs))
        }
        Differed(point) => shown(rt, alloc, &marks.differed(known(rt, marks, point))),
        Took(point) => shown(rt, alloc, &marks.took(known(rt, marks, point))),
        Retried(n) => shown(rt, alloc, &marks.retry_due(u64::from(n))),
        Looked(point) => shown(rt, alloc, &marks.mark(known(rt, marks, point))),
        HasWant(driver) => shown(rt, alloc, &marks.has_want(DriverId(driver))),
        NextRetry => shown(rt, alloc, &marks.next_retry()),
        Wanting => shown(rt, alloc, &marks.wanting()),
    }
}

/// The driver and the default of each of three points, of which the third is on another driver.
const POINTS: [(DriverId, i64); 3] = [
    (DriverId(FIELD), 20000),
    (DriverId(FIELD), 0),
    (DriverId(ROOF), 1),
];

/// Their marks before anything was done.
fn three_marks(rt: &impl Abort, alloc: Global) -> Marks {
    let points = Items::from_vec(POINTS.to_vec(alloc).expect(rt, "memory"));
    Marks::new(alloc, &points).expect(rt, "memory")
}

/// Does these with fresh marks, and compares the answers.
fn expect_deeds(rt: &impl Abort, alloc: Global, deeds: &[(Deed, &str)]) {
    let mut marks = three_marks(rt, alloc);
    assert!(rt; marks.count() == 3);
    for deed in deeds {
        expect_deed(rt, alloc, &mut marks, deed.0, deed.1);
    }
}

fn expect_deed(rt: &impl Abort, alloc: Global, marks: &mut Marks, deed: Deed, answer: &str) {
    let told = told(rt, alloc, marks, deed);
    assert_eq!(rt; told.as_str(), answer);
}

#[test]
fn devices_are_wanted_and_marked(rt: HostRuntime) {
    for deeds in TRIALS {
        expect_deeds(&rt, rt.alloc(), deeds);
    }
}
