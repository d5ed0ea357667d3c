ghost use Rattle.std.specs.Prelude.{◌≡◌, ℤ, nat_abs};
ghost use Rattle.def_guards.specs.Guards.{guard_for, is_free, minimum, shown_by, stretch_after, times_for, written, holding};

use boss_model::{Answer, Basis, PointId};

/// A want that a driver was given: what a point's device is to be set to, in thousandths of the unit or as a state's number,
/// and the version that its report has to name.
#[derive(Debug, Drop)]
pub struct Due {
    pub point: PointId,
    pub version: u64,
    pub value: i64,
}

/// The writes of one value to a point, one after another up to its last one.
#[derive(Clone, Copy, Debug, PartialEq, Eq)]
pub struct Stretch {
    /// In thousandths of the unit, or a state's number.
    pub value: i64,
    /// The moment at which the first of these writes was decided, in milliseconds.
    pub since: u64,
}

/// A want of a point that is to be tried again.
#[derive(Clone, Copy, Debug, PartialEq, Eq)]
pub struct Held {
    /// The version that the report has to name.
    pub version: u64,
    /// In thousandths of the unit, or a state's number.
    pub value: i64,
}

/// What is kept of a point. A point that is not guarded has minimum times of 0, which have always passed.
#[derive(Clone, Copy, Debug, PartialEq, Eq)]
pub struct Guard {
    /// How long the point is to keep the value 1, in milliseconds.
    pub on: u64,
    /// How long the point is to keep another value, in milliseconds.
    pub off: u64,
    /// The last writes of one value; none before the first write.
    pub last: Option<Stretch>,
    /// The want that waits, if there is one.
    pub held: Option<Held>,
}

impl Guard {
    /// The guard of a point with these minimum times, in milliseconds, none below 0, before its first write.
    pub fn new(min_on: i64, min_off: i64) -> Guard
        ensures { result ≡ guard_for (nat_abs min_on) (nat_abs min_off) }
    {
        Guard {
            on: min_on.unsigned_abs(),
            off: min_off.unsigned_abs(),
            last: None,
            held: None,
        }
    }

    /// How long the point is to keep the value, in milliseconds.
    fn minimum(&self, value: i64) -> u64
        ensures { result ≡ minimum self.now value }
    {
        if value == 1 { self.on } else { self.off }
    }

    /// Whether the point may be written this value at a moment, in milliseconds: it was not written yet, or has the value, or has
    /// kept another one for its minimum time.
    pub fn is_free(&self, value: i64, now: u64) -> bool
        ensures { result ≡ is_free self.now value now }
    {
        match self.last {
            None => true,
            Some(last) => last.value == value
                || self.minimum(last.value) <= now.saturating_sub(last.since),
        }
    }

    /// The writes of one value, once this one was decided at a moment, in milliseconds.
    fn stretch_after(&self, value: i64, now: u64) -> Stretch
        ensures { result ≡ stretch_after self.now.last value now }
    {
        match self.last {
            Some(last) if last.value == value => last,
            _ => Stretch { value, since: now },
        }
    }

    /// The guard once the value was written, as was decided at a moment, in milliseconds. Nothing is held then.
    pub fn written(&self, value: i64, now: u64) -> Guard
        ensures { result ≡ written value now self.now }
    {
        Guard {
            on: self.on,
            off: self.off,
            last: Some(self.stretch_after(value, now)),
            held: None,
        }
    }

    /// The guard once a want is held, in place of one that was held before.
    pub fn holding(&self, held: Held) -> Guard
        ensures { result ≡ holding held self.now }
    {
        Guard {
            on: self.on,
            off: self.off,
            last: self.last,
            held: Some(held),
        }
    }
}

/// Whether the answer to a reading shows the value under a lease of the levels 1 to 5, which go before minimum times
/// (ASHRAE 135, clause 19.2).
pub fn shows(answer: &Answer, value: i64) -> bool
    ensures { result ≡ shown_by answer.now value }
{
    match answer {
        Answer::Reading {
            value: read,
            basis: Basis::Lease { priority, .. },
            ..
        } => *read == value && 1 <= priority.0 && priority.0 <= 5,
        _ => false,
    }
}
