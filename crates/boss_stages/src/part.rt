ghost use Rattle.std.specs.Prelude.{◌≡◌, ◌==◌};
ghost use Rattle.boss_model.specs.Seen.{seen_part};
ghost use Rattle.boss_stages.specs.Stages.{is_live, slot_of, end_as, live_part, ended_on};

use boss_model::{Cause, KeptPart, PointId, Priority};
use std::marker::Model;

/// How a part of a transaction stands: one of its writes.
#[derive(Clone, Copy, Debug, PartialEq, Eq)]
pub enum PartEnd {
    /// The transaction is not kept, or has no part on the point.
    NotInTxn,
    /// The part's lease is live.
    Live,
    /// The part's lease ended at this moment, in milliseconds.
    Ended { cause: Cause, at: u64 },
}

/// Why and when a lease ended.
#[derive(Clone, Copy, Debug, PartialEq, Eq)]
pub struct End {
    pub cause: Cause,
    /// The moment, in milliseconds.
    pub at: u64,
}

impl Model for End {
    ghost use Rattle.boss_model.specs.Records.{End as LeaseEnd};

    ghost Value = { LeaseEnd };

    ghost view = { λ e. record { cause = e.cause; at = e.at } };

    ghost inverse = { λ e. record { cause = e.cause; at = e.at } };
}

/// One write of a transaction: its slot, and how its lease ended.
#[derive(Clone, Copy, Debug, PartialEq, Eq)]
pub struct Part {
    pub point: PointId,
    pub priority: Priority,
    /// None as long as the lease is live.
    pub end: Option<End>,
}

impl Model for Part {
    ghost use Rattle.boss_model.specs.Records.{Part as Write};

    ghost Value = { Write };

    ghost view = { λ p. record { point = p.point; priority = p.priority; end = p.end } };

    ghost inverse = { λ p. record { point = p.point; priority = p.priority; end = p.end } };
}

impl Part {
    /// A part whose lease is live.
    pub fn new(point: PointId, priority: Priority) -> Part
        ensures { result ≡ live_part (point, priority) }
    {
        Part {
            point,
            priority,
            end: None,
        }
    }

    /// The part's slot.
    pub fn slot(&self) -> (PointId, Priority)
        ensures { result ≡ slot_of self.now }
    {
        (self.point, self.priority)
    }

    /// Whether the part is on this point.
    pub fn is_on(&self, point: PointId) -> bool
        ensures { result ≡ (self.now.point == point) }
    {
        self.point == point
    }

    /// Whether the part's lease is live.
    pub fn is_live(&self) -> bool
        ensures { result ≡ is_live self.now }
    {
        self.end.is_none()
    }

    /// How the part stands.
    pub fn standing(&self) -> PartEnd
        ensures { result ≡ end_as self.now.end }
    {
        match &self.end {
            Some(end) => PartEnd::Ended {
                cause: end.cause,
                at: end.at,
            },
            None => PartEnd::Live,
        }
    }

    /// If the part is on this point, its lease ends so.
    pub fn end_if_on(&mut self, point: PointId, cause: &Cause, at: u64)
        ensures { self.new ≡ ended_on point (record { cause = cause.now; at = at }) self.old }
    {
        if self.point == point {
            self.end = Some(End { cause: *cause, at });
        }
    }
}

impl Part {
    /// What outlasts a stop of it.
    pub fn keep(&self) -> KeptPart
        ensures { seen_part result ≡ self.now }
    {
        KeptPart {
            point: self.point,
            priority: self.priority,
            end: self.end.map(|end| (end.cause, end.at)),
        }
    }

    /// The part of which this outlasted a stop.
    pub fn put_back(kept: &KeptPart) -> Part
        ensures { result ≡ seen_part kept.now }
    {
        Part {
            point: kept.point,
            priority: kept.priority,
            end: kept.end.map(|(cause, at)| End { cause, at }),
        }
    }
}

/// What a place without a part has.
impl Default for Part {
    ghost is_default = { λ part. part ≡ live_part (0, 0) };

    fn default() -> Part {
        Part::new(PointId(0), Priority(0))
    }
}
