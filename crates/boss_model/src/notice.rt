use crate::{PointId, Txn};
use std::fmt;

/// Why a lease ended.
#[derive(Clone, Copy, Debug, PartialEq, Eq)]
pub enum Cause {
    /// Its time was over.
    Expired,
    /// Its owner cancelled the transaction.
    Cancelled,
    /// Its owner was lost.
    Died,
    /// A device did not take a value of the transaction, whose policy is to abort.
    Fault,
    /// A lease of the transaction `by` took its slot: a write at a priority replaces what the slot held
    /// (ASHRAE 135, clause 19.2).
    Superseded { by: Txn },
}

impl fmt::Display for Cause {
    fn fmt<W: fmt::Write>(&self, f: &mut fmt::Formatter<W>) -> fmt::Result {
        match *self {
            Cause::Expired => f.write_str("its time was over"),
            Cause::Cancelled => f.write_str("its transaction was cancelled"),
            Cause::Died => f.write_str("its process was lost"),
            Cause::Fault => f.write_str("a device did not take a value of its transaction"),
            Cause::Superseded { by } => write!(f, "transaction {} took its slot", by.0),
        }
    }
}

/// What a process is told of one of its transactions.
#[derive(Clone, Copy, Debug, PartialEq, Eq)]
pub enum What {
    /// The point's device did not take the value of the transaction's lease, which was in force.
    Fault { point: PointId },
    /// The transaction's lease on the point ended.
    Ended { point: PointId, cause: Cause },
    /// The reversion of the transaction's lease on the point was played to its end.
    Reverted { point: PointId },
    /// A lease of the transaction `by` took the slot of the pending reversion on the point.
    Cut { point: PointId, by: Txn },
    /// The transaction has neither a lease nor a pending reversion left.
    Done,
}

/// A notice to a process.
#[derive(Clone, Copy, Debug, PartialEq, Eq)]
pub struct Notice {
    /// Its number among the notices of its process, from 1 up to 2^62, without a gap.
    pub number: u64,
    /// The moment of what it tells, in milliseconds: 0 to 2^60.
    pub at: u64,
    /// The transaction that it is about.
    pub txn: Txn,
    /// What it tells.
    pub what: What,
}

/// How far a transaction has come. A transaction is prepared, in the sense of BOSS (Dawson-Haggerty et al., NSDI 2013),
/// before it is answered, so no transaction that is kept stands in that stage.
#[derive(Clone, Copy, Debug, PartialEq, Eq)]
pub enum Stage {
    /// It has a live lease.
    Run,
    /// It has no live lease, and a pending reversion.
    Revert,
    /// It has neither.
    Done,
}
