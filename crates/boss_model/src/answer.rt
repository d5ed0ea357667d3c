use crate::{Cause, Items, Name, Notice, PointId, Priority, SessionId, Spot, Stage, Took, Txn};
use std::error::Error;
use std::fmt;

/// How far a point's device has come.
#[derive(Clone, Copy, Debug, PartialEq, Eq)]
pub enum Mark {
    /// The device took the commanded value.
    Settled,
    /// The commanded value has not been reported yet.
    Pending,
    /// The device did not take the commanded value.
    Failed,
}

/// What a point's value rests on.
#[derive(Clone, Copy, Debug, PartialEq, Eq)]
pub enum Basis {
    /// The live lease of the highest priority, and the transaction that it belongs to: the non-NULL entry of the
    /// Priority_Array that is in force (ASHRAE 135, clause 19.2).
    Lease { priority: Priority, txn: Txn },
    /// No lease, and of the reversions under way the one of the highest priority, with its transaction.
    Pending { priority: Priority, txn: Txn },
    /// Neither: the Relinquish_Default of the point (ASHRAE 135, clause 19.2).
    Default,
}

/// A slot of a point's priority array (the Priority_Array of ASHRAE 135, clause 19.2).
#[derive(Clone, Copy, Debug, PartialEq, Eq)]
pub enum Slot {
    /// NULL.
    Empty,
    /// A live lease: its value, its transaction, and the moment at which it ends, in milliseconds.
    Lease { value: i64, txn: Txn, until: u64 },
    /// A reversion under way: its value at present, its transaction, and the moment at which it ends, in milliseconds.
    Pending { value: i64, txn: Txn, end: u64 },
}

/// The sixteen slots of a point, from priority 1, the highest, to 16, the lowest (ASHRAE 135, clause 19.2.1).
#[derive(Clone, Copy, Debug, PartialEq, Eq)]
pub struct Slots {
    pub at: [Slot; 16],
}

/// Why a line or a command was refused, in the order in which the causes are looked at: where several hold, the first is
/// told, and of several places in a line or a command the least, counted from 0. A refused line makes no step at all; a
/// refused command changes nothing beyond what time alone changes.
#[derive(Debug, Drop)]
pub enum Refusal {
    /// The line spells no request: nothing stands there, or what is of another kind or out of its range. None where the
    /// line is no JSON.
    Malformed { at: Option<Spot> },
    /// The line asks for something that is not known.
    UnknownOp,
    /// The line names a point that is not in the catalogue.
    UnknownPoint { index: u32 },
    /// The session holds no process, and the command needs one.
    NotAttached,
    /// The process had a request of this greater number accepted.
    Stale { kept: u64 },
    /// This write's point is that of an earlier write.
    SamePoint { index: u32 },
    /// This write's priority is outside 1 to 16, or is 6.
    BadPriority { index: u32 },
    /// This write's value does not fit its point.
    OutOfRange { index: u32 },
    /// This write's lease, or at a renewal (with the place 0) its length, is outside 1 to 604,800,000.
    BadLease { index: u32 },
    /// This write's reversion has more than 8 steps, or a step whose hold is outside 1 to 86,400,000 or whose value does not
    /// fit the point.
    BadReversion { index: u32 },
    /// No transaction of this number is kept.
    UnknownTxn,
    /// The transaction belongs to another process.
    NotYours,
    /// The transaction did not write this one of the points that the renewal names.
    NotInTxn { index: u32 },
    /// A lease that was to be renewed has ended: why, at which moment, and the moment of the renewal, which is no earlier.
    Ended { cause: Cause, at: u64, moment: u64 },
    /// The transaction to be cancelled has no live lease; `at` is the last moment at which one of its leases ended.
    Over { at: u64 },
    /// The session holds the process of this name.
    Already { name: Name },
    /// Another session holds the process.
    Taken { session: SessionId },
    /// There are 256 processes, the most that there may be.
    TooManyProcesses,
    /// The last transaction number, 2^62 - 1, was given.
    Spent,
}

impl Refusal {
    /// What was refused, without the place, the moment or the name that goes with it.
    fn summary(&self) -> &'static str {
        match self {
            Refusal::Malformed { .. } => "the line spells no request",
            Refusal::UnknownOp => "what the line asks for is not known",
            Refusal::UnknownPoint { .. } => "no point has the name",
            Refusal::NotAttached => "the session holds no process",
            Refusal::Stale { .. } => "a request was accepted under the greater number",
            Refusal::SamePoint { .. } => "an earlier write has the point of the write",
            Refusal::BadPriority { .. } => "a priority of 1 to 16, but not 6, is wanted",
            Refusal::OutOfRange { .. } => "a value that the point takes is wanted",
            Refusal::BadLease { .. } => "a lease of 1 to 604800000 milliseconds is wanted",
            Refusal::BadReversion { .. } =>
                "a reversion of at most 8 steps that the point takes is wanted",
            Refusal::UnknownTxn => "no transaction of this number is kept",
            Refusal::NotYours => "the transaction belongs to another process",
            Refusal::NotInTxn { .. } => "the transaction did not write the point",
            Refusal::Ended { .. } => "a lease of the transaction had ended",
            Refusal::Over { .. } => "the last lease of the transaction ended",
            Refusal::Already { .. } => "the session already holds the process",
            Refusal::Taken { .. } => "the process is held by the session",
            Refusal::TooManyProcesses => "there are already 256 processes",
            Refusal::Spent => "the last transaction number was given",
        }
    }

    /// The place in the line or the command that was refused, if one is told.
    fn place(&self) -> Option<u32> {
        match *self {
            Refusal::UnknownPoint { index }
            | Refusal::SamePoint { index }
            | Refusal::BadPriority { index }
            | Refusal::OutOfRange { index }
            | Refusal::BadLease { index }
            | Refusal::BadReversion { index }
            | Refusal::NotInTxn { index } => Some(index),
            _ => None,
        }
    }
}

impl fmt::Display for Refusal {
    fn fmt<W: fmt::Write>(&self, f: &mut fmt::Formatter<W>) -> fmt::Result {
        f.write_str(self.summary())?;
        if let Some(place) = self.place() {
            return write!(f, " at place {place}");
        }
        match self {
            Refusal::Ended { cause, at, .. } => write!(f, " at {at}, since {cause}"),
            Refusal::Over { at } => write!(f, " at {at}"),
            Refusal::Already { name } => write!(f, " {name}"),
            Refusal::Taken { session } => write!(f, " {}", session.0),
            Refusal::Stale { kept } => write!(f, " {kept}"),
            _ => Ok(()),
        }
    }
}

impl Error for Refusal {}

/// What the transaction manager answers to a command.
#[derive(Debug, Drop)]
pub enum Answer {
    /// The session holds the process; `next` is the number of the process's next notice.
    Attached {
        name: Name,
        next: u64,
    },
    /// The submit was accepted as this transaction; `until` is the least moment at which one of its leases ends.
    Accepted {
        txn: Txn,
        until: u64,
    },
    /// The leases were renewed; `until` is the least moment at which one of them ends.
    Renewed {
        txn: Txn,
        until: u64,
    },
    /// The live leases of the transaction ended at this moment.
    Cancelled {
        txn: Txn,
        at: u64,
    },
    /// The process let go this number of live leases.
    Gone {
        ended: u64,
    },
    /// Time has passed; `now` is the moment of the last change.
    Ticked {
        now: u64,
    },
    /// The driver's device is to be set to this value; the report has to name this version.
    Want {
        point: PointId,
        version: u64,
        value: i64,
    },
    /// The driver has no want.
    Nothing,
    /// The report was heard; `current` tells whether it was of the version that counts.
    Noted {
        current: bool,
    },
    /// The value that the point is to have, what it rests on, and how far the device has come.
    Reading {
        point: PointId,
        value: i64,
        basis: Basis,
        mark: Mark,
        /// How often its device was found with another value since the state was opened.
        differed: u64,
        /// What its device took last, since the state was opened.
        took: Option<Took>,
    },
    /// The slots of the point.
    Array {
        point: PointId,
        slots: Slots,
    },
    /// How far the transaction has come, with the numbers of its live leases and of its reversions under way.
    Status {
        txn: Txn,
        owner: Name,
        stage: Stage,
        live: u64,
        pending: u64,
    },
    /// The notices that were asked for: `first` is the least number that is kept, and `next` the number to ask from next.
    Notices {
        first: u64,
        next: u64,
        list: Items<Notice>,
    },
    /// The points of the catalogue from this place on, at most so many, are told.
    Points {
        from: u64,
        max: u64,
    },
    /// The program's version, that of the journals that it begins, and the catalogue's digest and numbers are told.
    Version,
    /// The command was refused.
    Refused(Refusal),
}
