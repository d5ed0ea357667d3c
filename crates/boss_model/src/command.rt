use crate::{DriverId, Items, Name, PointId, Txn};

/// A step of a reversion: what a point is set to, and for how long. Reversion sequences are those of BOSS
/// (Dawson-Haggerty et al., NSDI 2013); their form as values that are held in turn is this machine's own.
#[derive(Clone, Copy, Debug, PartialEq, Eq)]
pub struct Step {
    /// The set-point, as for a write.
    pub value: i64,
    /// How long it holds, in milliseconds: 1 to 86,400,000.
    pub hold: i64,
}

/// One write of a transaction: a set-point for one slot of a point's priority array, with a lease.
#[derive(Debug, Drop)]
pub struct Setting {
    /// The point to be written.
    pub point: PointId,
    /// The set-point: thousandths of the unit for an analog point, a state's number otherwise.
    pub value: i64,
    /// The level at which it is written: 1 to 16, but not 6, which is the level of minimum on and off times
    /// (ASHRAE 135, clause 19.2.1).
    pub priority: i64,
    /// How long the write holds its slot unless it is renewed, in milliseconds: 1 to 604,800,000.
    pub lease: i64,
    /// What is played when the lease ends otherwise than by supersession: at most 8 steps, none for nothing.
    pub revert: Items<Step>,
}

/// What becomes of a transaction when a device refuses the value of one of its leases that is in force: the error
/// policy of BOSS (Dawson-Haggerty et al., NSDI 2013).
#[derive(Clone, Copy, Debug, PartialEq, Eq)]
pub enum Policy {
    /// Its owner is told, and all its live leases end.
    Abort,
    /// Its owner is told, and it goes on.
    Keep,
}

/// What the transaction manager may be asked, by a session and at a moment.
#[derive(Debug, Drop)]
pub enum Command {
    /// Become the control process of this name; a name that is not known yet is that of a new process.
    Attach {
        name: Name,
    },
    /// Write set-points on several points, all or none, as a transaction of the session's process: 1 to 32 writes.
    /// `seq` is the process's own number for the request, 1 to 2^62 - 1, or 0 for none: what was accepted under the last
    /// such number is kept, so that a request which is sent again with its number is made once.
    Submit {
        writes: Items<Setting>,
        policy: Policy,
        seq: u64,
    },
    /// Keep leases of a transaction for at least `length` more milliseconds, 1 to 604,800,000: those on the named
    /// points, at most 32, or all its leases where none is named. All of them or none. `seq` is as for a submit.
    Renew {
        txn: Txn,
        length: i64,
        points: Items<PointId>,
        seq: u64,
    },
    /// End all live leases of a transaction of the session's process. `seq` is as for a submit.
    Cancel {
        txn: Txn,
        seq: u64,
    },
    /// The session's process is lost: all its live leases end, and the session no longer holds it.
    Gone,
    /// Let time pass up to the moment, and do no more.
    Tick,
    /// Tell a driver's next want.
    Next {
        driver: DriverId,
    },
    /// Tell that a point's device took, or did not take, the value of this version.
    Report {
        point: PointId,
        version: u64,
        ok: bool,
    },
    /// Tell that a point's device is to be written again: it was found with another value than the one that it took, or it could not be
    /// read, or it wants to be written now and then. A point that is not settled stays as it is.
    Doubt {
        point: PointId,
        /// Whether it was found with another value.
        differs: bool,
    },
    /// Read the value that a point is to have: its Present_Value (ASHRAE 135, clause 19.2).
    Read {
        point: PointId,
    },
    /// Read the sixteen slots of a point: its Priority_Array (ASHRAE 135, clause 19.2).
    Array {
        point: PointId,
    },
    /// Ask how far a transaction has come.
    Status {
        txn: Txn,
    },
    /// Ask for notices of the process of this name, or of the session's own where none is given: at most `max` of them,
    /// 1 to 64, from the number `from` on, which is at least 1.
    Notices {
        name: Option<Name>,
        from: u64,
        max: u64,
    },
    /// Ask for points of the catalogue: at most `max` of them, 1 to 64, from the place `from` on, which is counted from 0
    /// and at most 2^62.
    Points {
        from: u64,
        max: u64,
    },
    /// Ask which program serves, which journal it writes, and which catalogue it has.
    Version,
}
