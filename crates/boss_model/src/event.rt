use crate::{Items, Name, PointId, Policy, ProcId, Setting, Txn};

/// What was done at an event: the part of a command that outlasts a stop.
#[derive(Debug, Drop)]
pub enum Act {
    /// A process of this name was taken on.
    Enrol {
        name: Name,
    },
    /// The process submitted a transaction: 1 to 32 writes. `seq` is the process's number for the request, 0 for none.
    Submit {
        owner: ProcId,
        policy: Policy,
        writes: Items<Setting>,
        seq: u64,
    },
    /// The process renewed leases of a transaction: those on the named points, or all where none is named. `seq` is as for
    /// a submit.
    Renew {
        owner: ProcId,
        txn: Txn,
        length: i64,
        points: Items<PointId>,
        seq: u64,
    },
    /// The process cancelled a transaction. `seq` is as for a submit.
    Cancel {
        owner: ProcId,
        txn: Txn,
        seq: u64,
    },
    /// The process was lost.
    Gone {
        owner: ProcId,
    },
    /// Time passed, and no more.
    Tick,
    /// The point's device did not take the value of the lease in force.
    Fault {
        point: PointId,
    },
}

/// One change of what outlasts a stop. Events in their order, done again from the first state, give the state after them.
#[derive(Debug, Drop)]
pub struct Event {
    /// The moment of the change, in milliseconds: 0 to 2^60.
    pub moment: u64,
    pub act: Act,
}

/// What a step did to what outlasts a stop.
#[derive(Clone, Copy, Debug, PartialEq, Eq)]
pub enum Effect {
    /// Nothing.
    Unchanged,
    /// What time alone did; `moment` is that of the last change.
    Tick { moment: u64 },
    /// More than that: what the command did at this moment, and the process that it concerns. That is the submitting,
    /// renewing, cancelling or lost process, the new one at an attach, and the owner of the lease in force at a report.
    Whole { moment: u64, owner: ProcId },
}
