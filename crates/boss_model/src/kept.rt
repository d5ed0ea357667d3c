use crate::{Cause, Items, Lease, Name, Notice, Pending, PointId, Policy, Priority, ProcId, Txn};

/// What a submit, a renewal or a cancel that is accepted is answered.
#[derive(Clone, Copy, Debug, PartialEq, Eq)]
pub enum Acceptance {
    /// The submit was accepted as this transaction; `until` is the least moment, in milliseconds, at which one of its
    /// leases ends.
    Accepted { txn: Txn, until: u64 },
    /// The leases of the transaction were renewed; `until` is the least moment at which one of them ends.
    Renewed { txn: Txn, until: u64 },
    /// The live leases of the transaction ended at this moment.
    Cancelled { txn: Txn, at: u64 },
}

/// What a process's last numbered request that was accepted was answered.
#[derive(Clone, Copy, Debug, PartialEq, Eq)]
pub struct KeptReply {
    /// The number that the process gave the request: 1 to 2^62 - 1.
    pub seq: u64,
    pub acceptance: Acceptance,
}

/// What outlasts a stop of a process.
#[derive(Drop)]
pub struct KeptProcess {
    pub name: Name,
    /// How many notices it was sent, at most 2^62.
    pub count: u64,
    /// The last of them, at most 1,024, numbered up to `count` without a gap.
    pub notices: Items<Notice>,
    /// What its last numbered request that was accepted was answered.
    pub reply: Option<KeptReply>,
}

/// What outlasts a stop of one write of a transaction: its slot, and how and when its lease ended, if it did.
#[derive(Drop)]
pub struct KeptPart {
    pub point: PointId,
    pub priority: Priority,
    /// The cause, and the moment in milliseconds; none as long as the lease is live.
    pub end: Option<(Cause, u64)>,
}

/// What outlasts a stop of a transaction.
#[derive(Drop)]
pub struct KeptTxn {
    pub txn: Txn,
    pub owner: ProcId,
    pub policy: Policy,
    /// Its writes in their order: 1 to 32.
    pub parts: Items<KeptPart>,
}

/// All that outlasts a stop, as plain lists.
#[derive(Drop)]
pub struct Kept {
    /// The moment of the last change, in milliseconds: 0 to 2^60.
    pub now: u64,
    /// The number of the next transaction.
    pub next: Txn,
    /// The processes, by their places.
    pub processes: Items<KeptProcess>,
    /// The transactions that are kept, by rising number.
    pub txns: Items<KeptTxn>,
    /// Those of them that are done, in the order of becoming done: at most 1,024.
    pub done: Items<Txn>,
    /// The leases, in the order of their slots.
    pub leases: Items<Lease>,
    /// The reversions under way, in the order of their slots.
    pub pending: Items<Pending>,
}
