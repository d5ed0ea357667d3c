use crate::{DriverId, Items, Kind, Mark, PointId, Policy, Priority, ProcId, Step, Txn};

/// What the transaction manager knows of a point, apart from its name.
#[derive(Clone, Copy, Debug, PartialEq, Eq)]
pub struct Actuator {
    /// The values that the point takes.
    pub kind: Kind,
    /// Relinquish_Default: the value in force where nobody holds the point (ASHRAE 135, clause 19.2).
    pub default: i64,
    /// The driver that its device is behind.
    pub driver: DriverId,
}

/// A slot of a point's priority array that a transaction holds until its lease ends. (Leases on actuators are those of
/// BOSS: Dawson-Haggerty et al., NSDI 2013; the slot is that of ASHRAE 135, clause 19.2.)
#[derive(Debug, Drop)]
pub struct Lease {
    /// The transaction that holds the slot.
    pub txn: Txn,
    /// The process that submitted the transaction.
    pub owner: ProcId,
    /// The slot's point.
    pub point: PointId,
    /// The slot's level.
    pub priority: Priority,
    /// The value that the slot has.
    pub value: i64,
    /// The lease is live at each moment before this one, in milliseconds.
    pub until: u64,
    /// What is played from the moment at which the lease ends, unless it is superseded: at most 8 steps.
    pub revert: Items<Step>,
    /// The error policy of the transaction.
    pub policy: Policy,
}

/// A reversion under way: it keeps the slot of its lease, and ranks below every live lease of the point.
#[derive(Debug, Drop)]
pub struct Pending {
    /// The transaction whose lease held the slot.
    pub txn: Txn,
    /// The process that submitted the transaction.
    pub owner: ProcId,
    /// The slot's point.
    pub point: PointId,
    /// The slot's level.
    pub priority: Priority,
    /// What is played, one step after another from `start` on: 1 to 8 steps.
    pub steps: Items<Step>,
    /// The moment at which the lease ended, in milliseconds.
    pub start: u64,
}

/// Where a point's device stands.
#[derive(Clone, Copy, Debug, PartialEq, Eq)]
pub struct Proxy {
    /// One more at each change of the commanded value, from 1, modulo 2^64.
    pub version: u64,
    /// The value that the device is to have.
    pub commanded: i64,
    /// How far the device has come.
    pub mark: Mark,
    /// Whether the device has failed to take the commanded value since it was commanded.
    pub failed: bool,
    /// The first moment at which a device that failed is written again, in milliseconds.
    pub retry_at: u64,
    /// How often the device was found with another value than it took, modulo 2^64.
    pub differed: u64,
    /// What the device took last, since the state was opened.
    pub took: Option<Took>,
}

/// A value that a device took.
#[derive(Clone, Copy, Debug, PartialEq, Eq)]
pub struct Took {
    /// The value: thousandths of an analog point, 0 or 1 of a binary one, a state of a multi-state one.
    pub value: i64,
    /// The moment at which it was first told to have been taken, with no other value taken since, in milliseconds.
    pub since: u64,
}
