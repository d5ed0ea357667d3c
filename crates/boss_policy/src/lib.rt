//! What a device's fault means for the transaction whose value it refused.
#![tactic(auto)]

ghost use Rattle.std.specs.Prelude.{◌≡◌};
ghost use Rattle.boss_policy.specs.Decision.{decision};

use boss_model::Policy;

/// What follows from a write that a device did not take.
#[derive(Clone, Copy, Debug, PartialEq, Eq)]
pub enum Decision {
    /// The owner is told of the fault, and all live leases of its transaction end.
    EndAll,
    /// The owner is told of the fault, and its transaction goes on.
    Tell,
    /// The point is marked as failed, and nobody is told.
    Mark,
}

/// What follows from a failed write, by the error policy of the transaction whose lease is in force on the point, none
/// where no lease is, and by whether this is the first failure of the value as it was commanded. Only a first failure of
/// a lease's value concerns its owner: the retries of that value, and the values of reversions and defaults, do not.
/// (The error policies of a transaction are those of BOSS: Dawson-Haggerty et al., NSDI 2013.)
pub fn on_fault(policy: Option<Policy>, first: bool) -> Decision
    ensures { result ≡ decision policy first }
{
    match (policy, first) {
        (Some(Policy::Abort), true) => Decision::EndAll,
        (Some(Policy::Keep), true) => Decision::Tell,
        _ => Decision::Mark,
    }
}
