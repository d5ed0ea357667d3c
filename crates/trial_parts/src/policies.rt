use boss_model::Policy;
use boss_model::Policy::{Abort, Keep};
use boss_policy::Decision::{EndAll, Mark, Tell};
use boss_policy::{Decision, on_fault};

/// The policy of a lease if there is one, whether its failure is the first, and what is decided.
const DECISIONS: &[(Option<Policy>, bool, Decision)] = &[
    (Some(Abort), true, EndAll),
    (Some(Abort), false, Mark),
    (Some(Keep), true, Tell),
    (Some(Keep), false, Mark),
    (None, true, Mark),
    (None, false, Mark),
];

#[test]
fn only_a_first_failure_of_a_lease_is_told(rt: HostRuntime) {
    for (policy, first, decision) in DECISIONS {
        assert_eq!(rt; on_fault(*policy, *first), *decision);
    }
}
