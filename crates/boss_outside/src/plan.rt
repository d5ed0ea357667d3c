ghost use Rattle.std.specs.Prelude.{◌≡◌, IfOk, is_err};
ghost use Rattle.boss_outside.specs.Counts.{one_more};
ghost use Rattle.boss_outside.specs.Plan.{new_plan, fails_next, after_call, after_join};

use crate::Failed;
use boss_model::{Items, NoMemory};
use std::alloc::Global;
use std::marker::Model;

/// Which calls of an object in memory fail, by their numbers from 1, and how many calls and faults there were. Both
/// counts stand still at `2 ^ 64 - 1`.
#[derive(Debug, Drop)]
pub struct FaultPlan {
    fails: Items<u64>,
    calls: u64,
    faults: u64,
}

impl Model for FaultPlan {
    ghost use Rattle.boss_outside.specs.Plan.{Plan};

    ghost Value = { Plan };

    ghost view = { λ p. record { fails = p.fails; calls = p.calls; faults = p.faults } };
}

impl FaultPlan {
    /// The plan in which the calls of these numbers fail, before the first call.
    pub fn new(fails: Items<u64>) -> FaultPlan
        ensures { result ≡ new_plan fails }
    {
        FaultPlan {
            fails,
            calls: 0,
            faults: 0,
        }
    }

    /// The plan of a part: in it the calls of the same numbers fail, and it is before its first call.
    pub fn split(&self, alloc: Global) -> Result<FaultPlan, NoMemory>
        ensures { IfOk result (λ part. part ≡ new_plan self.now.fails) }
    {
        let fails = self.fails.slice().to_vec(alloc)?;
        Ok(FaultPlan::new(Items::from_vec(fails)))
    }

    /// Counts the faults of the part that is taken back too.
    pub fn join(&mut self, part: FaultPlan)
        ensures { self.new ≡ after_join self.old part }
    {
        self.faults = self.faults.saturating_add(part.faults);
    }

    /// Counts a call, and a fault where the call is one that fails.
    pub fn call(&mut self) -> Result<(), Failed>
        ensures planned { is_err result ≡ fails_next self.old }
        ensures counted { self.new ≡ after_call self.old (is_err result) }
    {
        self.calls = self.calls.saturating_add(1);
        if self.fails.slice().contains(&self.calls) {
            return Err(self.fault());
        }
        Ok(())
    }

    /// How many faults there were.
    pub fn faults(&self) -> u64
        ensures { result ≡ self.now.faults }
    {
        self.faults
    }

    /// Counts a fault of the call that was counted last.
    pub fn fault(&mut self) -> Failed
        ensures { self.new ≡ record self.old { faults = one_more self.old.faults } }
    {
        self.faults = self.faults.saturating_add(1);
        Failed
    }
}
