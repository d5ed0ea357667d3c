ghost use Rattle.std.specs.Prelude.{◌≡◌, None, Some, is_err};
ghost use Rattle.boss_outside.specs.Counts.{one_more};
ghost use Rattle.boss_outside.specs.Plan.{new_plan};
ghost use Rattle.boss_disk.specs.Calls.{fails_now, after_try};

use boss_model::Items;
use boss_outside::{Failed, FaultPlan};

/// Which calls of a disk in memory fail: those that its plan names, and all from a stop on.
#[derive(Debug, Drop)]
pub struct Failures {
    plan: FaultPlan,
    left: Option<u64>,
}

impl Failures {
    /// The calls of these numbers fail, counted from 1, and no stop comes.
    pub fn new(fails: Items<u64>) -> Failures
        ensures { result ≡ record { plan = new_plan fails; left = None } }
    {
        Failures {
            plan: FaultPlan::new(fails),
            left: None,
        }
    }

    /// After so many calls more all calls fail.
    pub fn stop_after(&mut self, calls: u64)
        ensures { self.new ≡ record self.old { left = Some calls } }
    {
        self.left = Some(calls);
    }

    /// Counts a call, and a fault where the call is one that fails.
    pub fn call(&mut self) -> Result<(), Failed>
        ensures fails { is_err result ≡ fails_now self.old }
        ensures counted { self.new ≡ after_try self.old (is_err result) }
    {
        let stopped = self.left == Some(0);
        self.left = self.left.map(|left| left.saturating_sub(1));
        self.plan.call()?;
        if stopped {
            return Err(self.fault());
        }
        Ok(())
    }

    /// How many faults there were.
    pub fn faults(&self) -> u64
        ensures { result ≡ self.now.plan.faults }
    {
        self.plan.faults()
    }

    /// Counts a fault of the call that was counted last.
    pub fn fault(&mut self) -> Failed
        ensures { self.new ≡ record self.old { plan = record self.old.plan { faults = one_more self.old.plan.faults } } }
    {
        self.plan.fault()
    }
}
