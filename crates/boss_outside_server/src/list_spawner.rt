ghost use Rattle.std.specs.Prelude.{◌≡◌, not, IfOk, IsNone};
ghost use Rattle.boss_outside.specs.Plan.{new_plan, fails_next, after_call};
ghost use Rattle.boss_outside_server.specs.Tasks.{StartCause, MakesNext};

use crate::Spawner;
use boss_model::{Items, NoMemory};
use boss_outside::FaultPlan;
use std::alloc::Global;
use std::marker::{Model, PhantomData};
use std::thread::Threads;

/// A spawner in memory. It runs the tasks one after another in their order, but does not start those whose numbers are
/// to fail. It makes no thread; `R` is what would make them.
#[derive(Drop)]
pub struct ListSpawner<R> {
    plan: FaultPlan,
    threads: PhantomData<R>,
}

impl<R> Model for ListSpawner<R> {
    ghost use Rattle.boss_outside.specs.Plan.{Plan};

    ghost Value = { Plan };

    ghost view = { λ s. s.plan };
}

impl<R> ListSpawner<R> {
    /// A spawner that does not start the tasks with these numbers, counted from 1 over all its runs.
    pub fn new(_alloc: Global, fails: Items<u64>) -> Result<ListSpawner<R>, NoMemory>
        ensures { IfOk result (λ spawner. spawner ≡ new_plan fails) }
    {
        Ok(ListSpawner {
            plan: FaultPlan::new(fails),
            threads: PhantomData,
        })
    }
}

impl<R: Threads> Spawner for ListSpawner<R> {
    type Runtime = R;

    ghost faults = { λ spawner. spawner.faults };

    ghost starting = { MakesNext };

    fn starts(&mut self) -> bool {
        self.plan.call().is_ok()
    }

    fn threads(&self) -> Option<&R>
        ensures { IsNone result }
    {
        None
    }
}
