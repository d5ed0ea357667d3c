ghost use Rattle.std.specs.Prelude.{◌≡◌, ℕ, Bool, map, IfOk, IfErr};
ghost use Rattle.std.specs.List.{AllByRecursion};
ghost use Rattle.boss_outside_server.specs.Tasks.{EachRan, Starts, StartCause, SpawnCause, is_ended};

use crate::running::{carry_out_all, plan};
use crate::{Ran, Task};
use boss_model::NoMemory;
use std::alloc::Global;
use std::thread::Threads;

/// Something that runs tasks, each in a thread of its own or one after another.
pub trait Spawner {
    /// What makes the threads.
    type Runtime: Threads;

    /// The number of tasks that were not started, up to `2 ^ 64 - 1`, where it stands still.
    ghost faults: { Self → ℕ };

    /// How a call of `starts` changes the spawner, by its answer.
    ghost starting: { Self → Bool → Self → Type 0 };

    /// Whether the next task is started.
    fn starts(&mut self) -> bool
        ensures step { starting self.old result self.new }
        ensures cause { StartCause (faults self.old) (faults self.new) result };

    /// What makes the threads; none where the tasks run one after another.
    fn threads(&self) -> Option<&Self::Runtime>;

    /// Runs the tasks and returns when all that were started have ended. Each is given back, in their order. Where there
    /// is no memory to do so, none was started, and all are given back as they were.
    final fn run_all<T: Task + Send>(
        &mut self,
        alloc: Global,
        tasks: Vec<T>,
    ) -> Result<Vec<Ran<T>>, (Vec<T>, NoMemory)>
        requires { AllByRecursion T.ready tasks.items }
        ensures each { IfOk result (λ done. EachRan T.ran T.abandoned tasks.items done.items) }
        ensures started { IfOk result (λ done. Starts starting self.old (map is_ended done.items) self.new) }
        ensures cause { IfOk result (λ done. SpawnCause (faults self.old) (faults self.new) (map is_ended done.items)) }
        ensures refused { IfErr result (λ refusal. (refusal.0.items ≡ tasks.items) × (self.new ≡ self.old)) }
    {
        let mut done = Vec::new(alloc);
        if done.reserve(tasks.len()).is_err() {
            return Err((tasks, NoMemory));
        }
        let mut planned = Vec::new(alloc);
        if planned.reserve(tasks.len()).is_err() {
            return Err((tasks, NoMemory));
        }
        let planned = plan(self, tasks, planned);
        Ok(carry_out_all(self.threads(), planned, done))
    }
}
