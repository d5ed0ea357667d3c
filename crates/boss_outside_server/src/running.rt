//! Runs tasks, each of which is to be started or not: one after another, or side by side.

ghost use Rattle.std.specs.Prelude.{◌≡◌, ◌+◌, ◌<◌, ◌≤◌, ◌∷◌, ◌++◌, [], map, vec_len, vec_capacity};
ghost use Rattle.std.specs.List.{AllByRecursion};
ghost use Rattle.boss_outside_server.specs.Tasks.{IsCarriedOut, AreCarriedOut, AreReady, EachRan, Starts, SpawnCause, tasks_of, starts_of, is_ended};

use crate::{Ran, Spawner, Task};
use std::collections::VecDeque;
use std::thread::{Threads, join};

/// A task, and whether it is to be started.
#[derive(Drop)]
pub struct Planned<T> {
    pub task: T,
    pub starts: bool,
}

impl<T: Task> Planned<T> {
    /// Runs the task or abandons it.
    fn carry_out(self) -> Ran<T>
        requires { T.ready self.task }
        ensures { IsCarriedOut T.ran T.abandoned self result }
    {
        let Planned { mut task, starts } = self;
        if starts {
            task.run();
            Ran::Ended(task)
        } else {
            task.abandon();
            Ran::NotStarted(task)
        }
    }
}

/// Puts an item at the end, for which there is room.
fn push_in_room<T: Drop>(items: &mut Vec<T>, item: T)
    requires { vec_len items.old < vec_capacity items.old }
    ensures items { items.new.items ≡ items.old.items ++ item ∷ [] }
    ensures len { vec_len items.new ≡ vec_len items.old + 1 }
    ensures room { vec_capacity items.old ≤ vec_capacity items.new }
{
    let pushed = items.push(item);
    let Ok(()) = pushed else { unreachable!() };
}

/// Asks of each task whether it is started. For what comes of it there is room.
pub fn plan<P: Spawner, T: Task>(
    spawner: &mut P,
    tasks: Vec<T>,
    mut planned: Vec<Planned<T>>,
) -> Vec<Planned<T>>
    requires empty { planned.items ≡ [] }
    requires room { vec_len tasks ≤ vec_capacity planned }
    ensures tasks { tasks_of result.items ≡ tasks.items }
    ensures started { Starts P.starting spawner.old (starts_of result.items) spawner.new }
    ensures cause { SpawnCause (P.faults spawner.old) (P.faults spawner.new) (starts_of result.items) }
{
    for task in tasks {
        let starts = spawner.starts();
        push_in_room(&mut planned, Planned { task, starts });
    }
    planned
}

/// Carries out all tasks of a plan. For what comes of them there is room.
pub fn carry_out_all<R: Threads, T: Task + Send>(
    threads: Option<&R>,
    planned: Vec<Planned<T>>,
    done: Vec<Ran<T>>,
) -> Vec<Ran<T>>
    requires ready { AllByRecursion T.ready (tasks_of planned.items) }
    requires empty { done.items ≡ [] }
    requires room { vec_len planned ≤ vec_capacity done }
    ensures each { EachRan T.ran T.abandoned (tasks_of planned.items) result.items }
    ensures started { map is_ended result.items ≡ starts_of planned.items }
{
    match threads {
        Some(rt) => side_by_side(rt, planned, done),
        None => in_turn(planned, done),
    }
}

/// Carries out one after another, in their order. For what comes of them there is room.
fn in_turn<T: Task>(planned: Vec<Planned<T>>, mut done: Vec<Ran<T>>) -> Vec<Ran<T>>
    requires ready { AreReady T.ready planned.items }
    requires empty { done.items ≡ [] }
    requires room { vec_len planned ≤ vec_capacity done }
    ensures { AreCarriedOut T.ran T.abandoned planned.items result.items }
{
    let mut waiting = VecDeque::from(planned);
    while let Some(next) = waiting.pop_front() {
        push_in_room(&mut done, next.carry_out());
    }
    done
}

/// Carries out all at once, each in a thread of its own where one can be made. For what comes of them there is room.
fn side_by_side<R: Threads, T: Task + Send>(
    rt: &R,
    mut planned: Vec<Planned<T>>,
    done: Vec<Ran<T>>,
) -> Vec<Ran<T>>
    requires ready { AreReady T.ready planned.items }
    requires empty { done.items ≡ [] }
    requires room { vec_len planned ≤ vec_capacity done }
    ensures each { AreCarriedOut T.ran T.abandoned planned.items result.items }
    ensures len { vec_len result ≡ vec_len planned }
    ensures room { vec_capacity done ≤ vec_capacity result }
{
    let Some(last) = planned.pop() else {
        return done;
    };
    let run_last = move || -> Ran<T>
        requires { T.ready last.task }
        ensures { IsCarriedOut T.ran T.abandoned last result }
    { last.carry_out() };
    let front = planned;
    let run_front = move || -> Vec<Ran<T>>
        requires { AreReady T.ready front.items × (done.items ≡ []) × (vec_len front ≤ vec_capacity done) }
        ensures each { AreCarriedOut T.ran T.abandoned front.items result.items }
        ensures len { vec_len result ≡ vec_len front }
        ensures room { vec_capacity done ≤ vec_capacity result }
    { side_by_side(rt, front, done) };
    let (ran_last, mut ran) = join(rt, run_last, run_front);
    push_in_room(&mut ran, ran_last);
    ran
}
