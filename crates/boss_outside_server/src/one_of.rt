ghost use Rattle.boss_outside_server.specs.Either.{ReadyOf, BecameOf};

use crate::Task;

/// A task of one of two kinds, for a list of tasks of both.
#[derive(Drop)]
pub enum OneOf<A, B> {
    First(A),
    Second(B),
}

impl<A: Task, B: Task> Task for OneOf<A, B> {
    ghost ready = { ReadyOf A.ready B.ready };

    ghost ran = { BecameOf A.ran B.ran };

    ghost abandoned = { BecameOf A.abandoned B.abandoned };

    fn run(&mut self) {
        match self {
            OneOf::First(task) => task.run(),
            OneOf::Second(task) => task.run(),
        }
    }

    fn abandon(&mut self) {
        match self {
            OneOf::First(task) => task.abandon(),
            OneOf::Second(task) => task.abandon(),
        }
    }
}
