/// A piece of work that may run in a thread of its own.
pub trait Task: Drop {
    /// That it is as it has to be before it runs or is abandoned.
    ghost ready: { Self → Type 0 };

    /// What its run leaves of it.
    ghost ran: { Self → Self → Type 0 };

    /// What is left of it where it was never started.
    ghost abandoned: { Self → Self → Type 0 };

    /// Does the work.
    fn run(&mut self)
        requires { ready self.old }
        ensures { ran self.old self.new };

    /// Notes that the work is never started.
    fn abandon(&mut self)
        requires { ready self.old }
        ensures { abandoned self.old self.new };
}

/// What became of a task.
#[derive(Debug, Drop)]
pub enum Ran<T> {
    /// It ran once.
    Ended(T),
    /// It was not started, and was abandoned once.
    NotStarted(T),
}
