use boss_model::{Command, Name, SessionId};

/// What a line asks, of which session, and when.
#[derive(Debug, Drop)]
pub struct Request {
    /// The session: 1 to 65,535 in a script. A line of a connection says none, and this is 0.
    pub on: SessionId,
    /// The moment, in milliseconds: 0 to 2^60 in a script. A line of a connection says none, and this is 0.
    pub at: u64,
    /// What is asked.
    pub ask: Ask,
}

/// What a line may ask.
#[derive(Debug, Drop)]
pub enum Ask {
    /// That the transaction manager does this command.
    Command(Command),
    /// That the connection is told of the notices of a process as they come, and of nothing else from now on.
    Watch {
        /// The name of the process.
        name: Name,
        /// The number of the first notice that is wanted: at least 1.
        from: u64,
    },
}
