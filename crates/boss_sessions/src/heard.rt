use boss_model::{Name, Refusal};

/// What came behind the requests that are held.
#[derive(Debug, Drop)]
pub enum Heard {
    /// Nothing: they are to be done now.
    Requests,
    /// A line that asks nothing, which this is the answer to.
    Refused(Refusal),
    /// A line for which there was no memory.
    Unread,
    /// The first line, which asks to watch a process, from this number of its notices on.
    Watch { name: Name, from: u64 },
    /// A request at which the clock failed.
    Untimed,
    /// A line of whoever has shown no key, or an attach of another name than the one whose key was shown.
    WrongKey,
    /// As many lines as are taken of a connection: `MOST_LINES`.
    Limit,
    /// The end of the input.
    Finish,
    /// A line that is too long.
    TooLong,
    /// A read that failed.
    ReadFault,
}
