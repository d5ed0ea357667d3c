use boss_model::Name;

/// Why a session ended.
#[derive(Debug, Drop)]
pub enum SessionEnd {
    /// The input was read to its end.
    End,
    /// The first line asked to watch the process of this name, from this number of its notices on.
    Watch { name: Name, from: u64 },
    /// A read failed.
    ReadFault,
    /// A write failed.
    WriteFault,
    /// The clock failed.
    ClockFault,
    /// A line was too long.
    TooLong,
    /// Whoever spoke had shown no key, or attached to another name than the one whose key it had shown.
    WrongKey,
    /// As many lines came as are taken of a connection: 2^32.
    Limit,
    /// The disk had failed before a call of the session.
    Stopped,
    /// The disk failed in a call of the session.
    DiskFault,
    /// No memory was to be had to begin.
    NoMemory,
}
