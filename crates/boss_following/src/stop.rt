ghost use Rattle.std.specs.Prelude.{◌≡◌};
ghost use Rattle.boss_following.specs.Ends.{stopped_at};

/// Why a feed was followed no further.
#[derive(Clone, Copy, Debug, PartialEq, Eq)]
pub enum FollowEnd {
    /// The feed came to its end.
    End,
    /// The feed came to its end within a state. The lines before that state stand.
    Short,
    /// Events are missing. All lines before stand.
    Gap {
        /// The number of events that are known.
        have: u64,
        /// The number of the event that came, which is not the next one.
        found: u64,
    },
    /// A line is none of a feed's, or not in its place, or its event or the state that it ends has no effect here. All lines
    /// before stand.
    BadLine {
        /// The number of the line, from 1 on.
        line: u64,
    },
    /// A line has more bytes than a line may have. All lines before stand.
    TooLong,
    /// There are more lines than are read: 2^32. These stand.
    Limit,
    /// A read failed. All lines that had come whole stand.
    ReadFault,
    /// A disk failed in this call. What the line made may stand or not.
    DiskFault,
    /// No memory was to be had. All lines before stand.
    NoMemory,
    /// A disk failed in an earlier call. Nothing was read.
    Stopped,
}

/// Why a line ends the following.
#[derive(Clone, Copy, Debug, PartialEq, Eq)]
pub enum Stop {
    Gap { have: u64, found: u64 },
    BadLine,
    DiskFault,
    NoMemory,
}

impl Stop {
    /// The end that this is at the line of this number.
    pub fn at(self, line: u64) -> FollowEnd
        ensures { result ≡ stopped_at self line }
    {
        match self {
            Stop::Gap { have, found } => FollowEnd::Gap { have, found },
            Stop::BadLine => FollowEnd::BadLine { line },
            Stop::DiskFault => FollowEnd::DiskFault,
            Stop::NoMemory => FollowEnd::NoMemory,
        }
    }
}
