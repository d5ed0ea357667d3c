//! The limits of `specs/Limits.antt`, as the code has them. Why each is what it is stands there.

/// How many drivers a catalogue may have.
pub const MOST_DRIVERS: usize = 256;

/// How many points a catalogue may have.
pub const MOST_POINTS: usize = 4_096;

/// How many levels a priority array has, from 1, the highest (ASHRAE 135, clause 19.2.1).
pub const LEVELS: u8 = 16;

/// How many bytes the name of a point, a driver or a process may have.
pub const LONGEST_NAME: usize = 64;

/// How many bytes the file of a catalogue may have.
pub const LONGEST_FILE: usize = 1_048_576;

/// How long the minimum on and off times of a binary point may be, in milliseconds: a day.
pub const LONGEST_MINIMUM: i64 = 86_400_000;

/// How many writes a submit may have, and how many points a renewal may name.
pub const MOST_WRITES: usize = 32;

/// How long a lease or a renewal may be, in milliseconds: a week.
pub const LONGEST_LEASE: i64 = 604_800_000;

/// How long a step of a reversion may hold, in milliseconds: a day.
pub const LONGEST_HOLD: i64 = 86_400_000;

/// How many steps a reversion may have.
pub const MOST_STEPS: usize = 8;

/// How many transactions that are done are kept, at most.
pub const DONE_KEPT: usize = 1_024;

/// How many control processes there may be.
pub const MOST_PROCESSES: usize = 256;

/// How many notices are kept for each process, at most.
pub const NOTICES_KEPT: usize = 1_024;

/// How many notices are told at once.
pub const MOST_TOLD: u64 = 64;

/// The last moment, in milliseconds.
pub const LAST_MOMENT: u64 = 1 << 60;

/// Transactions are numbered below this, notices up to this.
pub const LAST_NUMBER: u64 = 1 << 62;

/// The last session of a script; the first is 1.
pub const LAST_SESSION: u64 = 65_535;

/// How many bytes a line may have, without its end.
pub const LONGEST_LINE: usize = 65_535;

/// How many bytes an answer is written into: the longest has one less.
pub const ANSWER_ROOM: u32 = 32_768;

/// How many lines a script may have.
pub const MOST_LINES: u64 = 1 << 32;

/// How many requests of a connection are held and done together, and how many events one record may have.
pub const MOST_HELD: usize = 16;

/// How long a device is left alone after a failed write, in milliseconds.
pub const RETRY_AFTER: u64 = 5_000;

/// The version of the program, as it tells it.
pub const PROGRAM_VERSION: &str = "0.3.0";

/// How many workers a server may have for connections.
pub const MOST_WORKERS: u64 = 1_024;

/// The place of a new journal's first gate, in bytes: after the mark, the version and the digest.
pub const FIRST_GATE: u64 = 41;

/// How many bytes a record may have.
pub const LONGEST_RECORD: u32 = 65_535;

/// How many bytes a call wants to find free in a log, and how many a record is read into: more than any record has.
pub const RECORD_ROOM: u32 = 65_536;

/// How many bytes a log may have before a new state is kept: 16 MiB.
pub const LOG_LIMIT: u64 = 16_777_216;

/// How often a caller looks at the lock before it sleeps.
pub const LOCK_LOOKS: u32 = 1_000;

/// How many places in line for the lock have a bell of their own. Those further behind share these.
pub const BELLS: usize = 2_048;

/// At how many counters callers may leave requests for whoever has the turn. Who finds none that is free goes alone.
pub const MOST_COUNTERS: u32 = 256;
