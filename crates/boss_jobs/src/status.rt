use std::fmt;

/// How a run of the program ended, as the number that the process ends with.
#[derive(Clone, Copy, Debug, PartialEq, Eq)]
pub struct Status(pub u8);

impl Status {
    /// All was done.
    pub const DONE: Status = Status(0);
    /// The words ask for no job that is there.
    pub const USAGE: Status = Status(2);
    /// The catalogue was refused.
    pub const CATALOGUE: Status = Status(3);
    /// The journal was refused.
    pub const JOURNAL: Status = Status(4);
    /// A file failed.
    pub const FILE_FAULT: Status = Status(5);
    /// A read failed.
    pub const READ_FAULT: Status = Status(6);
    /// A write failed.
    pub const WRITE_FAULT: Status = Status(7);
    /// No memory was to be had.
    pub const NO_MEMORY: Status = Status(8);
    /// The host failed: it could not listen at its address, or accept a connection.
    pub const HOST_FAULT: Status = Status(9);
    /// A worker was not started.
    pub const UNSTARTED: Status = Status(11);
    /// The clock failed.
    pub const CLOCK_FAULT: Status = Status(12);
    /// A line is too long.
    pub const LINE_TOO_LONG: Status = Status(13);
    /// There are more than 2^32 lines.
    pub const TOO_MANY_LINES: Status = Status(14);
    /// The adoption of a changed catalogue was refused, or the shift of a journal's moments.
    pub const ADOPTION: Status = Status(15);
    /// The access rules were refused.
    pub const RULES: Status = Status(16);
    /// The plan of the devices was refused.
    pub const PLAN: Status = Status(17);
    /// A feed was not followed to its end: events are missing, a line is at fault, or it ends within a state.
    pub const STANDBY: Status = Status(18);
    /// The keys were refused.
    pub const KEYS: Status = Status(19);
}

impl fmt::Display for Status {
    fn fmt<W: fmt::Write>(&self, f: &mut fmt::Formatter<W>) -> fmt::Result {
        f.write_str(match *self {
            Status::DONE => "all was done",
            Status::USAGE => "the words ask for no job that is there",
            Status::CATALOGUE => "the catalogue was refused",
            Status::JOURNAL => "the journal was refused",
            Status::FILE_FAULT => "a file failed",
            Status::READ_FAULT => "a read failed",
            Status::WRITE_FAULT => "a write failed",
            Status::NO_MEMORY => "out of memory",
            Status::HOST_FAULT => "the host failed",
            Status::UNSTARTED => "a worker was not started",
            Status::CLOCK_FAULT => "the clock failed",
            Status::LINE_TOO_LONG => "a line is too long",
            Status::TOO_MANY_LINES => "there are too many lines",
            Status::ADOPTION =>
                "the adoption of a changed catalogue, or the shift of a journal's moments, was refused",
            Status::RULES => "the access rules were refused",
            Status::PLAN => "the plan of the devices was refused",
            Status::STANDBY => "a feed was not followed to its end",
            Status::KEYS => "the keys were refused",
            Status(_) => "no status of the program",
        })
    }
}
