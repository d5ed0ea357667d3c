/// Why a line was not read as a value.
#[derive(Clone, Copy, Debug, PartialEq, Eq)]
pub enum Unread {
    /// It writes no value of JSON, or one that nests deeper than 127 levels or has a number that is too large for a float.
    Malformed,
    /// No memory was to be had. This says nothing of the line.
    NoMemory,
}
