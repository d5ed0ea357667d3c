/// Why a connection is watched for no longer.
#[derive(Clone, Copy, Debug, PartialEq, Eq)]
pub enum WatchEnd {
    /// So many turns in a row had no notice.
    Idle,
    /// A pause said that the worker is to end, before the last of those turns.
    Closed,
    /// A notice could not be written.
    WriteFault,
    /// The clock failed.
    ClockFault,
    /// The disk had failed in an earlier call.
    Stopped,
    /// The disk failed in the last call.
    DiskFault,
    /// No memory was to be had.
    NoMemory,
}
