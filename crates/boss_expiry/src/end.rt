/// Why a worker ended.
#[derive(Clone, Copy, Debug, PartialEq, Eq)]
pub enum WorkEnd {
    /// It took all its turns.
    Finished,
    /// A pause said that it was to end, before its last turn.
    Closed,
    /// The clock failed.
    ClockFault,
    /// The disk had failed in an earlier call.
    Stopped,
    /// The disk failed in the worker's last call.
    DiskFault,
}
