use boss_expiry::WorkEnd;

/// Why a guarded worker ended.
#[derive(Clone, Copy, Debug, PartialEq, Eq)]
pub enum GuardEnd {
    /// As a worker that keeps nothing of its points.
    Worked(WorkEnd),
    /// No memory was to be had for what is kept of the points. It took no turn.
    NoMemory,
}
