/// A key of a request's line, or of one of its writes.
#[derive(Clone, Copy, Debug, PartialEq, Eq)]
pub enum Key {
    Op,
    On,
    At,
    Process,
    Writes,
    Policy,
    Seq,
    Txn,
    Length,
    Points,
    From,
    Max,
    Point,
    Value,
    Priority,
    Lease,
    Revert,
}

/// Where a line is at fault. Places are counted from 0.
#[derive(Clone, Copy, Debug, PartialEq, Eq)]
pub enum Spot {
    /// Under a key of the line itself.
    Line { key: Key },
    /// At one of the points that a renewal names.
    Named { place: u32 },
    /// Under a key of a write.
    Write { place: u32, key: Key },
    /// At a step of a write's reversion.
    Step { write: u32, place: u64 },
    /// At the value, which is half 0, or the hold, which is half 1, of a step.
    Half { write: u32, place: u64, half: u32 },
}
