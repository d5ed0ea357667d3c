use boss_model::{PointId, Priority};

/// A slot of a point's priority array.
#[derive(Clone, Copy, Debug, PartialEq, Eq)]
pub struct Place {
    pub point: PointId,
    /// The slot's level, 1 to 16.
    pub priority: Priority,
}
