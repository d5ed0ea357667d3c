use boss_model::{DriverId, Kind, Name};

/// A point of the catalogue: one commandable property of one device (ASHRAE 135, clause 19.2).
#[derive(Debug, Drop)]
pub struct Point {
    /// What requests call it. No two points of a catalogue have one name.
    pub name: Name,
    /// Which values it takes.
    pub kind: Kind,
    /// Relinquish_Default: the value in force while no slot of the priority array holds one. It fits the kind.
    pub default: i64,
    /// The driver of its device.
    pub driver: DriverId,
    /// How long its device is to stay on once it is on, in milliseconds: 0, for no such time, to 86,400,000. It is 0 where
    /// the point is not binary. The worker of a server that drives the point keeps it.
    pub min_on: i64,
    /// How long its device is to stay off once it is off, as `min_on`.
    pub min_off: i64,
}
