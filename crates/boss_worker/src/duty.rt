use boss_model::DriverId;
use std::snapshot::Snapshot;

/// What a worker does.
#[derive(Drop)]
pub enum Duty<H, A> {
    /// It serves the connections that its part of a host hands out.
    Connections(H),
    /// It lets time pass.
    Time,
    /// It drives the devices of a driver, of which it is known how they were.
    Devices(DriverId, A, Snapshot<A>),
}
