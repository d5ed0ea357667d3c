//! What the workers of a server stand on: clocks, hosts that hand out connections, waiters between two turns of a worker,
//! and tasks with a spawner that runs them. Each is a trait whose contract tells what a call does, and each has a form in
//! memory that meets it and keeps a record of what was done.
//!
//! A clock, a host and a waiter are split before the workers start, one part for each, and each part is taken back when
//! they have ended. Taking back takes no memory, so no record is ever lost.
//!
//! No trait here asks `Send`: a method of an impl could then call nothing that is generic over the trait, since what such
//! a call sends to a thread would rest on a bound of a type parameter. The bounds stand where threads start: at
//! `Spawner::run_all`, which asks that its tasks are `Send`, and at the functions on the way to it.
#![tactic(auto)]

mod clock;
mod host;
mod list_clock;
mod list_host;
mod list_spawner;
mod log;
mod one_of;
mod pauses;
mod running;
mod spawner;
mod task;
mod turn_waiter;
mod waited;
mod waiter;

pub use clock::Clock;
pub use host::{Accepted, Announcement, Host};
pub use list_clock::ListClock;
pub use list_host::{Ended, ListHost};
pub use list_spawner::ListSpawner;
pub use one_of::OneOf;
pub use pauses::{
    DRIVE_PAUSE, HELD_PAUSE, TICK_PAUSE, WATCH_IDLE, WATCH_PAUSE,
    pauses_are_those_of_the_definitions,
};
pub use spawner::Spawner;
pub use task::{Ran, Task};
pub use turn_waiter::TurnWaiter;
pub use waited::{Leaving, Lengths, Waited};
pub use waiter::{Waiter, Woke};
