//! The lengths of pauses of `specs/Pauses.antt`, as the code has them.
ghost use Rattle.std.specs.Prelude.{◌≡◌};
ghost use Rattle.boss_outside_server.specs.Pauses.{drive_pause, held_pause, tick_pause, watch_idle, watch_pause};

/// How long the pause between two ticks is at most, in milliseconds: it ends when something is due.
pub const TICK_PAUSE: u64 = 1_000;

/// How long the pause is at most where a driver has no want, in milliseconds: it ends when the driver has one.
pub const DRIVE_PAUSE: u64 = 10_000;

/// How long the pause is where a driver has no want but one that a guard holds, in milliseconds.
pub const HELD_PAUSE: u64 = 100;

/// How long the pause is at most after a turn of a watch without a notice, in milliseconds: it ends when there is one.
pub const WATCH_PAUSE: u64 = 5_000;

/// After how many turns in a row without a notice a watch ends: about a minute.
pub const WATCH_IDLE: u32 = 12;

/// The pauses that the code has are those of the definitions.
pub fn pauses_are_those_of_the_definitions()
    ensures { (TICK_PAUSE ≡ tick_pause) × (DRIVE_PAUSE ≡ drive_pause) × (HELD_PAUSE ≡ held_pause) × (WATCH_PAUSE ≡ watch_pause) × (WATCH_IDLE ≡ watch_idle) }
{}
