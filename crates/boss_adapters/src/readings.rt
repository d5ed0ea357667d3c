//! What the clocks of the system show, in milliseconds.

use libc::types::timespec;
use std::time::{Clock, SystemTime, UNIX_EPOCH};

/// The clock of the system that counts from its boot on, also while it sleeps, and is never set.
const CLOCK_BOOTTIME: i32 = 7;

/// Since 1970 by the wall clock; none where it can't be read or is set before 1970.
pub fn wall<R: Clock>(rt: &R) -> Option<u64> {
    let now = SystemTime::now(rt).ok()?;
    let passed = now.duration_since(UNIX_EPOCH).ok()?;
    u64::try_from(passed.as_millis()).ok()
}

/// Since the system's boot; where it has no such clock, without the time that it slept.
pub fn since_boot() -> Option<u64> {
    match shown_by(CLOCK_BOOTTIME) {
        Some(shown) => Some(shown),
        None => awake(),
    }
}

/// Since some start, without the time that the system slept.
pub fn awake() -> Option<u64> {
    shown_by(libc::CLOCK_MONOTONIC)
}

/// What a clock of the system shows.
fn shown_by(clock: i32) -> Option<u64> {
    let mut shown = timespec {
        tv_sec: 0,
        tv_nsec: 0,
    };
    if libc::clock_gettime(clock, &mut shown) != 0 {
        return None;
    }
    let seconds = u64::try_from(shown.tv_sec).ok()?;
    let rest = u64::try_from(shown.tv_nsec).ok()? / 1_000_000;
    Some(seconds.saturating_mul(1_000).saturating_add(rest))
}
