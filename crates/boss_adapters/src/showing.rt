//! How long somebody may stay at a worker that is kept for whoever shows a key, and show none.

use crate::readings::awake;
use std::alloc::Global;
use std::sync::Arc;
use std::sync::atomic::{AtomicBool, Ordering};
use std::time::Duration;

/// How long that is, in milliseconds: a program shows its key with its first line, which it sends at once.
const LONGEST_SHOWING: u64 = 1_000;

/// What is told to whoever has shown no key, and may go on: how those answers begin.
const MALFORMED: &[u8] = b"{\"error\":\"malformed\"";

const MEMORY: &[u8] = b"{\"error\":\"memory\"";

/// By when a connection has to be told something else than what is told to whoever has shown no key.
#[derive(Drop)]
pub(crate) struct Showing {
    /// A moment by the clock that leaves out the system's sleep; none where that clock can't be read.
    due: Option<u64>,
    /// Whether it was told so.
    is_shown: Arc<AtomicBool, Global>,
}

impl Showing {
    /// For a connection that was made now, whose sink notes here that it was told so.
    pub(crate) fn new(is_shown: Arc<AtomicBool, Global>) -> Showing {
        let due = match awake() {
            Some(now) => Some(now.saturating_add(LONGEST_SHOWING)),
            None => None,
        };
        Showing { due, is_shown }
    }

    /// How long the next read may wait: a millisecond where a key is overdue; none: as long as for anybody.
    pub(crate) fn left(&self) -> Option<Duration> {
        Some(Duration::from_millis(self.milliseconds()?.max(1)))
    }

    /// Whether a key is overdue.
    pub(crate) fn is_overdue(&self) -> bool {
        self.milliseconds() == Some(0)
    }

    /// How much time is left to show a key, in milliseconds; none where one was shown.
    fn milliseconds(&self) -> Option<u64> {
        if self.is_shown.load(Ordering::SeqCst) {
            return None;
        }
        Some(self.due?.saturating_sub(awake()?))
    }
}

/// Whether one of these answers is told to nobody who has shown no key, and goes on.
pub(crate) fn tells_of_a_key(answers: &[u8]) -> bool {
    let mut rest = answers;
    for _ in 0..answers.len() {
        if rest.is_empty() {
            return false;
        }
        if !rest.starts_with(MALFORMED) && !rest.starts_with(MEMORY) {
            return true;
        }
        let Some(end) = rest.iter().position(|byte| *byte == b'\n') else {
            return false;
        };
        rest = &rest[end + 1..];
    }
    false
}
