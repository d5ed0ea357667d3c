//! How long it is waited for the end of a line.

use crate::readings::awake;
use std::time::Duration;

/// How long a line may take from its first byte to its end, and a connection until the end of its first line, in milliseconds.
const LONGEST_LINE: u64 = 60_000;

/// By when the end of a line has to come in by a connection. It counts from the line's first byte, so bytes that come in meanwhile win
/// no time.
#[derive(Drop)]
pub struct Patience {
    /// A moment by the clock that leaves out the system's sleep; none between two lines, or where that clock can't be read.
    due: Option<u64>,
}

impl Patience {
    /// For a connection that was made now.
    pub fn new() -> Patience {
        Patience { due: in_a_while() }
    }

    /// How long the next read may wait: a millisecond where the end is overdue, for bytes that are there; none: as long as it takes.
    pub fn left(&self) -> Option<Duration> {
        let due = self.due?;
        let left = due.saturating_sub(awake()?);
        Some(Duration::from_millis(left.max(1)))
    }

    /// Hears the bytes that came in, of which there is at least one.
    pub fn hear(&mut self, bytes: &[u8]) {
        if bytes.last() == Some(&b'\n') {
            self.due = None;
        } else if self.due.is_none() || bytes.contains(&b'\n') {
            self.due = in_a_while();
        }
    }
}

/// By when the end of a line has to come in that is begun now.
fn in_a_while() -> Option<u64> {
    Some(awake()?.saturating_add(LONGEST_LINE))
}
