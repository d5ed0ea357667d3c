//! Units that did not answer, and how long each is left alone.

use arrayvec::ArrayVec;

/// How long a unit is left alone that did not answer, in milliseconds, by how often in a row. The first is less than the pause between
/// two tries of a point, so that a device by itself is asked at each such try.
const RESTS: [u64; 5] = [4_000, 8_000, 16_000, 32_000, 60_000];

/// How many silent units are known at once. More are asked as if they had answered.
const MOST_SILENT: usize = 64;

/// A unit that did not answer, how often in a row, and when it was asked last.
#[derive(Clone, Copy, Debug, Default, PartialEq, Eq)]
struct Silent {
    unit: u32,
    missed: usize,
    at: u64,
}

/// The units behind one host that did not answer. Moments are in milliseconds, by whatever clock its user has.
///
/// One of many units is left alone the longer, the longer it is silent, as each try holds up the others. Where there is one unit alone
/// there are no others to hold up.
#[derive(Drop)]
pub(crate) struct Silences {
    silent: ArrayVec<Silent, MOST_SILENT>,
    /// The unit that was asked first.
    first: Option<u32>,
    /// Whether another one was asked since.
    has_more: bool,
}

impl Silences {
    /// No unit was asked yet.
    pub(crate) fn new() -> Silences {
        Silences {
            silent: ArrayVec::new(),
            first: None,
            has_more: false,
        }
    }

    /// Whether the unit is to be left alone at a moment, as it is about to be asked.
    pub(crate) fn leaves_alone(&mut self, unit: u32, now: u64) -> bool {
        match self.first {
            None => self.first = Some(unit),
            Some(first) => self.has_more |= first != unit,
        }
        match self.silent.iter().find(|silent| silent.unit == unit) {
            Some(silent) => now < silent.at.saturating_add(self.rest(silent.missed)),
            None => false,
        }
    }

    /// How long a unit is left alone that did not answer so often.
    fn rest(&self, missed: usize) -> u64 {
        if self.has_more {
            RESTS[missed.min(RESTS.len()).saturating_sub(1)]
        } else {
            RESTS[0]
        }
    }

    /// The unit answered.
    pub(crate) fn answered(&mut self, unit: u32) {
        self.silent.retain(|silent| silent.unit != unit);
    }

    /// The unit did not answer what it was asked until this moment.
    pub(crate) fn missed(&mut self, unit: u32, now: u64) {
        let before = match self.silent.iter().find(|silent| silent.unit == unit) {
            Some(silent) => silent.missed,
            None => 0,
        };
        self.answered(unit);
        let _ = self.silent.try_push(Silent {
            unit,
            missed: before.saturating_add(1),
            at: now,
        });
    }
}
