//! When a lease ends, where the wall clock is wrong.

use boss_slew::{Reading, Slew};

const SECOND: u64 = 1_000;

const MINUTE: u64 = 60 * SECOND;

const HOUR: u64 = 60 * MINUTE;

const DAY: u64 = 24 * HOUR;

const YEAR: u64 = 365 * DAY;

/// The wall clock's moment where the steady one is at 0: the first of January 2026, in milliseconds since 1970.
const ORIGIN: u64 = 1_767_225_600_000;

/// For ever, beside what a row lasts.
const EVER: u64 = 1_000 * YEAR;

/// A wall clock that is wrong for a while, and a lease that is taken at the start. All are in milliseconds.
#[derive(Drop)]
struct Row {
    /// When it becomes wrong, by the steady clock.
    from: u64,
    /// How long it is.
    lasts: u64,
    /// How far ahead it is meanwhile, and how far behind: one of them is 0.
    ahead: u64,
    behind: u64,
    /// How far ahead of the wall clock the journal is at the start.
    journal: u64,
    /// How long the lease is.
    lease: u64,
    /// How often the clock is read.
    pace: u64,
    /// By how much the lease may be shorter or longer by the steady clock.
    within: u64,
}

/// What both clocks show so long after the start.
fn reading(row: &Row, steady: u64) -> Reading {
    let right = ORIGIN.saturating_add(steady);
    let is_wrong = row.from <= steady && steady - row.from < row.lasts;
    let wall = if is_wrong {
        right.saturating_add(row.ahead).saturating_sub(row.behind)
    } else {
        right
    };
    Reading {
        wall: Some(wall),
        steady,
    }
}

/// When the lease has ended, by the steady clock; twice its length where it has not by then.
fn end(row: &Row) -> u64 {
    let least = ORIGIN.saturating_add(row.journal);
    let mut clock = Slew::start(least, &reading(row, 0));
    let until = clock.moment().saturating_add(row.lease);
    let last = row.lease.saturating_mul(2);
    let mut steady: u64 = 0;
    for _ in 0..u64::MAX {
        if clock.advance(&reading(row, steady)) >= until || steady >= last {
            return steady;
        }
        steady = steady.saturating_add(row.pace);
    }
    last
}

/// A lease of a minute, under a clock that is read ten times a second and goes right.
const fn minute() -> Row {
    Row {
        from: 0,
        lasts: 0,
        ahead: 0,
        behind: 0,
        journal: 0,
        lease: MINUTE,
        pace: 100,
        within: SECOND,
    }
}

/// The number of the first row, from 1, whose lease is not as long as it may be; 0 where all are.
fn first_wrong(rows: &[Row]) -> u64 {
    let mut number: u64 = 0;
    for row in rows {
        number = number.saturating_add(1);
        if end(row).abs_diff(row.lease) > row.within {
            return number;
        }
    }
    0
}

#[test]
fn a_short_error_ends_no_lease_by_a_second(rt: HostRuntime) {
    let rows = [
        minute(),
        // In 2036 for 0.4 s, and in 1996; over a lease of a minute, of a day.
        Row {
            from: 10 * SECOND,
            lasts: 400,
            ahead: 10 * YEAR,
            ..minute()
        },
        Row {
            from: 10 * SECOND,
            lasts: 400,
            behind: 30 * YEAR,
            ..minute()
        },
        Row {
            from: 10 * SECOND,
            lasts: 400,
            ahead: 10 * YEAR,
            lease: DAY,
            pace: SECOND,
            ..minute()
        },
        // Set by a second at the boot, for good.
        Row {
            from: 5 * SECOND,
            lasts: EVER,
            ahead: 900,
            lease: HOUR,
            ..minute()
        },
        Row {
            from: 5 * SECOND,
            lasts: EVER,
            behind: 900,
            lease: HOUR,
            ..minute()
        },
        // By a year for a minute and a half, within a lease of a day.
        Row {
            from: HOUR,
            lasts: 90 * SECOND,
            ahead: YEAR,
            lease: DAY,
            pace: SECOND,
            ..minute()
        },
    ];
    assert_eq!(rt; first_wrong(&rows), 0);
}

#[test]
fn a_lasting_error_draws_a_lease_by_a_hundredth(rt: HostRuntime) {
    let rows = [
        // A minute, and an hour, under a clock that was set by an hour, by a year.
        Row {
            from: 10 * SECOND,
            lasts: EVER,
            ahead: HOUR,
            ..minute()
        },
        Row {
            from: 10 * SECOND,
            lasts: EVER,
            behind: HOUR,
            ..minute()
        },
        Row {
            from: 0,
            lasts: EVER,
            ahead: YEAR,
            lease: HOUR,
            within: 37 * SECOND,
            ..minute()
        },
        Row {
            from: 0,
            lasts: EVER,
            behind: YEAR,
            lease: HOUR,
            within: 37 * SECOND,
            ..minute()
        },
        // An hour ahead for a day, over a lease of a year: it has come back long before, and the lease ends in the minute of its end.
        Row {
            from: DAY,
            lasts: DAY,
            ahead: HOUR,
            lease: YEAR,
            pace: MINUTE,
            within: MINUTE,
            ..minute()
        },
        // Ten years ahead for good, over a lease of a year: a hundredth less.
        Row {
            from: 0,
            lasts: EVER,
            ahead: 10 * YEAR,
            lease: YEAR,
            pace: MINUTE,
            within: 4 * DAY,
            ..minute()
        },
    ];
    assert_eq!(rt; first_wrong(&rows), 0);
}

#[test]
fn a_journal_that_is_ahead_stands_still_for_nobody(rt: HostRuntime) {
    let rows = [
        // By ten seconds, by ten years.
        Row {
            journal: 10 * SECOND,
            ..minute()
        },
        Row {
            journal: 10 * YEAR,
            ..minute()
        },
        Row {
            journal: 10 * YEAR,
            lease: HOUR,
            within: 37 * SECOND,
            ..minute()
        },
    ];
    assert_eq!(rt; first_wrong(&rows), 0);
}
