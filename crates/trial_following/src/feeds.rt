// Lines of a feed: which are done, which are passed over, and which end it.
use crate::outside::*;
use boss_following::FollowEnd;
use boss_points::Catalogue;
use std::alloc::Global;
use std::process::Abort;

/// What a feed comes to in a new journal, and how many events this has then.
const EVENTS: &[(&str, FollowEnd, u64)] = &[
    ("", FollowEnd::End, 0),
    ("\n \t\r\n", FollowEnd::End, 0),
    ("event 1 0100000000000000000161", FollowEnd::End, 1),
    // The second event alone.
    (
        "event 2 0200000000000003e80000000100000000000000000000afc8080000ea6000\n",
        FollowEnd::Gap { have: 0, found: 2 },
        0,
    ),
    (
        "event 18446744073709551615 00\n",
        FollowEnd::Gap {
            have: 0,
            found: 18446744073709551615,
        },
        0,
    ),
    // No event, more than one, and none that has an effect.
    ("event 1 00\n", FollowEnd::BadLine { line: 1 }, 0),
    (
        "event 1 010000000000000000016100\n",
        FollowEnd::BadLine { line: 1 },
        0,
    ),
    (
        "\nevent 1 05000000000000000007\n",
        FollowEnd::BadLine { line: 2 },
        0,
    ),
    // Written otherwise.
    (
        "event 01 0100000000000000000161\n",
        FollowEnd::BadLine { line: 1 },
        0,
    ),
    (
        "event +1 0100000000000000000161\n",
        FollowEnd::BadLine { line: 1 },
        0,
    ),
    (
        "event  1 0100000000000000000161\n",
        FollowEnd::BadLine { line: 1 },
        0,
    ),
    (
        "event 1 010000000000000000016A\n",
        FollowEnd::BadLine { line: 1 },
        0,
    ),
    ("event 1 \n", FollowEnd::BadLine { line: 1 }, 0),
    (
        "event 18446744073709551616 00\n",
        FollowEnd::BadLine { line: 1 },
        0,
    ),
    // A known event is passed over, whatever its bytes are; but they are bytes.
    (
        "event 1 0100000000000000000161\nevent 1 00\nevent 0 ff\n",
        FollowEnd::End,
        1,
    ),
    (
        "event 1 0100000000000000000161\nevent 1 0\n",
        FollowEnd::BadLine { line: 2 },
        1,
    ),
];

/// The same of states. That of 32 bytes is the first: at moment 0, with 1 as the next transaction's number and nothing else.
const STATES: &[(&str, FollowEnd, u64)] = &[
    // Taken after five events; then the sixth is next, and the fifth is known.
    (
        "state 5 32\npart 0000000000000000000000000000000100000000000000000000000000000000\n",
        FollowEnd::End,
        5,
    ),
    (
        "state 5 32
part 0000000000000000000000000000000100000000000000000000000000000000
event 5 00
event 6 0100000000000000000161
",
        FollowEnd::End,
        6,
    ),
    (
        "state 5 32
part 0000000000000000000000000000000100000000000000000000000000000000
event 7 0100000000000000000161
",
        FollowEnd::Gap { have: 5, found: 7 },
        5,
    ),
    // Known, and passed over with its parts.
    (
        "state 0 2\n\npart 0000\nevent 1 0100000000000000000161\n",
        FollowEnd::End,
        1,
    ),
    (
        "state 0 0\nevent 1 0100000000000000000161\n",
        FollowEnd::End,
        1,
    ),
    // The feed ends within it.
    ("state 5 32\n", FollowEnd::Short, 0),
    ("state 0 2\n", FollowEnd::Short, 0),
    // A part of another length, one that is out of place, and another line where a part is due.
    ("state 5 32\npart 00\n", FollowEnd::BadLine { line: 2 }, 0),
    ("state 0 2\npart 00\n", FollowEnd::BadLine { line: 2 }, 0),
    ("part 00\n", FollowEnd::BadLine { line: 1 }, 0),
    (
        "state 5 32\nevent 1 0100000000000000000161\n",
        FollowEnd::BadLine { line: 2 },
        0,
    ),
    // A number that no event has, and more bytes than a state has.
    (
        "state 4611686018427387905 32\n",
        FollowEnd::BadLine { line: 1 },
        0,
    ),
    ("state 5 134217729\n", FollowEnd::BadLine { line: 1 }, 0),
    // No bytes, where some are due.
    ("state 5 0\n", FollowEnd::BadLine { line: 1 }, 0),
];

/// The state after the two events: 96 bytes. The moment and the next transaction's number; the process, and of it its name, notices
/// and reply; the transaction, its owner, policy and part; none that is done; the lease; no reversion.
const STATE: &[u8] = b"state 2 96
part 00000000000003e8000000000000000200010161000000000000000000000000000001000000000000000100000001000000000800000000000001000000000000000100000000000008000000000000afc8000000000000ee48000000000000
";

/// Where the digits of its bytes begin.
const DIGITS: usize = 16;

/// Which of its bytes can be 255 in place of what they are, so that it is a sound state still (`x`), and which not (`.`): the last byte of
/// the moment, all but the first of the two numbers, of the next transaction and of notices, and the last ones of the lease's value
/// and of its end.
const STILL: &str =
    ".......x.xxxxxxx.....xxxxxxx....................................................xx.....xxx......";

/// The state with 255 in place of one of its bytes.
fn spoilt(rt: &impl Abort, alloc: Global, place: usize) -> Vec<u8> {
    let mut text = STATE.to_vec(alloc).expect(rt, "memory");
    let first = place.saturating_mul(2).saturating_add(DIGITS);
    put_digit(&mut text, first);
    put_digit(&mut text, first.saturating_add(1));
    text
}

/// Puts the digit `f` at a place.
fn put_digit(text: &mut Vec<u8>, place: usize) {
    if place < text.len() {
        text[place] = b'f';
    }
}

/// Whether a feed comes to this end in a new journal, and this has so many events then.
fn expect_end(
    rt: &impl Abort,
    alloc: Global,
    catalogue: &Catalogue,
    text: &[u8],
    wanted: FollowEnd,
    events: u64,
) {
    let mut durable = new_journal(rt, alloc, catalogue);
    let end = follow_bytes(rt, alloc, catalogue, &mut durable, text);
    assert!(rt; end == wanted);
    assert!(rt; durable.events() == events);
}

#[test]
fn each_line_is_done_or_ends_it(rt: HostRuntime) {
    let alloc = rt.alloc();
    let catalogue = three_points(&rt, alloc);
    expect_ends(&rt, alloc, &catalogue, EVENTS);
    expect_ends(&rt, alloc, &catalogue, STATES);
}

/// Each of these feeds comes to its end in a new journal.
fn expect_ends(
    rt: &impl Abort,
    alloc: Global,
    catalogue: &Catalogue,
    rows: &[(&str, FollowEnd, u64)],
) {
    for (text, wanted, events) in rows {
        expect_end(rt, alloc, catalogue, text.as_bytes(), *wanted, *events);
    }
}

#[test]
fn a_state_with_a_byte_changed_is_none_or_another(rt: HostRuntime) {
    let alloc = rt.alloc();
    let catalogue = three_points(&rt, alloc);
    expect_end(&rt, alloc, &catalogue, STATE, FollowEnd::End, 2);
    for (place, mark) in STILL.bytes().enumerate() {
        expect_spoilt(&rt, alloc, &catalogue, place, mark == b'x');
    }
}

/// Whether the state with 255 in place of one of its bytes is a sound state still.
fn expect_spoilt(
    rt: &impl Abort,
    alloc: Global,
    catalogue: &Catalogue,
    place: usize,
    is_sound: bool,
) {
    let text = spoilt(rt, alloc, place);
    if is_sound {
        expect_end(rt, alloc, catalogue, &text, FollowEnd::End, 2);
    } else {
        expect_end(
            rt,
            alloc,
            catalogue,
            &text,
            FollowEnd::BadLine { line: 2 },
            0,
        );
    }
}
