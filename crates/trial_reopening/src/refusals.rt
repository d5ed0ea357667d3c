// Why a pair is refused, by the bytes of its disks.
ghost use Rattle.boss_model.specs.Catalogue.{actuators};
ghost use Rattle.boss_scripts.specs.Devices.{HasDevices};

use crate::bytes::{ATTACHED, DIGEST, SHUT, joined, journal, kept, kept_2, put, worked, worked_2};
use crate::outside::*;
use boss_manager::Status;
use boss_points::Catalogue;
use std::alloc::Global;
use std::process::Abort;

/// What a check tells of the worked journal that was cut to a length.
fn of_length(length: usize) -> &'static str {
    match length {
        0 | 1 => "journal new\n",
        2..=41 => "journal not-a-journal\n",
        42..=65 => "journal damaged 41\n",
        66..=109 => "journal damaged 65\n",
        _ => "events 2 now 1000 leases 1 pending 0\n",
    }
}

#[test]
fn a_journal_cut_short_is_new_or_damaged(rt: HostRuntime) {
    let alloc = rt.alloc();
    let catalogue = three_points(&rt, alloc);
    let whole = worked(&rt, alloc);
    assert_eq!(&rt; whole.len(), 110);
    for length in 0..=whole.len() {
        expect_cut(&rt, alloc, &catalogue, &whole[..length], of_length(length));
    }
}

fn expect_cut(rt: &impl Abort, alloc: Global, catalogue: &Catalogue, journal: &[u8], told: &str) {
    let disks = pair(rt, alloc, journal, &[]);
    let (_, sink) = check(rt, alloc, catalogue, disks);
    expect_told(rt, &sink, told);
}

/// A script and a check refuse these disks so, and the script leaves them as they were.
fn refused(
    rt: &impl Abort,
    alloc: Global,
    catalogue: &Catalogue,
    first: &[u8],
    second: &[u8],
    told: &str,
)
    requires { HasDevices 1 (actuators catalogue.now) }
{
    let disks = pair(rt, alloc, first, second);
    let (one, other) = expect_run(rt, alloc, catalogue, disks, "", Status::JOURNAL, told);
    expect_bytes(rt, one, first);
    expect_bytes(rt, other, second);
    let disks = pair(rt, alloc, first, second);
    expect_check(rt, alloc, catalogue, disks, Status::JOURNAL, told);
}

/// The first byte of the digest is another.
const OTHER: &str =
    "journal catalogue abf24f74f7546ec5b6518644b791c16f2669c87380766435de2d82a7a610d059 aaf24f74f7546ec5b6518644b791c16f2669c87380766435de2d82a7a610d059\n";

type Journal = (
    &'static [u8; 1],
    &'static [u8; 32],
    &'static [&'static [u8]],
    &'static str,
);

const EMPTY_RECORD: &[u8] = b"\x01\0\0\0\0\0";

/// SHA-256 of the canonical text of the three points, with another first byte.
const OTHER_DIGEST: &[u8; 32] =
    b"\xab\xf2Ot\xf7Tn\xc5\xb6Q\x86D\xb7\x91\xc1o&i\xc8s\x80vd5\xde-\x82\xa7\xa6\x10\xd0Y";

/// The version and the digest of a journal, what stands behind its heading, and why it is refused.
const JOURNALS: &[Journal] = &[
    (b"\x02", DIGEST, &[EMPTY_RECORD], "journal damaged 41\n"),
    (
        b"\x02",
        DIGEST,
        &[ATTACHED, ATTACHED, SHUT],
        "journal damaged 57\n",
    ),
    (b"\x09", DIGEST, &[SHUT], "journal version 9\n"),
    (b"\x02", OTHER_DIGEST, &[SHUT], OTHER),
];

fn refused_journal(rt: &impl Abort, alloc: Global, catalogue: &Catalogue, row: &Journal)
    requires { HasDevices 1 (actuators catalogue.now) }
{
    let bytes = journal(rt, alloc, row.0, row.1, row.2);
    refused(rt, alloc, catalogue, &bytes, &[], row.3);
}

#[test]
fn a_journal_is_refused_for_what_it_holds(rt: HostRuntime) {
    let alloc = rt.alloc();
    let catalogue = three_points(&rt, alloc);
    for row in JOURNALS {
        refused_journal(&rt, alloc, &catalogue, row);
    }
    let none = "journal not-a-journal\n";
    refused(
        &rt,
        alloc,
        &catalogue,
        b"BOSSJRNL\x02and no more",
        &[],
        none,
    );
    refused(&rt, alloc, &catalogue, b"SQLite format 3", &[], none);
    refused(&rt, alloc, &catalogue, &[], &worked(&rt, alloc), none);
}

/// A byte of a kept state of version 2 that is another, and where it is told as damaged: there are too many events, no place is left for a gate,
/// and the lease is over at the moment 61672, so that no machine comes to this state.
const CHANGED: [(usize, u8, &str); 3] = [
    (49, 0x40, "journal damaged 49\n"),
    (64, 0x61, "journal damaged 57\n"),
    (71, 0xf0, "journal damaged 65\n"),
];

#[test]
fn a_kept_state_is_refused_at_its_place(rt: HostRuntime) {
    let alloc = rt.alloc();
    let catalogue = three_points(&rt, alloc);
    for (place, byte, told) in &CHANGED {
        let second = changed(&rt, alloc, *place, *byte);
        refused(&rt, alloc, &catalogue, &[], &second, told);
    }
}

/// The kept state of version 2 with another byte at a place.
fn changed(rt: &impl Abort, alloc: Global, place: usize, byte: u8) -> Vec<u8> {
    let mut bytes = kept_2(rt, alloc);
    assert!(rt; bytes.len() == 162 && place < 162);
    bytes[place] = byte;
    bytes
}

const BITS: [u8; 8] = [1, 2, 4, 8, 16, 32, 64, 128];

/// These bytes with a bit turned at a place.
fn turned(rt: &impl Abort, alloc: Global, bytes: &[u8], place: usize, bit: u8) -> Vec<u8> {
    let mut bytes = joined(rt, alloc, &[bytes]);
    if place < bytes.len() {
        bytes[place] ^= bit;
    }
    bytes
}

/// How that begins which a check tells of the worked journal whose bit is turned at a place. What is found is told at its gate; a
/// gate that is shut ends the log, and one that is open has to have a record behind it.
fn of_turned(place: usize, bit: u8) -> &'static str {
    match place {
        0 => "events 2 now 1000 leases 1 pending 0\n",
        1..=7 => "journal not-a-journal\n",
        8 => of_version(bit),
        9..=40 => "journal catalogue ",
        41 => "events 0 now 0 leases 0 pending 0\n",
        42..=64 => "journal damaged 41\n",
        65 => "events 1 now 0 leases 0 pending 0\n",
        66..=108 => "journal damaged 65\n",
        _ => of_last_gate(bit),
    }
}

/// Version 3 without its first bit is 2, and without its second 1: these have no sums, so the first record is none there.
fn of_version(bit: u8) -> &'static str {
    if bit <= 2 {
        "journal damaged 41\n"
    } else {
        "journal version "
    }
}

fn of_last_gate(bit: u8) -> &'static str {
    if bit == 1 {
        "journal damaged 109\n"
    } else {
        "events 2 now 1000 leases 1 pending 0\n"
    }
}

/// A check of these disks begins so.
fn expect_begins(
    rt: &impl Abort,
    alloc: Global,
    catalogue: &Catalogue,
    first: &[u8],
    second: &[u8],
    told: &str,
) {
    let disks = pair(rt, alloc, first, second);
    let (_, sink) = check(rt, alloc, catalogue, disks);
    assert!(rt; sink.taken().starts_with(told.as_bytes()), "{told}");
}

#[test]
fn each_changed_bit_of_a_journal_is_found(rt: HostRuntime) {
    let alloc = rt.alloc();
    let catalogue = three_points(&rt, alloc);
    let whole = worked(&rt, alloc);
    for place in 0..whole.len() {
        for bit in &BITS {
            let first = turned(&rt, alloc, &whole, place, *bit);
            expect_begins(&rt, alloc, &catalogue, &first, &[], of_turned(place, *bit));
        }
    }
}

/// The same of the kept state on the second disk, beside the journal that it goes on from. Its whole front is bound by the seed, so no
/// change of it puts the older disk in force.
fn of_turned_state(place: usize, bit: u8) -> &'static str {
    match place {
        0 => "events 2 now 1000 leases 1 pending 0\n",
        8 => of_state_version(bit),
        1..=72 => "journal not-a-journal\n",
        73..=176 => "journal damaged 65\n",
        _ => of_state_gate(bit),
    }
}

/// As version 2 or 1 what stands at 65 is no state.
fn of_state_version(bit: u8) -> &'static str {
    if bit <= 2 {
        "journal damaged 65\n"
    } else {
        "journal not-a-journal\n"
    }
}

fn of_state_gate(bit: u8) -> &'static str {
    if bit == 1 {
        "journal damaged 177\n"
    } else {
        "events 2 now 1000 leases 1 pending 0\n"
    }
}

#[test]
fn each_changed_bit_of_a_kept_state_is_found(rt: HostRuntime) {
    let alloc = rt.alloc();
    let catalogue = three_points(&rt, alloc);
    let (first, whole) = (worked(&rt, alloc), kept(&rt, alloc));
    for place in 0..whole.len() {
        for bit in &BITS {
            let second = turned(&rt, alloc, &whole, place, *bit);
            let told = of_turned_state(place, *bit);
            expect_begins(&rt, alloc, &catalogue, &first, &second, told);
        }
    }
}

/// The bytes from one place to another; none where there are none.
fn between(bytes: &[u8], from: usize, to: usize) -> &[u8] {
    bytes.get(from..to).unwrap_or(&[])
}

/// Records in the other order, and behind another front.
#[test]
fn a_record_counts_at_its_place_alone(rt: HostRuntime) {
    let alloc = rt.alloc();
    let catalogue = three_points(&rt, alloc);
    let whole = worked(&rt, alloc);
    assert!(&rt; whole.len() == 110);
    let mut turned_round = Vec::new(alloc);
    put(&rt, &mut turned_round, between(&whole, 0, 41));
    put(&rt, &mut turned_round, between(&whole, 65, 109));
    put(&rt, &mut turned_round, between(&whole, 41, 65));
    put(&rt, &mut turned_round, SHUT);
    let told = "journal damaged 41\n";
    refused(&rt, alloc, &catalogue, &turned_round, &[], told);
    let state = kept(&rt, alloc);
    assert!(&rt; state.len() == 178);
    let mut behind = Vec::new(alloc);
    put(&rt, &mut behind, between(&state, 0, 177));
    put(&rt, &mut behind, between(&whole, 41, 65));
    put(&rt, &mut behind, SHUT);
    let told = "journal damaged 177\n";
    refused(&rt, alloc, &catalogue, &whole, &behind, told);
}

/// In version 2, which has no sums, it is damaged where it was.
#[test]
fn an_older_journal_cut_short_is_damaged(rt: HostRuntime) {
    let alloc = rt.alloc();
    let catalogue = three_points(&rt, alloc);
    let whole = worked_2(&rt, alloc);
    assert!(&rt; whole.len() == 94);
    expect_cut(
        &rt,
        alloc,
        &catalogue,
        between(&whole, 0, 57),
        "journal damaged 41\n",
    );
    expect_cut(
        &rt,
        alloc,
        &catalogue,
        between(&whole, 0, 93),
        "journal damaged 57\n",
    );
    let told = "events 2 now 1000 leases 1 pending 0\n";
    expect_cut(&rt, alloc, &catalogue, &whole, told);
}
