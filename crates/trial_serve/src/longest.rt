//! Sixteen requests of the longest kind, which come in one piece and make one record.

use crate::connections::Talk;
use crate::journals::{SHUT, empty_disks, expect_journal, put_bytes};
use crate::rows::PLAIN;
use crate::stage::{Pair, Setting, run_on_disks};
use crate::texts::expect_text;
use boss_disk::MemoryDisk;
use boss_points::Catalogue;
use std::alloc::Global;
use std::process::Abort;
use std::sync::Wait;
use std::thread::Threads;

/// 32 points, on one driver.
fn points(rt: &impl Abort, alloc: Global) -> String {
    let mut text = String::from_str(alloc, "drivers=['field']\npoint=[\n").expect(rt, "memory");
    for point in 0..32u32 {
        put_point(rt, &mut text, point);
    }
    text.push_str("]\n").expect(rt, "memory");
    text
}

fn put_point(rt: &impl Abort, text: &mut String, point: u32) {
    writeln!(
        text,
        "{{name='p{point}',driver='field',kind='analog',min=0,max=9,default=0}},"
    )
    .expect(rt, "memory");
}

/// The catalogue of these points.
fn catalogue(rt: &impl Abort, alloc: Global) -> Catalogue {
    let points = points(rt, alloc);
    Catalogue::read(alloc, points.as_bytes()).expect(rt, "a catalogue")
}

/// Puts down a numbered submit that writes to each of the points, with eight steps.
fn put_submit(rt: &impl Abort, text: &mut String, seq: u32) {
    write!(text, "{{\"op\":\"submit\",\"seq\":{seq},\"writes\":[").expect(rt, "memory");
    for point in 0..32u32 {
        put_asked_write(rt, text, point);
    }
    text.push_str("]}\n").expect(rt, "memory");
}

/// Puts down the write to this point behind the others, as it is asked for.
fn put_asked_write(rt: &impl Abort, text: &mut String, point: u32) {
    let comma = if point == 0 { "" } else { "," };
    write!(
        text,
        "{comma}{{\"point\":\"p{point}\",\"value\":1,\"priority\":8,\"lease\":1000,\"revert\":[[1,1],[1,1],[1,1],[1,1],[1,1],[1,1],[1,1],[1,1]]}}"
    )
    .expect(rt, "memory");
}

/// What comes: an attach, a line that asks nothing and so ends what is done together, and the sixteen.
fn piece(rt: &impl Abort, alloc: Global) -> String {
    let front = "{\"op\":\"attach\",\"process\":\"a\"}\n{}\n";
    let mut text = String::from_str(alloc, front).expect(rt, "memory");
    for seq in 1..=16u32 {
        put_submit(rt, &mut text, seq);
    }
    text
}

/// Puts down what each submit is answered.
fn put_answers(rt: &impl Abort, text: &mut String) {
    for txn in 1..=16u32 {
        put_answer(rt, text, txn);
    }
}

fn put_answer(rt: &impl Abort, text: &mut String, txn: u32) {
    writeln!(text, "{{\"ok\":\"accepted\",\"txn\":{txn},\"until\":2000}}").expect(rt, "memory");
}

/// What is told: each transaction takes the place of the one before it, and the last one's 32 reversions are left.
fn told(rt: &impl Abort, alloc: Global) -> String {
    let front =
        "session 1\n{\"ok\":\"attached\",\"process\":\"a\",\"next\":1}\n{\"error\":\"malformed\",\"key\":\"op\"}\n";
    let end = "pauses 0\npauses 1 closed\nevents 18 now 1000 leases 0 pending 32\nstatus 0\n";
    let mut text = String::from_str(alloc, front).expect(rt, "memory");
    put_answers(rt, &mut text);
    text.push_str(end).expect(rt, "memory");
    text
}

/// An open gate, 19 bytes: the attach at 1,000. Each record ends with its sum, by `sha256sum`.
const ATTACHED: &[u8] =
    b"\x01\0\0\0\x13\x01\0\0\0\0\0\0\x03\xe8\x01a\xbb\xd5\xeb\x9f\xcc\x3b\xcd\xff";

/// An open gate, and the number of bytes of sixteen events of 3,669 and their sum.
const HEAD: &[u8] = b"\x01\0\0\xe5\x58";

/// That sum.
const EVENTS_SUM: &[u8] = b"\x01\xca\x36\x2f\x4a\x72\x0c\xdc";

/// An open gate, at 58,782, and 19 bytes: process 0 is lost at 1,000.
const LOST: &[u8] = b"\x01\0\0\0\x13\x05\0\0\0\0\0\0\x03\xe8\0\0\x71\x87\x3c\xa7\x97\x07\xa6\x13";

/// Puts down the event of a submit, 3,669 bytes: at 1,000 by process 0, its number, abort, and 32 writes.
fn put_event(rt: &impl Abort, bytes: &mut Vec<u8>, seq: u64) {
    put_bytes(rt, bytes, b"\x08\0\0\0\0\0\0\x03\xe8\0\0");
    put_bytes(rt, bytes, &seq.to_be_bytes());
    put_bytes(rt, bytes, b"\0\x20");
    for point in 0..32u32 {
        put_write(rt, bytes, point);
    }
}

/// Puts down a write to this point, with eight steps.
fn put_write(rt: &impl Abort, bytes: &mut Vec<u8>, point: u32) {
    put_bytes(rt, bytes, &point.to_be_bytes());
    put_bytes(rt, bytes, b"\0\0\0\0\0\0\0\x01\x08\0\0\x03\xe8\x08");
    for _ in 0..8 {
        put_bytes(rt, bytes, b"\0\0\0\0\0\0\0\x01\0\0\0\x01");
    }
}

/// The sixteen events.
fn events(rt: &impl Abort, alloc: Global) -> Vec<u8> {
    let mut bytes = Vec::new(alloc);
    for seq in 1..=16u64 {
        put_event(rt, &mut bytes, seq);
    }
    bytes
}

/// What a server leaves on two empty disks that is sent this piece. What is told is compared.
fn expect_told<R: Abort + Threads + Wait + Sync>(
    rt: &R,
    alloc: Global,
    catalogue: &Catalogue,
    piece: &str,
) -> Pair {
    let talks = [Talk {
        text: piece,
        fails: 0,
    }];
    let setting = Setting {
        workers: &[&talks],
        ..PLAIN
    };
    let (text, left) = run_on_disks(rt, alloc, catalogue, &setting, empty_disks(rt, alloc, 0));
    expect_text(
        rt,
        text.as_str(),
        told(rt, alloc).as_str(),
        "sixteen submits",
    );
    left
}

/// The disk has to have the attach, the sixteen events as one record, and the loss of the process.
fn expect_one_record(rt: &impl Abort, alloc: Global, catalogue: &Catalogue, disk: MemoryDisk) {
    let events = events(rt, alloc);
    assert!(rt; events.len() == 58_704);
    let log = [ATTACHED, HEAD, events.as_slice(), EVENTS_SUM, LOST, SHUT];
    expect_journal(rt, alloc, catalogue, disk, &log, "one record");
}

#[test]
fn sixteen_of_the_longest_requests_are_one_record(rt: HostRuntime) {
    let alloc = rt.alloc();
    let catalogue = catalogue(&rt, alloc);
    let piece = piece(&rt, alloc);
    assert!(rt; piece.len() <= 65_536);
    let (first, _) = expect_told(&rt, alloc, &catalogue, piece.as_str());
    expect_one_record(&rt, alloc, &catalogue, first);
}
