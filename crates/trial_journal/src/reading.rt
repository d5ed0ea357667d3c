ghost use Rattle.std.specs.Prelude.{◌≡◌, ◌≤◌};

use crate::bytes::{ATTACH, DIGEST, LOG, OTHER, SUBMIT, disk_of, journal};
use crate::expected::{Expected, expected_next, expected_start};
use boss_disk::MemoryDisk;
use boss_journal::{Appended, Journal, Looked, NextRecord};
use boss_model::{Buffer, Items, NoMemory};
use std::alloc::Global;
use std::process::Abort;
use std::test::Fail;

/// Reads a journal on to its end, and compares each answer with the one that is expected of the bytes.
fn read_on<R: Abort>(rt: &R, journal: &mut Journal<MemoryDisk>, bytes: &[u8], into: &mut Buffer)
    requires { 65535 ≤ into.old.capacity }
    ensures { into.new.capacity ≡ into.old.capacity }
{
    let mut gate: usize = 41;
    'records: for _ in 0..bytes.len() {
        let (expected, size) = expected_next(bytes, gate);
        let told = journal.next(into);
        assert!(rt; told == expected, "at {gate}");
        let NextRecord::Bytes { .. } = told else {
            return;
        };
        let start = gate.saturating_add(5);
        assert!(rt; bytes.get(start..start.saturating_add(size)) == Some(into.bytes()));
        gate = start.saturating_add(size);
    }
}

/// Looks at bytes and opens them, and compares what is found with what is expected of them.
fn compare<R: Abort>(rt: &R, alloc: Global, bytes: &[u8]) -> Result<(), NoMemory> {
    let mut into = Buffer::new(alloc, 65_536)?;
    let expected = expected_start(bytes, &DIGEST);
    let looked = looks_as(rt, disk_of(alloc, bytes)?, bytes, expected, &mut into);
    let opened = opens_as(rt, disk_of(alloc, bytes)?, bytes, expected, &mut into);
    assert!(rt; looked && opened);
    Ok(())
}

/// Whether a look at the disk of these bytes finds what is expected and changes nothing.
fn looks_as<R: Abort>(
    rt: &R,
    disk: MemoryDisk,
    bytes: &[u8],
    expected: Expected,
    into: &mut Buffer,
) -> bool
    requires { 65535 ≤ into.old.capacity }
    ensures { into.new.capacity ≡ into.old.capacity }
{
    match Journal::look(disk, &DIGEST) {
        Ok(Looked::New(disk)) => expected == Expected::New && disk.faults() == 0,
        Ok(Looked::Old(mut journal)) => {
            let found = Expected::Old(journal.version());
            read_on(rt, &mut journal, bytes, into);
            let left = journal.close().into_bytes();
            expected == found && left.slice() == bytes
        }
        Err((disk, refusal)) => {
            let left = disk.into_bytes();
            expected == Expected::Refused(refusal) && left.slice() == bytes
        }
    }
}

/// Whether the disk of these bytes opens as is expected.
fn opens_as<R: Abort>(
    rt: &R,
    disk: MemoryDisk,
    bytes: &[u8],
    expected: Expected,
    into: &mut Buffer,
) -> bool
    requires { 65535 ≤ into.old.capacity }
{
    match Journal::open(disk, &DIGEST) {
        Ok(mut journal) => {
            if expected == Expected::New {
                return journal.next(into) == NextRecord::Finish;
            }
            let found = Expected::Old(journal.version());
            read_on(rt, &mut journal, bytes, into);
            expected == found
        }
        Err((_disk, refusal)) => expected == Expected::Refused(refusal),
    }
}

/// Appends the two records to a new journal.
fn append_two<R: Abort>(rt: &R, journal: &mut Journal<MemoryDisk>, into: &mut Buffer)
    requires { 65535 ≤ into.old.capacity }
    ensures { into.new.capacity ≡ into.old.capacity }
{
    assert_eq!(rt; journal.version(), 3);
    assert!(rt; journal.next(into) == NextRecord::Finish);
    assert!(rt; journal.ready().is_ok());
    assert!(rt; journal.append(&ATTACH) == Appended::Done);
    assert!(rt; journal.append(&SUBMIT) == Appended::Done);
    assert_eq!(rt; journal.log(), 52);
}

/// Makes a journal with the two records, whose disk has these bytes then.
fn make_journal<R: Abort>(
    rt: &R,
    alloc: Global,
    wanted: &[u8],
    into: &mut Buffer,
) -> Result<(), Fail>
    requires { 65535 ≤ into.old.capacity }
    ensures { into.new.capacity ≡ into.old.capacity }
{
    let Ok(mut journal) = Journal::open(disk_of(alloc, &[])?, &DIGEST) else {
        return Err(Fail::new("a new journal"));
    };
    append_two(rt, &mut journal, into);
    let bytes = journal.close().into_bytes();
    assert!(rt; bytes.slice() == wanted);
    Ok(())
}

/// Reads the two records.
fn read_two<R: Abort>(rt: &R, journal: &mut Journal<MemoryDisk>, into: &mut Buffer)
    requires { 65535 ≤ into.old.capacity }
    ensures { into.new.capacity ≡ into.old.capacity }
{
    assert!(rt; journal.next(into) == NextRecord::Bytes { place: 41 });
    assert!(rt; into.bytes() == ATTACH.as_slice());
    assert!(rt; journal.next(into) == NextRecord::Bytes { place: 57 });
    assert!(rt; into.bytes() == SUBMIT.as_slice());
    assert!(rt; journal.next(into) == NextRecord::Finish);
    assert!(rt; journal.ready().is_ok());
}

/// Appends the longest record and one more behind a place, where the log begins.
fn append_longest<R: Abort>(rt: &R, journal: &mut Journal<MemoryDisk>, longest: &[u8]) {
    assert_eq!(rt; longest.len(), 65_535);
    assert!(rt; journal.append(longest) == Appended::Done);
    assert!(rt; journal.append(&ATTACH) == Appended::Done);
    assert_eq!(rt; journal.log(), 65_556);
}

/// Reads the two records of a journal of these bytes and goes on in another disk behind two bytes, with the longest record and
/// one more. The first disk is as it was; the bytes of the other.
fn go_on<R: Abort>(
    rt: &R,
    alloc: Global,
    wanted: &[u8],
    into: &mut Buffer,
) -> Result<Items<u8>, Fail>
    requires { 65535 ≤ into.old.capacity }
    ensures { into.new.capacity ≡ into.old.capacity }
{
    let longest = vec![in alloc; 5u8; 65_535]?;
    let mut other = disk_of(alloc, &[9, 9, 0])?;
    let Ok(mut journal) = Journal::open(disk_of(alloc, wanted)?, &DIGEST) else {
        return Err(Fail::new("an old journal"));
    };
    read_two(rt, &mut journal, into);
    journal.go_on_in(&mut other, 2);
    append_longest(rt, &mut journal, &longest);
    let second = journal.close().into_bytes();
    let first = other.into_bytes();
    assert!(rt; first.slice() == wanted);
    Ok(second)
}

/// Reads the longest record and one more behind a front of two bytes.
fn read_longest<R: Abort>(rt: &R, journal: &mut Journal<MemoryDisk>, into: &mut Buffer)
    requires { 65535 ≤ into.old.capacity }
{
    assert!(rt; journal.next(into) == NextRecord::Bytes { place: 2 });
    assert_eq!(rt; into.bytes().len(), 65_535);
    assert!(rt; into.bytes().iter().all(|byte| *byte == 5));
    assert!(rt; journal.next(into) == NextRecord::Bytes { place: 65_542 });
    assert!(rt; journal.next(into) == NextRecord::Finish);
}

/// Opens the journal of these bytes behind a front of two bytes, and reads it.
fn open_behind<R: Abort>(rt: &R, alloc: Global, bytes: &[u8], into: &mut Buffer) -> Result<(), Fail>
    requires { 65535 ≤ into.old.capacity }
{
    assert_eq!(rt; bytes.len(), 65_559);
    match Journal::open_after(disk_of(alloc, bytes)?, 2) {
        Ok(mut last) => {
            read_longest(rt, &mut last, into);
            Ok(())
        }
        Err(_refused) => Err(Fail::new("a journal behind two bytes")),
    }
}

/// Appends to a journal that begins in a disk with one byte in front.
fn begin<R: Abort>(rt: &R, alloc: Global) -> Result<(), Fail> {
    let mut fresh = Journal::fresh(disk_of(alloc, &[9, 0])?, 1);
    let appended = fresh.append(&ATTACH);
    let log = fresh.log();
    assert!(rt; appended == Appended::Done && log == 16);
    Ok(())
}

#[test]
fn journal_has_the_bytes_of_its_format(rt: HostRuntime) -> Result<(), Fail> {
    let alloc = rt.alloc();
    let mut into = Buffer::new(alloc, 65_536)?;
    let wanted = journal(alloc, 3, &DIGEST, &LOG)?;
    assert_eq!(rt; wanted.len(), 94);
    make_journal(&rt, alloc, &wanted, &mut into)?;
    let other = go_on(&rt, alloc, &wanted, &mut into)?;
    open_behind(&rt, alloc, other.slice(), &mut into)?;
    begin(&rt, alloc)
}

/// A journal cut to each length, and with each of its bytes changed.
fn compare_changed<R: Abort>(rt: &R, alloc: Global, whole: &[u8]) -> Result<(), NoMemory> {
    for size in 0..=whole.len() {
        compare(rt, alloc, &whole[..size])?;
    }
    for place in 0..whole.len() {
        for value in [0, 1, 255, 255 - whole[place]] {
            let mut changed = whole.to_vec(alloc)?;
            if place < changed.len() {
                changed[place] = value;
            }
            compare(rt, alloc, &changed)?;
        }
    }
    Ok(())
}

/// Fresh journals, whose first byte may be any, of a version that is known and of one that is not.
fn compare_fresh<R: Abort>(rt: &R, alloc: Global, version: u8) -> Result<(), NoMemory> {
    for first in [0, 1, 66, 255] {
        for version in [version, 4] {
            let mut fresh = journal(alloc, version, &DIGEST, &[0])?;
            if !fresh.is_empty() {
                fresh[0] = first;
            }
            compare(rt, alloc, &fresh)?;
        }
    }
    Ok(())
}

/// A length of 65,536, and one of 255, with enough bytes behind it.
fn compare_long<R: Abort>(rt: &R, alloc: Global, version: u8) -> Result<(), NoMemory> {
    let mut long = journal(alloc, version, &DIGEST, &[1, 0, 1, 0, 0])?;
    long.resize(65_700, 0)?;
    compare(rt, alloc, &long)?;
    if long.len() > 45 {
        long[43] = 0;
        long[45] = 255;
    }
    compare(rt, alloc, &long)
}

/// Journals of this version: one that is cut and changed, fresh ones, long ones, and one whose record has no bytes, also with
/// another catalogue and with a version that is not known.
fn compare_version<R: Abort>(rt: &R, alloc: Global, version: u8) -> Result<(), NoMemory> {
    compare_changed(rt, alloc, &journal(alloc, version, &DIGEST, &LOG)?)?;
    compare_fresh(rt, alloc, version)?;
    compare_long(rt, alloc, version)?;
    for (version, digest) in [(version, &DIGEST), (version, &OTHER), (4, &OTHER)] {
        let bytes = journal(alloc, version, digest, &[1, 0, 0, 0, 0, 0])?;
        compare(rt, alloc, &bytes)?;
    }
    Ok(())
}

#[test]
fn any_bytes_are_read_as_expected(rt: HostRuntime) -> Result<(), Fail> {
    for version in [1, 2, 3] {
        compare_version(&rt, rt.alloc(), version)?;
    }
    Ok(())
}
