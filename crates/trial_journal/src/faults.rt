ghost use Rattle.std.specs.Prelude.{◌≤◌};

use crate::bytes::{ATTACH, DIGEST, LOG, SUBMIT, disk_of, failing_disk, journal};
use boss_disk::MemoryDisk;
use boss_journal::{Appended, Journal, Looked, NextRecord, OpenRefusal};
use boss_model::{Buffer, NoMemory};
use std::alloc::Global;
use std::process::Abort;
use std::test::Fail;

/// The calls of the disk that make a new journal: a sync, its length, and three times a write with a sync.
const MAKING: u64 = 8;

/// The calls of a look at the last gate before the first append.
const READY: u64 = 1;

/// The calls of an append to a disk that a crash may tear.
const APPEND: u64 = 4;

/// The calls of an append to a disk that writes a record whole.
const WHOLE_APPEND: u64 = 1;

/// How far a run came.
#[derive(Clone, Copy)]
struct Came {
    opened: bool,
    ready: bool,
    appended: u64,
}

/// Appends two records, up to the first answer that tells a fault; how many were appended.
fn append_both<R: Abort>(rt: &R, journal: &mut Journal<MemoryDisk>, ready: bool) -> u64 {
    let mut appended: u64 = 0;
    let mut stopped = !ready;
    for second in [false, true] {
        let told = if second {
            journal.append(&SUBMIT)
        } else {
            journal.append(&ATTACH)
        };
        match told {
            Appended::Done => {
                assert!(rt; !stopped);
                appended = appended.saturating_add(1);
            }
            Appended::DiskFault => {
                assert!(rt; !stopped);
                stopped = true;
            }
            Appended::Stopped => assert!(rt; stopped),
        }
    }
    appended
}

/// Makes a journal and appends two records, up to the first answer that tells a fault, and notes how far that came. The disk
/// afterwards.
fn run<R: Abort>(rt: &R, disk: MemoryDisk, came: &mut Came) -> MemoryDisk {
    match Journal::open(disk, &DIGEST) {
        Ok(mut journal) => {
            let ready = journal.ready().is_ok();
            *came = Came {
                opened: true,
                ready,
                appended: append_both(rt, &mut journal, ready),
            };
            journal.close()
        }
        Err((disk, refusal)) => {
            assert!(rt; refusal == OpenRefusal::DiskFault);
            disk
        }
    }
}

/// How far a run has come that has not begun.
const NOWHERE: Came = Came {
    opened: false,
    ready: false,
    appended: 0,
};

/// Reads what is left of the two records, each as it was appended; how many there are.
fn count<R: Abort>(rt: &R, journal: &mut Journal<MemoryDisk>, into: &mut Buffer) -> u64
    requires { 65535 ≤ into.old.capacity }
{
    let first = journal.next(into);
    if first == NextRecord::Finish {
        return 0;
    }
    assert!(rt; first == NextRecord::Bytes { place: 41 });
    assert!(rt; into.bytes() == ATTACH.as_slice());
    let second = journal.next(into);
    if second == NextRecord::Finish {
        return 1;
    }
    assert!(rt; second == NextRecord::Bytes { place: 57 });
    assert!(rt; into.bytes() == SUBMIT.as_slice());
    assert!(rt; journal.next(into) == NextRecord::Finish);
    2
}

/// How many records a disk has when it is opened again, each as it was appended.
fn records<R: Abort>(rt: &R, alloc: Global, disk: MemoryDisk) -> Result<u64, Fail> {
    let mut into = Buffer::new(alloc, 65_536)?;
    match Journal::open(disk, &DIGEST) {
        Ok(mut journal) => Ok(count(rt, &mut journal, &mut into)),
        Err(_refused) => Err(Fail::new("a journal that opens")),
    }
}

/// Reads up to what is no record, which is a fault of the disk and stops the journal; how many records there were.
fn read_to_fault<R: Abort>(rt: &R, journal: &mut Journal<MemoryDisk>, into: &mut Buffer) -> u64
    requires { 65535 ≤ into.old.capacity }
{
    let first = journal.next(into);
    let second = journal.next(into);
    let third = journal.next(into);
    let (told, records) = match (first, second) {
        (NextRecord::Bytes { .. }, NextRecord::Bytes { .. }) => (third, 2),
        (NextRecord::Bytes { .. }, other) => (other, 1),
        (other, _) => (other, 0),
    };
    assert!(rt; told == NextRecord::DiskFault);
    assert!(rt; journal.append(&ATTACH) == Appended::Stopped);
    records
}

/// Looks at a journal whose disk fails at the call of this number, and reads up to the fault, the only one of the disk; how many
/// records there were.
fn records_to_fault<R: Abort>(rt: &R, alloc: Global, bytes: &[u8], call: u64) -> Result<u64, Fail> {
    let mut into = Buffer::new(alloc, 65_536)?;
    match Journal::look(failing_disk(alloc, bytes, call)?, &DIGEST) {
        Ok(Looked::Old(mut journal)) => {
            let records = read_to_fault(rt, &mut journal, &mut into);
            let faults = journal.close().faults();
            assert_eq!(rt; faults, 1);
            Ok(records)
        }
        _ => Err(Fail::new("an old journal")),
    }
}

/// Whether a run over a disk whose call of this number fails has the fault of the disk, and came as far as that lets it, where an append
/// takes so many calls, 1 to 4.
fn fails_at(call: u64, append: u64, came: Came, faults: u64) -> bool
    requires some { 1 ≤ append }
    requires few { append ≤ 4 }
{
    let calls = MAKING + READY + 2 * append;
    let whole = call.saturating_sub(MAKING + READY + 1) / append;
    faults == (call <= calls) as u64
        && came.opened == (call > MAKING)
        && came.ready == (call > MAKING + READY)
        && came.appended == whole.min(2)
}

/// Makes and fills journals over disks of which each call fails in turn, and none.
fn fail_each_write<R: Abort>(rt: &R, alloc: Global) -> Result<(), NoMemory> {
    for call in 1..=MAKING + READY + 2 * APPEND + 1 {
        let mut came = NOWHERE;
        let faults = run(rt, failing_disk(alloc, &[], call)?, &mut came).faults();
        assert!(rt; fails_at(call, APPEND, came, faults), "call {call}");
    }
    Ok(())
}

#[test]
fn each_call_of_the_disk_may_fail(rt: HostRuntime) -> Result<(), Fail> {
    let alloc = rt.alloc();
    fail_each_write(&rt, alloc)?;
    // A look takes the length and the first bytes; a record takes the length, its heading and its bytes; the end takes the
    // length and the heading.
    let bytes = journal(alloc, 2, &DIGEST, &LOG)?;
    for (call, told) in [
        (3, 0),
        (4, 0),
        (5, 0),
        (6, 1),
        (7, 1),
        (8, 1),
        (9, 2),
        (10, 2),
    ] {
        let records = records_to_fault(&rt, alloc, &bytes, call)?;
        assert_eq!(rt; records, told, "call {call}");
    }
    Ok(())
}

/// Whether no record that was appended before a stop after so many calls is missing in this image of the disk.
fn keeps_what_was_appended<R: Abort>(
    rt: &R,
    alloc: Global,
    stop: u64,
    pick: u64,
) -> Result<bool, Fail> {
    let mut disk = disk_of(alloc, &[])?;
    disk.stop_after(stop);
    let mut came = NOWHERE;
    let image = run(rt, disk, &mut came).image(alloc, pick)?;
    Ok(came.appended <= records(rt, alloc, image)?)
}

#[test]
fn each_call_of_the_disk_may_be_the_last(rt: HostRuntime) -> Result<(), Fail> {
    for stop in 0..=MAKING + READY + 2 * APPEND {
        for pick in [0, 1, 2, 5] {
            let kept = keeps_what_was_appended(&rt, rt.alloc(), stop, pick)?;
            assert!(rt; kept, "stop {stop} pick {pick}");
        }
    }
    Ok(())
}

/// A disk without bytes that writes bytes whole, of which the call of this number fails.
fn whole_disk(alloc: Global, call: u64) -> Result<MemoryDisk, NoMemory> {
    let mut disk = failing_disk(alloc, &[], call)?;
    disk.make_whole();
    Ok(disk)
}

/// Makes and fills journals over disks that write bytes whole, of which each call fails in turn, and none.
fn fail_each_whole_write<R: Abort>(rt: &R, alloc: Global) -> Result<(), NoMemory> {
    for call in 1..=MAKING + READY + 2 * WHOLE_APPEND + 1 {
        let mut came = NOWHERE;
        let faults = run(rt, whole_disk(alloc, call)?, &mut came).faults();
        assert!(rt; fails_at(call, WHOLE_APPEND, came, faults), "call {call}");
    }
    Ok(())
}

#[test]
fn a_record_is_one_call_of_a_disk_that_writes_it_whole(rt: HostRuntime) -> Result<(), Fail> {
    let alloc = rt.alloc();
    fail_each_whole_write(&rt, alloc)?;
    let mut came = NOWHERE;
    let whole = run(&rt, whole_disk(alloc, 0)?, &mut came).into_bytes();
    assert_eq!(rt; came.appended, 2);
    let torn = run(&rt, disk_of(alloc, &[])?, &mut came).into_bytes();
    assert!(rt; whole.slice() == torn.slice());
    assert!(rt; whole.slice() == journal(alloc, 3, &DIGEST, &LOG)?.as_slice());
    Ok(())
}

/// Whether an image of such a disk that stopped after so many calls has the records that were appended before, and no other.
fn has_what_was_appended<R: Abort>(
    rt: &R,
    alloc: Global,
    stop: u64,
    pick: u64,
) -> Result<bool, Fail> {
    let mut disk = whole_disk(alloc, 0)?;
    disk.stop_after(stop);
    let mut came = NOWHERE;
    let image = run(rt, disk, &mut came).image(alloc, pick)?;
    Ok(came.appended == records(rt, alloc, image)?)
}

#[test]
fn a_record_that_is_written_whole_is_there_or_not(rt: HostRuntime) -> Result<(), Fail> {
    for stop in 0..=MAKING + READY + 2 * WHOLE_APPEND {
        for pick in [0, 1, 2, 5] {
            let same = has_what_was_appended(&rt, rt.alloc(), stop, pick)?;
            assert!(rt; same, "stop {stop} pick {pick}");
        }
    }
    Ok(())
}
