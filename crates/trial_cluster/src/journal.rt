//! A journal over a cluster in memory: each record is one commit.

ghost use Rattle.std.specs.Prelude.{◌≤◌};

use crate::disk::disk_over;
use boss_cluster::{ClusterDisk, MemoryCluster};
use boss_journal::{Appended, Journal, NextRecord};
use boss_model::Buffer;
use std::alloc::Global;
use std::process::Abort;
use std::test::Fail;

/// The digest of a catalogue.
const DIGEST: [u8; 32] = [7; 32];

/// The commits that make a new journal: one of the first sync, and three of its front.
const MAKING: u64 = 4;

/// Makes a journal on an empty cluster and appends two records, up to the first fault: how many were appended, and what the cluster holds
/// then. The commit of this number is not answered.
fn run(alloc: Global, fails: u64, lands: bool) -> Result<(u64, Vec<u8>), Fail> {
    let disk = disk_over(alloc, &[], &[fails], lands)?;
    let Ok(mut journal) = Journal::open(disk, &DIGEST) else {
        return Err(Fail::new("a journal that opens"));
    };
    if journal.ready().is_err() {
        return Err(Fail::new("a journal that is ready"));
    }
    let mut appended: u64 = 0;
    if journal.append(b"one") == Appended::Done {
        appended = 1;
        if journal.append(b"two") == Appended::Done {
            appended = 2;
        }
    }
    Ok((appended, journal.close().close().into_contents()))
}

/// How many records of these two a cluster with these bytes has.
fn records<R: Abort>(rt: &R, alloc: Global, held: &[u8]) -> Result<u64, Fail> {
    if held.len() > 1_000 {
        return Err(Fail::new("a short journal"));
    }
    let mut into = Buffer::new(alloc, 65_536)?;
    let Ok(mut journal) = Journal::open(disk_over(alloc, held, &[], false)?, &DIGEST) else {
        return Err(Fail::new("a journal that opens again"));
    };
    Ok(count(rt, &mut journal, &mut into))
}

/// Reads what is left of the two records; how many there are.
fn count<R: Abort>(
    rt: &R,
    journal: &mut Journal<ClusterDisk<MemoryCluster>>,
    into: &mut Buffer,
) -> u64
    requires { 65535 ≤ into.old.capacity }
{
    if journal.next(into) == NextRecord::Finish {
        return 0;
    }
    assert!(rt; into.bytes() == b"one".as_slice());
    if journal.next(into) == NextRecord::Finish {
        return 1;
    }
    assert!(rt; into.bytes() == b"two".as_slice());
    2
}

#[test]
fn a_record_is_one_commit(rt: HostRuntime) -> Result<(), Fail> {
    for (fails, lands, told, kept) in [
        (MAKING + 1, false, 0, 0),
        (MAKING + 1, true, 0, 1),
        (MAKING + 2, false, 1, 1),
        (MAKING + 2, true, 1, 2),
        (MAKING + 3, false, 2, 2),
    ] {
        let (appended, held) = run(rt.alloc(), fails, lands)?;
        assert_eq!(rt; appended, told, "commit {fails}");
        let left = records(&rt, rt.alloc(), held.as_slice())?;
        assert_eq!(rt; left, kept, "commit {fails}");
    }
    Ok(())
}
