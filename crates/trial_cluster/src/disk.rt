//! A disk over a cluster in memory.

ghost use Rattle.std.specs.Prelude.{◌≤◌, ◌^◌, length};

use boss_cluster::{ClusterDisk, MemoryCluster};
use boss_disk::Disk;
use boss_model::{Items, NoMemory};
use boss_outside::Failed;
use std::alloc::Global;
use std::process::Abort;
use std::test::Fail;

/// A disk over a cluster that holds these bytes. The commits with these numbers are not answered; `lands` tells whether they are done.
pub fn disk_over(
    alloc: Global,
    bytes: &[u8],
    fails: &[u64],
    lands: bool,
) -> Result<ClusterDisk<MemoryCluster>, NoMemory>
    requires { length bytes.now ≤ 2 ^ 62 }
{
    let found = Items::from_vec(bytes.to_vec(alloc)?);
    let fails = Items::from_vec(fails.to_vec(alloc)?);
    let cluster = MemoryCluster::new(alloc, found, fails, lands)?;
    Ok(ClusterDisk::new(cluster, bytes.to_vec(alloc)?))
}

/// Writes these bytes to an empty cluster in one sync, whose commits with these numbers are not answered, and gives what the cluster holds
/// then. Where one was not answered, the disk is stopped.
fn written(
    rt: &impl Abort,
    alloc: Global,
    bytes: &[u8],
    fails: &[u64],
    lands: bool,
) -> Result<Vec<u8>, NoMemory> {
    let mut disk = disk_over(alloc, &[], fails, lands)?;
    assert!(rt; disk.write_at(0, bytes).is_ok());
    let synced = disk.sync().is_ok();
    assert_eq!(rt; synced, fails.is_empty());
    assert_eq!(rt; disk.write_at(0, b"more").is_ok(), synced);
    Ok(disk.close().into_contents())
}

#[test]
fn a_sync_commits_what_was_written(rt: HostRuntime) -> Result<(), Fail> {
    let held = written(&rt, rt.alloc(), b"hello", &[], false)?;
    assert_eq!(rt; held.as_slice(), b"hello".as_slice());
    Ok(())
}

#[test]
fn a_commit_that_is_not_answered_is_done_or_not(rt: HostRuntime) -> Result<(), Fail> {
    let held = written(&rt, rt.alloc(), b"hello", &[1], false)?;
    assert!(rt; held.is_empty());
    let held = written(&rt, rt.alloc(), b"hello", &[1], true)?;
    assert_eq!(rt; held.as_slice(), b"hello".as_slice());
    Ok(())
}

#[test]
fn a_large_write_takes_several_commits(rt: HostRuntime) -> Result<(), Fail> {
    let bytes = [7; 70_000];
    let held = written(&rt, rt.alloc(), &bytes, &[], false)?;
    assert_eq!(rt; held.len(), 70_000);
    let held = written(&rt, rt.alloc(), &bytes, &[2], false)?;
    assert_eq!(rt; held.len(), 65_536);
    Ok(())
}

/// Puts these bytes over those of a cluster that holds `hello`, whole, by a commit that is not answered where it says so, and gives what the
/// cluster holds then. Where it was not answered, each later call fails.
fn written_whole(
    rt: &impl Abort,
    alloc: Global,
    bytes: &[u8],
    fails: &[u64],
    lands: bool,
) -> Result<Vec<u8>, NoMemory> {
    let mut disk = disk_over(alloc, b"hello", fails, lands)?;
    let written = disk.write_whole(0, bytes);
    assert!(rt;
        written
            == if fails.is_empty() {
                Ok(true)
            } else {
                Err(Failed)
            }
    );
    assert_eq!(rt; disk.length().is_ok(), fails.is_empty());
    assert_eq!(rt; disk.write_at(0, b"more").is_ok(), fails.is_empty());
    Ok(disk.close().into_contents())
}

#[test]
fn a_whole_write_is_one_commit(rt: HostRuntime) -> Result<(), Fail> {
    let held = written_whole(&rt, rt.alloc(), b"jelly, ", &[], false)?;
    assert_eq!(rt; held.as_slice(), b"jelly, ".as_slice());
    let held = written_whole(&rt, rt.alloc(), b"j", &[1], false)?;
    assert_eq!(rt; held.as_slice(), b"hello".as_slice());
    let held = written_whole(&rt, rt.alloc(), b"j", &[1], true)?;
    assert_eq!(rt; held.as_slice(), b"jello".as_slice());
    Ok(())
}

/// Writes bytes behind those of a cluster that holds `hello`, whole; whether it did that, and how many bytes the cluster holds then.
fn added_whole(alloc: Global, bytes: &[u8]) -> Result<(bool, usize), Fail> {
    let mut disk = disk_over(alloc, b"hello", &[], false)?;
    let Ok(end) = disk.length() else {
        return Err(Fail::new("a length"));
    };
    let Ok(done) = disk.write_whole(end, bytes) else {
        return Err(Fail::new("a write that does not fail"));
    };
    Ok((done, disk.close().into_contents().len()))
}

#[test]
fn a_whole_write_has_room_in_one_commit(rt: HostRuntime) -> Result<(), Fail> {
    let bytes = [7; 63_489];
    let most = added_whole(rt.alloc(), &bytes[1..])?;
    assert!(rt; most == (true, 63_493));
    let more = added_whole(rt.alloc(), &bytes)?;
    assert!(rt; more == (false, 5));
    Ok(())
}
