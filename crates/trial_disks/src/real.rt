//! Files of this machine, in a folder that each test makes.

use crate::calls::{EDITED, edit_file, is_edited, put, shorten, whole};
use crate::files::length_within;
use boss_adapters::{RealDisk, RealFiles};
use boss_disk::{Disk, MOST};
use boss_files::{FileFault, Files};
use std::process::{self, Abort};
use std::{env, fs};

/// A folder of a test's own, which goes when the test has passed.
#[derive(Drop)]
pub struct Folder {
    host: HostRuntime,
    path: String,
}

impl Folder {
    pub fn make(rt: &impl Abort, host: HostRuntime, test: &str) -> Folder {
        let path = path_for(rt, host, test);
        fs::create_dir(&host, path.as_str()).expect(rt, "a folder");
        Folder { host, path }
    }

    /// The path of a name in it.
    pub fn path_of(&self, rt: &impl Abort, name: &str) -> String {
        format!(in self.host.alloc(); "{}/{name}", self.path).expect(rt, "memory")
    }

    pub fn remove(self, rt: &impl Abort) {
        fs::remove_dir_all(&self.host, self.path.as_str()).expect(rt, "a folder that goes");
    }
}

/// The path of a test's folder, which no other run has.
fn path_for(rt: &impl Abort, host: HostRuntime, test: &str) -> String {
    let above = env::temp_dir(&host).expect(rt, "a folder for what is temporary");
    let number = process::id(host.process());
    let path = format!(in host.alloc(); "{}/disks-{test}-{number}", above.display());
    path.expect(rt, "memory")
}

/// The file of this name, as a disk.
pub fn disk(rt: &impl Abort, host: HostRuntime, name: &str) -> RealDisk {
    RealDisk::open(host, host.alloc(), name).expect(rt, "a disk")
}

/// A disk that no write has made yet: it is empty, a cut and a sync leave it so, and a read past its end is its only fault.
fn is_idle(rt: &impl Abort, host: HostRuntime, disk: &mut RealDisk) -> bool {
    let bytes = whole(rt, host.alloc(), disk);
    shorten(rt, disk, 0);
    disk.sync().expect(rt, "a sync");
    bytes.is_empty() && disk.read_at(0, &mut [0]).is_err() && disk.faults() == 1
}

fn is_there(rt: &impl Abort, host: HostRuntime, name: &str) -> bool {
    fs::exists(&host, name).expect(rt, "whether it is there")
}

/// Whether the file of this name is made by the first write of its disk, and not before.
fn is_made_by_write(rt: &impl Abort, host: HostRuntime, name: &str) -> bool {
    let mut looked_at = disk(rt, host, name);
    let idle = is_idle(rt, host, &mut looked_at) && !is_there(rt, host, name);
    put(rt, &mut looked_at, 0, b"ab");
    let written = has_bytes(rt, host, name, b"ab");
    looked_at.sync().expect(rt, "a sync");
    idle && written
}

/// Whether the file of this name has these bytes.
fn has_bytes(rt: &impl Abort, host: HostRuntime, name: &str, bytes: &[u8]) -> bool {
    let found = fs::read(&host, name).expect(rt, "a file");
    found.as_slice() == bytes
}

#[test]
fn a_file_is_made_by_its_first_write(rt: HostRuntime) {
    let folder = Folder::make(&rt, rt, "made");
    let name = folder.path_of(&rt, "log");
    assert!(rt; is_made_by_write(&rt, rt, name.as_str()));
    folder.remove(&rt);
}

/// Whether a file of this name is kept as it was edited, and read within its length but not within one byte less.
fn is_kept(rt: &impl Abort, host: HostRuntime, name: &str) -> bool {
    let mut files = RealFiles::new(host);
    let kept = edit_file(rt, host.alloc(), &mut files, name);
    is_edited(&kept) && has_bytes(rt, host, name, EDITED) && is_read_within(host, &mut files, name)
}

/// Whether the file of this name is read within eight bytes, and not within seven.
fn is_read_within(host: HostRuntime, files: &mut RealFiles, name: &str) -> bool {
    matches!(length_within(files, host.alloc(), name, 8), Ok(Ok(8)))
        && matches!(length_within(files, host.alloc(), name, 7), Ok(Err(8)))
}

#[test]
fn a_file_is_kept_as_it_was_given_back(rt: HostRuntime) {
    let folder = Folder::make(&rt, rt, "kept");
    let name = folder.path_of(&rt, "log");
    assert!(rt; is_kept(&rt, rt, name.as_str()));
    folder.remove(&rt);
}

/// Whether no disk and no bytes are had under names that are none of files: this path of a folder, one with a NUL, and others.
fn are_refused(host: HostRuntime, path: &str, nul: &str) -> bool {
    let mut files = RealFiles::new(host);
    has_no_disk(host, &mut files, path)
        && has_no_disk(host, &mut files, "/dev/null")
        && has_no_disk(host, &mut files, "/dev/full")
        && has_no_disk(host, &mut files, nul)
        && has_no_bytes(host, &mut files, path)
        && has_no_bytes(host, &mut files, "")
        && has_no_bytes(host, &mut files, nul)
}

/// Whether no disk is had under this name.
fn has_no_disk(host: HostRuntime, files: &mut RealFiles, name: &str) -> bool {
    matches!(files.disk(host.alloc(), name), Err(FileFault::Failed))
}

/// Whether no bytes are had under this name.
fn has_no_bytes(host: HostRuntime, files: &mut RealFiles, name: &str) -> bool {
    matches!(
        length_within(files, host.alloc(), name, 9),
        Err(FileFault::Failed)
    )
}

#[test]
fn what_is_no_file_is_refused(rt: HostRuntime) {
    let folder = Folder::make(&rt, rt, "refused");
    let nul = folder.path_of(&rt, "a\0b");
    assert!(rt; are_refused(rt, folder.path.as_str(), nul.as_str()));
    folder.remove(&rt);
}

/// Whether a disk of this name fails at its first write, its only fault, and stays empty.
fn fails_at_once(rt: &impl Abort, host: HostRuntime, name: &str) -> bool {
    let mut disk = disk(rt, host, name);
    let failed = disk.write_at(0, b"a").is_err();
    failed && matches!(disk.length(), Ok(0)) && disk.faults() == 1
}

/// Whether that holds of each of these names.
fn all_fail_at_once(rt: &impl Abort, host: HostRuntime, names: &[&str]) -> bool {
    for name in names {
        if !fails_at_once(rt, host, name) {
            return false;
        }
    }
    true
}

#[test]
fn a_name_that_no_file_can_have_fails_at_the_first_write(rt: HostRuntime) {
    let folder = Folder::make(&rt, rt, "nameless");
    let nowhere = folder.path_of(&rt, "missing/log");
    let slash = folder.path_of(&rt, "missing/");
    let names = ["", nowhere.as_str(), slash.as_str(), "/proc/no-such-file"];
    assert!(rt; all_fail_at_once(&rt, rt, &names));
    folder.remove(&rt);
}

/// Whether a disk of this name does not write over the file that another writer has made in between.
fn leaves_theirs(rt: &impl Abort, host: HostRuntime, name: &str) -> bool {
    let mut disk = disk(rt, host, name);
    fs::write(&host, name, "theirs").expect(rt, "a write");
    disk.write_at(0, b"ours").is_err() && has_bytes(rt, host, name, b"theirs")
}

#[test]
fn a_file_that_came_in_between_is_not_written_over(rt: HostRuntime) {
    let folder = Folder::make(&rt, rt, "between");
    let name = folder.path_of(&rt, "log");
    assert!(rt; leaves_theirs(&rt, rt, name.as_str()));
    folder.remove(&rt);
}

/// Writes this disk's file of this name. Whether another disk of it may then read it, and not sync it.
fn keeps_others_out(rt: &impl Abort, host: HostRuntime, name: &str, mut first: RealDisk) -> bool {
    put(rt, &mut first, 0, b"ours");
    let mut other = disk(rt, host, name);
    let bytes = whole(rt, host.alloc(), &mut other);
    bytes.as_slice() == b"ours".as_slice() && other.sync().is_err() && other.faults() == 1
}

#[test]
fn a_file_is_written_by_one_disk_at_a_time(rt: HostRuntime) {
    let folder = Folder::make(&rt, rt, "held");
    let name = folder.path_of(&rt, "log");
    let kept_out = keeps_others_out(&rt, rt, name.as_str(), disk(&rt, rt, name.as_str()));
    // That disk is gone, and its lock with it.
    let mut next = disk(&rt, rt, name.as_str());
    assert!(rt; kept_out && next.sync().is_ok());
    folder.remove(&rt);
}

/// Whether a disk of three bytes refuses what is past its bounds, with a fault each, and no cut makes it longer.
fn keeps_bounds(disk: &mut RealDisk) -> bool {
    // No byte may stand past the greatest length, and a read does not pass the end.
    disk.write_at(MOST, b"d").is_err()
        && disk.write_at(u64::MAX, b"d").is_err()
        && disk.read_at(2, &mut [0; 2]).is_err()
        && disk.read_at(u64::MAX, &mut [0; 1]).is_err()
        && disk.cut(9).is_ok()
        && matches!(disk.length(), Ok(3))
        && disk.faults() == 4
}

/// Whether a disk of this name has its bounds when three bytes are written.
fn has_bounds(rt: &impl Abort, host: HostRuntime, name: &str) -> bool {
    let mut disk = disk(rt, host, name);
    put(rt, &mut disk, 0, b"abc");
    keeps_bounds(&mut disk)
}

#[test]
fn a_file_has_its_bounds(rt: HostRuntime) {
    let folder = Folder::make(&rt, rt, "bounds");
    let name = folder.path_of(&rt, "log");
    assert!(rt; has_bounds(&rt, rt, name.as_str()));
    folder.remove(&rt);
}
