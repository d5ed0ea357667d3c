//! What a disk of this machine reads ahead, and what it may not give of that any more.

use crate::calls::{put, shorten};
use crate::real::{Folder, disk};
use boss_adapters::RealDisk;
use boss_disk::Disk;
use std::process::Abort;

/// How many bytes are read ahead.
const BLOCK: usize = 65_536;

/// Whether a disk gives this byte at this place.
fn has_byte(disk: &mut RealDisk, at: u64, byte: u8) -> bool {
    let mut found = [0];
    disk.read_at(at, &mut found).is_ok() && found[0] == byte
}

/// Whether a disk of this name, which has read ahead, gives what it writes since, and nothing of what it cuts.
fn gives_its_own(rt: &impl Abort, host: HostRuntime, name: &str) -> bool {
    let mut disk = disk(rt, host, name);
    put(rt, &mut disk, 0, b"abcd");
    let read = has_byte(&mut disk, 0, b'a');
    put(rt, &mut disk, 1, b"B");
    let written = has_byte(&mut disk, 1, b'B');
    shorten(rt, &mut disk, 2);
    let cut = !has_byte(&mut disk, 2, b'c') && matches!(disk.length(), Ok(2));
    put(rt, &mut disk, 2, b"C");
    read && written && cut && has_byte(&mut disk, 2, b'C')
}

#[test]
fn what_a_disk_writes_and_cuts_is_not_what_it_read_ahead(rt: HostRuntime) {
    let folder = Folder::make(&rt, rt, "own");
    let name = folder.path_of(&rt, "log");
    assert!(rt; gives_its_own(&rt, rt, name.as_str()));
    folder.remove(&rt);
}

/// Whether a disk that only looks at this writer's file, and has read ahead, gives what is written meanwhile behind the end of that, at
/// its end and in front of it, and nothing of what is cut.
fn gives_theirs(rt: &impl Abort, host: HostRuntime, name: &str, mut writer: RealDisk) -> bool {
    put(rt, &mut writer, 0, b"abcd");
    let mut looker = disk(rt, host, name);
    let read = has_byte(&mut looker, 0, b'a');
    put(rt, &mut writer, 4, b"e");
    let grown = matches!(looker.length(), Ok(5)) && has_byte(&mut looker, 4, b'e');
    put(rt, &mut writer, 0, b"A");
    let changed = has_byte(&mut looker, 0, b'A');
    shorten(rt, &mut writer, 2);
    let cut = matches!(looker.length(), Ok(2)) && !has_byte(&mut looker, 2, b'c');
    read && grown && changed && cut
}

#[test]
fn a_file_is_looked_at_while_another_disk_writes_it(rt: HostRuntime) {
    let folder = Folder::make(&rt, rt, "looked");
    let name = folder.path_of(&rt, "log");
    let writer = disk(&rt, rt, name.as_str());
    assert!(rt; gives_theirs(&rt, rt, name.as_str(), writer));
    folder.remove(&rt);
}

/// Whether a disk of this name, which has read ahead, gives what another wrote since, once it has the file for itself.
fn takes_it_as_it_is(rt: &impl Abort, host: HostRuntime, name: &str, mut writer: RealDisk) -> bool {
    put(rt, &mut writer, 0, b"abcd");
    let mut next = disk(rt, host, name);
    let read = has_byte(&mut next, 0, b'a');
    put(rt, &mut writer, 1, b"B");
    leave(writer);
    next.sync().expect(rt, "a sync");
    read && has_byte(&mut next, 1, b'B')
}

/// The disk goes, and its lock with it.
fn leave(_disk: RealDisk) {}

#[test]
fn a_file_that_was_looked_at_is_taken_as_it_is(rt: HostRuntime) {
    let folder = Folder::make(&rt, rt, "taken");
    let name = folder.path_of(&rt, "log");
    let writer = disk(&rt, rt, name.as_str());
    assert!(rt; takes_it_as_it_is(&rt, rt, name.as_str(), writer));
    folder.remove(&rt);
}

/// Whether four bytes that stand on both sides of a block's end are read.
fn reads_across(rt: &impl Abort, host: HostRuntime, name: &str) -> bool {
    let mut disk = disk(rt, host, name);
    fill_front(rt, host, &mut disk);
    put(rt, &mut disk, BLOCK as u64 - 2, b"abcd");
    has_byte(&mut disk, 0, b'x') && has_four(&mut disk, BLOCK as u64 - 2, *b"abcd")
}

/// Writes a block but for its last two bytes.
fn fill_front(rt: &impl Abort, host: HostRuntime, disk: &mut RealDisk) {
    let mut front = Vec::new(host.alloc());
    front.resize(BLOCK - 2, b'x').expect(rt, "memory");
    put(rt, disk, 0, &front);
}

/// Whether a disk gives these bytes at this place.
fn has_four(disk: &mut RealDisk, at: u64, bytes: [u8; 4]) -> bool {
    let mut found = [0; 4];
    disk.read_at(at, &mut found).is_ok() && found == bytes
}

#[test]
fn bytes_are_read_across_the_end_of_a_block(rt: HostRuntime) {
    let folder = Folder::make(&rt, rt, "across");
    let name = folder.path_of(&rt, "log");
    assert!(rt; reads_across(&rt, rt, name.as_str()));
    folder.remove(&rt);
}
