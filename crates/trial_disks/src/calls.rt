//! What the tests ask of any disk and of any files. A call that fails ends the test.

use boss_disk::{Disk, write_through};
use boss_files::Files;
use boss_model::Items;
use boss_outside::Failed;
use std::alloc::Global;
use std::process::Abort;

/// The one call of this number, which fails, or none for 0.
pub fn call(rt: &impl Abort, alloc: Global, number: u64) -> Items<u64> {
    let mut calls = Items::new(alloc);
    calls.try_push(number).expect(rt, "memory");
    calls
}

/// Writes these bytes at this place, which the disk has to reach.
pub fn put<D: Disk>(rt: &impl Abort, disk: &mut D, at: u64, bytes: &[u8]) {
    write_within(disk, at, bytes).expect(rt, "a write");
}

fn write_within<D: Disk>(disk: &mut D, at: u64, bytes: &[u8]) -> Result<(), Failed> {
    if disk.length()? < at {
        return Err(Failed);
    }
    disk.write_at(at, bytes)
}

/// Drops all bytes from this place on, which the disk has to reach.
pub fn shorten<D: Disk>(rt: &impl Abort, disk: &mut D, size: u64) {
    cut_within(disk, size).expect(rt, "a cut");
}

fn cut_within<D: Disk>(disk: &mut D, size: u64) -> Result<(), Failed> {
    if disk.length()? < size {
        return Err(Failed);
    }
    disk.cut(size)
}

/// All bytes of a disk.
pub fn whole<D: Disk>(rt: &impl Abort, alloc: Global, disk: &mut D) -> Vec<u8> {
    let size = disk.length().expect(rt, "a length");
    let mut bytes = Vec::new(alloc);
    bytes.resize(size as usize, 0).expect(rt, "memory");
    disk.read_at(0, &mut bytes).expect(rt, "a read");
    bytes
}

/// Writes an empty disk in five calls and syncs it. It has then eight bytes.
pub fn edit<D: Disk>(rt: &impl Abort, disk: &mut D) {
    put(rt, disk, 0, b"hello");
    put(rt, disk, 5, b" world");
    shorten(rt, disk, 8);
    write_through_within(disk, 2, b"XYZ").expect(rt, "a write through");
}

fn write_through_within<D: Disk>(disk: &mut D, at: u64, bytes: &[u8]) -> Result<(), Failed> {
    if disk.length()? < at {
        return Err(Failed);
    }
    write_through(disk, at, bytes)
}

/// What such a disk reads.
pub const EDITED: &[u8; 8] = b"heXYZ wo";

/// Whether these bytes are those.
pub fn is_edited(bytes: &[u8]) -> bool {
    bytes == EDITED.as_slice()
}

/// Writes a new file like this, and gives it back; and what it reads when it is opened again.
pub fn edit_file<F: Files>(rt: &impl Abort, alloc: Global, files: &mut F, name: &str) -> Vec<u8> {
    let mut store = files.disk(alloc, name).expect(rt, "a file");
    edit(rt, &mut store);
    files.close(name, store);
    read_file(rt, alloc, files, name)
}

/// What a file reads when it is opened. It is given back.
fn read_file<F: Files>(rt: &impl Abort, alloc: Global, files: &mut F, name: &str) -> Vec<u8> {
    let mut store = files.disk(alloc, name).expect(rt, "a file");
    let bytes = whole(rt, alloc, &mut store);
    files.close(name, store);
    bytes
}
