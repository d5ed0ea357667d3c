//! Files in memory.

ghost use Rattle.std.specs.Prelude.{◌≡◌};
ghost use Rattle.boss_files.specs.Shelf.{have_distinct_names};

use crate::calls::{EDITED, call, edit_file, is_edited};
use boss_files::{FileBytes, FileFault, Files, MemoryFiles};
use boss_model::Items;
use std::alloc::Global;
use std::process::Abort;

fn bytes(rt: &impl Abort, alloc: Global, text: &str) -> Items<u8>
    ensures { result ≡ text.now }
{
    Items::from_vec(text.as_bytes().to_vec(alloc).expect(rt, "memory"))
}

/// An empty file, and one of three bytes. The call with this number fails.
fn two_files(rt: &impl Abort, alloc: Global, fails: u64) -> MemoryFiles {
    let empty = (bytes(rt, alloc, "empty"), bytes(rt, alloc, ""));
    let three = (bytes(rt, alloc, "a"), bytes(rt, alloc, "one"));
    let mut files = Items::new(alloc);
    files.try_push(empty).expect(rt, "memory");
    files.try_push(three).expect(rt, "memory");
    MemoryFiles::new(alloc, files, call(rt, alloc, fails)).expect(rt, "memory")
}

/// What was read: the length of the whole file, or that of one which is longer than the limit.
pub fn length_within<F: Files>(
    files: &mut F,
    alloc: Global,
    name: &str,
    limit: u64,
) -> Result<Result<u64, u64>, FileFault> {
    Ok(match files.read(alloc, name, limit)? {
        FileBytes::Whole(bytes) => Ok(bytes.slice().len() as u64),
        FileBytes::Longer { length } => Err(length),
    })
}

/// Whether the file `a` has its three bytes.
fn has_one(alloc: Global, files: &mut MemoryFiles) -> bool {
    match files.read(alloc, "a", 3) {
        Ok(FileBytes::Whole(found)) => found.slice() == b"one".as_slice(),
        _ => false,
    }
}

/// Whether a second call fails, and later ones give what is under their names.
fn give_lengths(alloc: Global, files: &mut MemoryFiles) -> bool {
    matches!(length_within(files, alloc, "a", 3), Err(FileFault::Failed))
        && matches!(length_within(files, alloc, "a", 3), Ok(Ok(3)))
        && matches!(length_within(files, alloc, "a", 2), Ok(Err(3)))
        && matches!(length_within(files, alloc, "empty", 0), Ok(Ok(0)))
        && matches!(length_within(files, alloc, "b", 3), Err(FileFault::Failed))
}

#[test]
fn files_give_what_is_under_their_names(rt: HostRuntime) {
    let alloc = rt.alloc();
    let mut files = two_files(&rt, alloc, 2);
    assert!(rt; has_one(alloc, &mut files) && give_lengths(alloc, &mut files));
}

/// Whether these bytes are under a name, and no others.
fn has_bytes(files: &MemoryFiles, name: &str, bytes: &[u8]) -> bool {
    match files.bytes_under(name) {
        Some(found) => found == bytes,
        None => false,
    }
}

/// Whether an edited file `b` is beside `a`, and no file `c`.
fn keep_edited(files: &MemoryFiles) -> bool {
    has_bytes(files, "b", EDITED)
        && has_bytes(files, "a", b"one")
        && files.bytes_under("c").is_none()
}

/// Whether the third call is asked for `a`, and fails.
fn fail_at_third(alloc: Global, files: &mut MemoryFiles) -> bool {
    matches!(files.disk(alloc, "a"), Err(FileFault::Failed)) && files.asked().len() == 3
}

#[test]
fn a_file_is_kept_as_it_was_given_back(rt: HostRuntime) {
    let alloc = rt.alloc();
    let mut files = two_files(&rt, alloc, 3);
    let edited = edit_file(&rt, alloc, &mut files, "b");
    assert!(rt; is_edited(&edited) && keep_edited(&files));
    assert!(rt; fail_at_third(alloc, &mut files));
}
