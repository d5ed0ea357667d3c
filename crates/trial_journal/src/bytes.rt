ghost use Rattle.std.specs.Prelude.{◌≡◌, IfOk};
ghost use Rattle.boss_disk.specs.Record.{state_of};

use boss_disk::MemoryDisk;
use boss_model::{Items, NoMemory};
use std::alloc::{AllocError, Global};

/// The digest of the catalogue.
pub const DIGEST: [u8; 32] = [7; 32];

/// The digest of another.
pub const OTHER: [u8; 32] = [8; 32];

/// Process `a` attaches at 0.
pub const ATTACH: [u8; 11] = [1, 0, 0, 0, 0, 0, 0, 0, 0, 1, b'a'];

/// Process 0 submits at 1000: point 0, value 45000, priority 8, for 60000.
pub const SUBMIT: [u8; 31] = [
    2, 0, 0, 0, 0, 0, 0, 0x03, 0xe8, 0, 0, 0, 1, 0, 0, 0, 0, 0, 0, 0, 0, 0, 0, 0xaf, 0xc8, 8, 0, 0,
    0xea, 0x60, 0,
];

/// What stands from byte 41 on in the journal of these two: an open gate and a length of 11 at 41, the first at 46, an open
/// gate and a length of 31 at 57, the second at 62, and a shut gate at 93.
pub const LOG: [u8; 53] = [
    1, 0, 0, 0, 0x0b, 1, 0, 0, 0, 0, 0, 0, 0, 0, 1, 0x61, 1, 0, 0, 0, 0x1f, 2, 0, 0, 0, 0, 0, 0,
    0x03, 0xe8, 0, 0, 0, 1, 0, 0, 0, 0, 0, 0, 0, 0, 0, 0, 0xaf, 0xc8, 8, 0, 0, 0xea, 0x60, 0, 0,
];

/// A journal of this version, with these bytes from its first gate on.
pub fn journal(
    alloc: Global,
    version: u8,
    digest: &[u8; 32],
    log: &[u8],
) -> Result<Vec<u8>, AllocError> {
    let mut bytes = b"BOSSJRNL".to_vec(alloc)?;
    bytes.push(version)?;
    bytes.extend_from_slice(digest)?;
    bytes.extend_from_slice(log)?;
    Ok(bytes)
}

/// A disk of these bytes, of which the call of this number fails.
pub fn failing_disk(alloc: Global, bytes: &[u8], call: u64) -> Result<MemoryDisk, NoMemory>
    ensures { IfOk result (λ disk. (state_of disk).bytes ≡ bytes.now) }
{
    let mut fails = Items::new(alloc);
    fails.try_push(call)?;
    MemoryDisk::new(alloc, Items::from_vec(bytes.to_vec(alloc)?), fails)
}

/// A disk of these bytes, none of whose calls fails.
pub fn disk_of(alloc: Global, bytes: &[u8]) -> Result<MemoryDisk, NoMemory>
    ensures { IfOk result (λ disk. (state_of disk).bytes ≡ bytes.now) }
{
    failing_disk(alloc, bytes, 0)
}
