ghost use Rattle.std.specs.Prelude.{◌≡◌, true, IfSome};
ghost use Rattle.def_bytes.specs.States.{state};
ghost use Rattle.boss_model.specs.Seen.{seen};

use boss_disk::MemoryDisk;
use boss_model::{Items, Kept, NoMemory};
use boss_snapshot::read_kept;
use std::alloc::Global;
use std::process::Abort;

/// A disk of these bytes, of which the call of this number fails.
pub fn failing_disk(rt: &impl Abort, alloc: Global, bytes: &[u8], call: u64) -> MemoryDisk {
    let mut fails = Items::new(alloc);
    fails.try_push(call).expect(rt, "memory");
    let bytes = Items::from_vec(bytes.to_vec(alloc).expect(rt, "memory"));
    MemoryDisk::new(alloc, bytes, fails).expect(rt, "memory")
}

/// A disk of these bytes, none of whose calls fails.
pub fn disk_of(rt: &impl Abort, alloc: Global, bytes: &[u8]) -> MemoryDisk {
    failing_disk(rt, alloc, bytes, 0)
}

/// The state that these bytes spell in version 2; none where they spell none, or no memory is left.
pub fn spelled(alloc: Global, bytes: &[u8]) -> Option<Kept>
    ensures { IfSome result (λ kept. (state 2).fits (seen kept) ≡ true) }
{
    match read_kept(alloc, 2, bytes) {
        Ok(kept) => kept,
        Err(NoMemory) => None,
    }
}
