ghost use Rattle.std.specs.Prelude.{◌≡◌, true};
ghost use Rattle.def_bytes.specs.States.{state};
ghost use Rattle.boss_model.specs.Seen.{seen};

use crate::bytes::{
    DIGEST, LARGE, LARGE_SUMS, LARGE_TOLD, MANY_SUMS, SMALL, SMALL_SUMS, Sums, joined, leases,
    state_disk, summed_disk,
};
use crate::disks::{disk_of, spelled};
use crate::texts::told;
use boss_disk::MemoryDisk;
use boss_model::Kept;
use boss_snapshot::{kind, read_state, write_state};
use def_log::DiskKind;
use std::alloc::Global;
use std::process::Abort;

/// Whether a disk reads as the state of this text, of generation 3 with five events before it and a gate at this place.
fn reads_as(
    rt: &impl Abort,
    alloc: Global,
    disk: &mut MemoryDisk,
    wanted: &str,
    place: u64,
) -> bool {
    let Ok(DiskKind::State { generation }) = kind(disk) else {
        return false;
    };
    match read_state(alloc, disk, &DIGEST) {
        Ok((kept, events, gate)) => {
            let same = told(rt, alloc, &kept).as_str() == wanted;
            same && generation == 3 && events == 5 && gate == place
        }
        Err(_refusal) => false,
    }
}

/// Writes a state as generation 3, with five events before it, over what a disk holds. Whether it tells this place of its first
/// gate.
fn is_written(disk: &mut MemoryDisk, kept: &Kept, place: u64) -> bool
    requires { (state 2).fits (seen kept.now) ≡ true }
{
    write_state(kept, disk, &DIGEST, 3, 5).unwrap_or(0) == place
}

/// Whether the state that these bytes spell is written over what a disk holds, and tells this place of its first gate.
fn is_spelled_and_written(alloc: Global, disk: &mut MemoryDisk, bytes: &[u8], place: u64) -> bool {
    match spelled(alloc, bytes) {
        Some(kept) => is_written(disk, &kept, place),
        None => false,
    }
}

/// Writes the state that these bytes spell over others. Whether it is read as the state of this text then, and the disk has the
/// bytes of its format.
fn is_written_over(
    rt: &impl Abort,
    alloc: Global,
    held: &[u8],
    bytes: &[u8],
    wanted: &str,
    sums: &Sums,
    place: u64,
) -> bool {
    let mut disk = disk_of(rt, alloc, held);
    let written = is_spelled_and_written(alloc, &mut disk, bytes, place)
        && reads_as(rt, alloc, &mut disk, wanted, place);
    let whole = summed_disk(rt, alloc, 3, 5, bytes, sums);
    written && disk.into_bytes().slice() == whole.as_slice()
}

/// The state that these bytes spell, as a text; an empty one where they spell none.
fn meant(rt: &impl Abort, alloc: Global, bytes: &[u8]) -> String {
    match spelled(alloc, bytes) {
        Some(kept) => told(rt, alloc, &kept),
        None => String::new(alloc),
    }
}

/// Whether the state that these bytes spell is read again as it was written over an empty disk.
fn is_kept(rt: &impl Abort, alloc: Global, bytes: &[u8], sums: &Sums, place: u64) -> bool {
    let wanted = meant(rt, alloc, bytes);
    is_written_over(rt, alloc, &[], bytes, wanted.as_str(), sums, place)
}

/// How many leases the state has that these bytes spell.
fn leases_in(alloc: Global, bytes: &[u8]) -> usize {
    match spelled(alloc, bytes) {
        Some(kept) => kept.leases.slice().len(),
        None => 0,
    }
}

#[test]
fn state_has_the_bytes_of_its_format(rt: HostRuntime) {
    let alloc = rt.alloc();
    assert!(&rt; is_kept(&rt, alloc, SMALL, SMALL_SUMS, 177));
    // More than is gathered for one write.
    let many = leases(&rt, alloc, 250);
    assert!(&rt; is_kept(&rt, alloc, &many, MANY_SUMS, 8_363));
    assert_eq!(&rt; leases_in(alloc, &many), 250);
}

/// Writes the state of the 371 bytes over nothing, over an older state that is longer, and over bytes that nothing is known of.
#[test]
fn state_is_read_as_it_was_written(rt: HostRuntime) {
    let alloc = rt.alloc();
    let bytes = joined(&rt, alloc, LARGE);
    assert_eq!(&rt; meant(&rt, alloc, &bytes).as_str(), LARGE_TOLD);
    assert!(&rt; is_written_over(&rt, alloc, &[], &bytes, LARGE_TOLD, LARGE_SUMS, 452));
    let older = state_disk(&rt, alloc, 2, 0, &leases(&rt, alloc, 20));
    assert!(&rt; is_written_over(&rt, alloc, &older, &bytes, LARGE_TOLD, LARGE_SUMS, 452));
    assert!(&rt; is_written_over(&rt, alloc, &[0, 9, 9], &bytes, LARGE_TOLD, LARGE_SUMS, 452));
}

/// The disk of the small state in version 1, which has no byte 30.
fn older_disk(rt: &impl Abort, alloc: Global) -> MemoryDisk {
    let bytes = joined(rt, alloc, &[&SMALL[..30], &SMALL[31..]]);
    let mut whole = state_disk(rt, alloc, 3, 5, &bytes);
    if whole.len() > 8 {
        whole[8] = 1;
    }
    disk_of(rt, alloc, &whole)
}

#[test]
fn state_of_version_2_is_read(rt: HostRuntime) {
    let alloc = rt.alloc();
    let wanted = meant(&rt, alloc, SMALL);
    let mut disk = disk_of(&rt, alloc, &state_disk(&rt, alloc, 3, 5, SMALL));
    assert!(&rt; reads_as(&rt, alloc, &mut disk, wanted.as_str(), 161));
}

#[test]
fn state_of_version_1_is_read(rt: HostRuntime) {
    let alloc = rt.alloc();
    let wanted = meant(&rt, alloc, SMALL);
    assert!(&rt; !wanted.is_empty());
    let mut disk = older_disk(&rt, alloc);
    assert!(&rt; reads_as(&rt, alloc, &mut disk, wanted.as_str(), 160));
}
