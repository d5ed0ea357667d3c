// Feeds of pairs of disks in memory.
use crate::bytes::{Held, bytes_of};
use boss_disk::MemoryDisk;
use boss_feeding::{FeedFault, feed};
use boss_model::Items;
use boss_outside::BytesSink;
use boss_points::Catalogue;
use std::alloc::Global;
use std::process::Abort;
use trial_parts::THREE_POINTS;

fn disk(rt: &impl Abort, alloc: Global, bytes: &[u8]) -> MemoryDisk {
    let contents = Items::from_vec(bytes.to_vec(alloc).expect(rt, "memory"));
    MemoryDisk::new(alloc, contents, Items::new(alloc)).expect(rt, "memory")
}

/// What a feed of a pair tells above a number, and how it ends. Both disks come back as they were.
pub fn told(
    rt: &impl Abort,
    alloc: Global,
    pair: (Held, Held),
    from: u64,
) -> (BytesSink, Result<(), FeedFault>) {
    let catalogue = Catalogue::read(alloc, THREE_POINTS.as_bytes()).expect(rt, "a catalogue");
    let mut sink = BytesSink::new(alloc, Items::new(alloc)).expect(rt, "memory");
    let first = bytes_of(rt, alloc, pair.0);
    let second = bytes_of(rt, alloc, pair.1);
    let one = disk(rt, alloc, &first);
    let other = disk(rt, alloc, &second);
    let (disks, ended) = feed(alloc, &catalogue, one, other, from, &mut sink);
    assert!(rt; disks.0.into_bytes().slice() == first.as_slice());
    assert!(rt; disks.1.into_bytes().slice() == second.as_slice());
    (sink, ended)
}
