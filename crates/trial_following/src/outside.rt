// A journal in memory that follows a feed.
ghost use Rattle.std.specs.Prelude.{◌≡◌};
ghost use Rattle.boss_model.specs.Catalogue.{actuators};

use boss_disk::MemoryDisk;
use boss_durable::Durable;
use boss_following::{FollowEnd, follow};
use boss_model::{Items, LOG_LIMIT};
use boss_opening::open;
use boss_outside::BytesSource;
use boss_points::Catalogue;
use std::alloc::Global;
use std::process::Abort;
use trial_parts::THREE_POINTS;

/// The two disks of a journal.
pub type Pair = (MemoryDisk, MemoryDisk);

/// The damper, the lamp and the fan, on one driver.
pub fn three_points(rt: &impl Abort, alloc: Global) -> Catalogue {
    Catalogue::read(alloc, THREE_POINTS.as_bytes()).expect(rt, "a catalogue")
}

/// A disk without bytes, none of whose calls fails.
pub fn empty_disk(rt: &impl Abort, alloc: Global) -> MemoryDisk {
    MemoryDisk::new(alloc, Items::new(alloc), Items::new(alloc)).expect(rt, "memory")
}

/// A new journal.
pub fn new_journal(rt: &impl Abort, alloc: Global, catalogue: &Catalogue) -> Durable<MemoryDisk>
    ensures { result.engine.plant ≡ actuators catalogue.now }
{
    let disks = (empty_disk(rt, alloc), empty_disk(rt, alloc));
    reopened(rt, alloc, catalogue, disks)
}

/// The journal of two disks, which have to open.
pub fn reopened(
    rt: &impl Abort,
    alloc: Global,
    catalogue: &Catalogue,
    disks: Pair,
) -> Durable<MemoryDisk>
    ensures { result.engine.plant ≡ actuators catalogue.now }
{
    let (first, second) = disks;
    match open(alloc, catalogue, first, second, LOG_LIMIT) {
        Ok(durable) => durable,
        Err(_) => rt.panic("a journal"),
    }
}

/// Follows these bytes, and tells how that ended.
pub fn follow_bytes(
    rt: &impl Abort,
    alloc: Global,
    catalogue: &Catalogue,
    durable: &mut Durable<MemoryDisk>,
    bytes: &[u8],
) -> FollowEnd
    requires { durable.old.engine.plant ≡ actuators catalogue.now }
    ensures { durable.new.engine.plant ≡ durable.old.engine.plant }
{
    let bytes = Items::from_vec(bytes.to_vec(alloc).expect(rt, "memory"));
    let mut source = BytesSource::new(alloc, bytes, Items::new(alloc)).expect(rt, "memory");
    follow(alloc, catalogue, durable, &mut source)
}

/// How many events a journal has, the moment of the last, and how many leases are live.
pub fn summary(durable: &Durable<MemoryDisk>) -> (u64, u64, u64) {
    (durable.events(), durable.now(), durable.leases())
}
