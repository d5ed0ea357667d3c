ghost use Rattle.boss_jobs.specs.Journals.{on_disks};
ghost use Rattle.boss_standby_jobs.specs.Feeds.{FeedsOver};

use crate::saying::say_fed;
use boss_disk::Disk;
use boss_feeding::feed;
use boss_jobs::Status;
use boss_outside::Sink;
use boss_points::Catalogue;
use std::alloc::Global;

/// Tells what a journal on two disks stands for as a feed: the events with a number above `from`, and before them the state that they
/// stand on, where its own number is above `from` too. The disks come back as they were: nothing is written, cut or synced.
pub fn feed_on_disks<D: Disk, K: Sink>(
    alloc: Global,
    catalogue: &Catalogue,
    first: D,
    second: D,
    from: u64,
    sink: &mut K,
) -> ((D, D), Status)
    ensures { FeedsOver K.Sink catalogue.now from (on_disks D.Disk (first, second)) (on_disks D.Disk result.0) sink.old sink.new result.1.0 }
{
    let (disks, fed) = feed(alloc, catalogue, first, second, from, sink);
    (disks, say_fed(alloc, sink, fed))
}
