ghost use Rattle.std.specs.Prelude.{◌≡◌, false, List, length};
ghost use Rattle.boss_disk_pair.specs.Causes.{first_disk, second_disk};
ghost use Rattle.boss_disk.specs.Legs.{Legs, LeaveBoth};
ghost use Rattle.boss_disk_pair.specs.Rests.{counted, stories};
ghost use Rattle.boss_pair_find.specs.Two.{two};
ghost use Rattle.boss_durable.specs.Words.{keeps, lasting};
ghost use Rattle.boss_jobs.specs.Journals.{on_disks};
ghost use Rattle.boss_model.specs.Catalogue.{actuators};
ghost use Rattle.boss_model.specs.declared.event.Event.{Event};
ghost use Rattle.boss_opening.specs.Opens.{digest_of};
ghost use Rattle.boss_standby_jobs.specs.Followings.{Followed, FollowsOver, streams};

use crate::saying::say_end;
use boss_disk::Disk;
use boss_durable::Durable;
use boss_following::follow;
use boss_jobs::{Status, say_journal};
use boss_model::LOG_LIMIT;
use boss_opening::open;
use boss_outside::{Sink, Source};
use boss_points::Catalogue;
use std::alloc::Global;

/// Has a journal on two disks, which come back, follow the feed of a source: the journal is opened, each line is done again in it, and
/// one line tells what it came to.
pub fn standby_on_disks<D: Disk, S: Source, K: Sink>(
    alloc: Global,
    catalogue: &Catalogue,
    first: D,
    second: D,
    source: &mut S,
    sink: &mut K,
) -> ((D, D), Status)
    ensures { FollowsOver S.Source K.Sink catalogue.now (on_disks D.Disk (first, second)) (on_disks D.Disk result.0)
        (streams source.old sink.old) (streams source.new sink.new) result.1.0 }
{
    match open(alloc, catalogue, first, second, LOG_LIMIT) {
        Ok(durable) => follow_opened(alloc, catalogue, durable, source, sink),
        Err((disks, refusal)) => {
            let status = say_journal(alloc, sink, &refusal);
            (disks, status)
        }
    }
}

/// The same of a journal that was opened.
fn follow_opened<D: Disk, S: Source, K: Sink>(
    alloc: Global,
    catalogue: &Catalogue,
    durable: Durable<D>,
    source: &mut S,
    sink: &mut K,
) -> ((D, D), Status)
    requires plant { durable.engine.plant ≡ actuators catalogue.now }
    requires digest { durable.disks.digest ≡ digest_of catalogue.now }
    requires going { durable.disks.stopped ≡ false }
    requires keeps { (any : List Event) → counted (length any) ≡ durable.disks.events → keeps durable any }
    ensures { Followed S.Source K.Sink catalogue.now (lasting durable) durable.disks.events
        (λ Is. D.tells → Legs (LeaveBoth Is) (stories durable.disks) (two (D.story result.0.0) (D.story result.0.1)))
        (on_disks D.Disk (first_disk durable.disks, second_disk durable.disks)) (on_disks D.Disk result.0)
        (streams source.old sink.old) (streams source.new sink.new) result.1.0 }
{
    let mut durable = durable;
    let end = follow(alloc, catalogue, &mut durable, source);
    let status = say_end(alloc, &durable, sink, end);
    (durable.close(), status)
}
