ghost use Rattle.std.specs.Prelude.{◌≡◌, false, List, length};
ghost use Rattle.boss_durable.specs.Words.{keeps, lasting, leaves};
ghost use Rattle.boss_model.specs.Catalogue.{actuators};
ghost use Rattle.boss_model.specs.declared.event.Event.{Event};
ghost use Rattle.boss_disk_pair.specs.Causes.{first_disk, second_disk};
ghost use Rattle.boss_disk.specs.Legs.{Legs, LeaveBoth};
ghost use Rattle.boss_disk_pair.specs.Rests.{counted, stories};
ghost use Rattle.boss_pair_find.specs.Two.{two};
ghost use Rattle.boss_opening.specs.Opens.{digest_of};
ghost use Rattle.boss_adopting.specs.Counts.{removed};
ghost use Rattle.boss_journal_lines.specs.Adoption.{adopted_line};
ghost use Rattle.boss_jobs.specs.Journals.{on_disks};
ghost use Rattle.boss_adopt_jobs.specs.Adoptions.{AdoptsOver, ComesTo, OpensToEither};
ghost use Rattle.boss_adopt_jobs.specs.Openings.{OpensToAdopt};

use crate::saying::say_fault;
use boss_adopting::{added_points, removed_points};
use boss_changing::adopt;
use boss_disk::Disk;
use boss_durable::Durable;
use boss_jobs::{Status, say, say_journal};
use boss_journal_lines::{adopted_line, new_line};
use boss_model::{LOG_LIMIT, NoMemory};
use boss_opening::{Checked, check, open};
use boss_outside::Sink;
use boss_points::Catalogue;
use std::alloc::Global;

/// Takes over, under the new catalogue, what a journal on two disks stands for under the old one, and tells what came of it as one
/// line. The disks come back. A pair that is new is not written.
pub fn adopt_on_disks<D: Disk, K: Sink>(
    alloc: Global,
    old: &Catalogue,
    new: &Catalogue,
    first: D,
    second: D,
    sink: &mut K,
) -> ((D, D), Status)
    ensures { AdoptsOver K.Sink old.now new.now (on_disks D.Disk (first, second)) (on_disks D.Disk result.0) sink.old sink.new result.1.0 }
{
    // A check writes nothing, so that a new pair stays as it is.
    let (disks, found) = check(alloc, old, first, second);
    match found {
        Ok(Checked::New) => {
            let status = say(sink, new_line(), Status::DONE);
            (disks, status)
        }
        Ok(Checked::Found { .. }) => {
            let (first, second) = disks;
            open_and_adopt(alloc, old, new, first, second, sink)
        }
        Err(refusal) => {
            let status = say_journal(alloc, sink, &refusal);
            (disks, status)
        }
    }
}

/// The same of a pair that is not new.
fn open_and_adopt<D: Disk, K: Sink>(
    alloc: Global,
    old: &Catalogue,
    new: &Catalogue,
    first: D,
    second: D,
    sink: &mut K,
) -> ((D, D), Status)
    ensures { OpensToAdopt K.Sink old.now new.now (on_disks D.Disk (first, second)) (on_disks D.Disk result.0) sink.old sink.new result.1.0 }
{
    match open(alloc, old, first, second, LOG_LIMIT) {
        Ok(durable) => adopt_opened(alloc, old, new, durable, sink),
        Err((disks, refusal)) => {
            let status = say_journal(alloc, sink, &refusal);
            (disks, status)
        }
    }
}

/// The same of a journal that was opened. The line is made first, so that no memory is wanted once the adopted state is written.
fn adopt_opened<D: Disk, K: Sink>(
    alloc: Global,
    old: &Catalogue,
    new: &Catalogue,
    durable: Durable<D>,
    sink: &mut K,
) -> ((D, D), Status)
    requires plant { durable.engine.plant ≡ actuators old.now }
    requires digest { durable.disks.digest ≡ digest_of old.now }
    requires going { durable.disks.stopped ≡ false }
    requires keeps { (any : List Event) → counted (length any) ≡ durable.disks.events → keeps durable any }
    requires leaves { leaves durable (lasting durable) (lasting durable) }
    ensures comes { ComesTo K.Sink old.now new.now (lasting durable) durable.disks.events
        (on_disks D.Disk (first_disk durable.disks, second_disk durable.disks)) (on_disks D.Disk result.0) sink.old sink.new result.1.0 }
    ensures moves { D.tells → Legs (LeaveBoth (OpensToEither old.now new.now (lasting durable)))
        (stories durable.disks) (two (D.story result.0.0) (D.story result.0.1)) }
{
    let removed = removed_points(old, new);
    let added = added_points(old, new);
    match adopted_line(alloc, durable.events(), new.count(), removed, added) {
        Ok(line) => adopt_and_say(alloc, old, new, durable, &line, sink),
        Err(NoMemory) => (durable.close(), Status::NO_MEMORY),
    }
}

/// The same, with the line that tells of an adoption.
fn adopt_and_say<D: Disk, K: Sink>(
    alloc: Global,
    old: &Catalogue,
    new: &Catalogue,
    durable: Durable<D>,
    line: &[u8],
    sink: &mut K,
) -> ((D, D), Status)
    requires plant { durable.engine.plant ≡ actuators old.now }
    requires digest { durable.disks.digest ≡ digest_of old.now }
    requires going { durable.disks.stopped ≡ false }
    requires keeps { (any : List Event) → counted (length any) ≡ durable.disks.events → keeps durable any }
    requires leaves { leaves durable (lasting durable) (lasting durable) }
    requires line { line.now ≡ adopted_line durable.disks.events (length new.now.points) (length (removed old.now new.now)) (length (removed new.now old.now)) }
    ensures comes { ComesTo K.Sink old.now new.now (lasting durable) durable.disks.events
        (on_disks D.Disk (first_disk durable.disks, second_disk durable.disks)) (on_disks D.Disk result.0) sink.old sink.new result.1.0 }
    ensures moves { D.tells → Legs (LeaveBoth (OpensToEither old.now new.now (lasting durable)))
        (stories durable.disks) (two (D.story result.0.0) (D.story result.0.1)) }
{
    match adopt(alloc, durable, old, new) {
        Ok(durable) => {
            let status = say(sink, line, Status::DONE);
            (durable.close(), status)
        }
        Err((durable, fault)) => {
            let status = say_fault(alloc, sink, &fault);
            (durable.close(), status)
        }
    }
}
