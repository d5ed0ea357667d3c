ghost use Rattle.std.specs.Prelude.{◌≡◌, ◌+◌, ◌≤◌, ◌^◌, false, List, length};
ghost use Rattle.boss_durable.specs.Words.{keeps, lasting, leaves};
ghost use Rattle.boss_model.specs.Catalogue.{actuators};
ghost use Rattle.boss_model.specs.declared.event.Event.{Event};
ghost use Rattle.boss_model.specs.Seen.{seen};
ghost use Rattle.boss_model.specs.Sound.{IsSoundPersistent};
ghost use Rattle.boss_disk_pair.specs.Causes.{first_disk, second_disk};
ghost use Rattle.boss_disk.specs.Legs.{Legs, LeaveBoth};
ghost use Rattle.boss_disk_pair.specs.Images.{OpensTo};
ghost use Rattle.boss_disk_pair.specs.Rests.{counted, stories};
ghost use Rattle.boss_pair_find.specs.Two.{two};
ghost use Rattle.boss_opening.specs.Opens.{digest_of};
ghost use Rattle.boss_jobs.specs.Journals.{on_disks};
ghost use Rattle.law_shift.specs.Shifted.{MayShift, shifted};
ghost use Rattle.boss_shift_jobs.specs.Lines.{shifted_line};
ghost use Rattle.boss_shift_jobs.specs.Openings.{OpensToShift};
ghost use Rattle.boss_shift_jobs.specs.Shifts.{ComesTo, OpensToEither, ShiftsOver};

use crate::lines::shifted_line;
use crate::saying::{say_taken, say_too_far};
use boss_disk::Disk;
use boss_durable::Durable;
use boss_jobs::{Status, say, say_journal};
use boss_journal_lines::new_line;
use boss_model::{Kept, LAST_NUMBER, LOG_LIMIT, NoMemory};
use boss_opening::{Checked, check, open};
use boss_outside::Sink;
use boss_points::Catalogue;
use boss_shifting::{most_shift, shift_state};
use std::alloc::Global;

/// Takes all moments of what a journal on two disks stands for back by so many milliseconds, and tells what came of it as one line. The
/// disks come back. A pair that is new is not written, nor is one whose moments can't be taken back so far.
pub fn shift_on_disks<D: Disk, K: Sink>(
    alloc: Global,
    catalogue: &Catalogue,
    by: u64,
    first: D,
    second: D,
    sink: &mut K,
) -> ((D, D), Status)
    ensures { ShiftsOver K.Sink catalogue.now by (on_disks D.Disk (first, second)) (on_disks D.Disk result.0) sink.old sink.new result.1.0 }
{
    // A check writes nothing, so that a new pair stays as it is.
    let (disks, found) = check(alloc, catalogue, first, second);
    match found {
        Ok(Checked::New) => {
            let status = say(sink, new_line(), Status::DONE);
            (disks, status)
        }
        Ok(Checked::Found { .. }) => {
            let (first, second) = disks;
            open_and_shift(alloc, catalogue, by, first, second, sink)
        }
        Err(refusal) => {
            let status = say_journal(alloc, sink, &refusal);
            (disks, status)
        }
    }
}

/// The same of a pair that is not new.
fn open_and_shift<D: Disk, K: Sink>(
    alloc: Global,
    catalogue: &Catalogue,
    by: u64,
    first: D,
    second: D,
    sink: &mut K,
) -> ((D, D), Status)
    ensures { OpensToShift K.Sink catalogue.now by (on_disks D.Disk (first, second)) (on_disks D.Disk result.0) sink.old sink.new result.1.0 }
{
    match open(alloc, catalogue, first, second, LOG_LIMIT) {
        Ok(durable) => shift_opened(alloc, catalogue, by, durable, sink),
        Err((disks, refusal)) => {
            let status = say_journal(alloc, sink, &refusal);
            (disks, status)
        }
    }
}

/// The same of a journal that was opened.
fn shift_opened<D: Disk, K: Sink>(
    alloc: Global,
    catalogue: &Catalogue,
    by: u64,
    durable: Durable<D>,
    sink: &mut K,
) -> ((D, D), Status)
    requires plant { durable.engine.plant ≡ actuators catalogue.now }
    requires digest { durable.disks.digest ≡ digest_of catalogue.now }
    requires going { durable.disks.stopped ≡ false }
    requires keeps { (any : List Event) → counted (length any) ≡ durable.disks.events → keeps durable any }
    requires leaves { leaves durable (lasting durable) (lasting durable) }
    ensures comes { ComesTo K.Sink catalogue.now by (lasting durable) durable.disks.events
        (on_disks D.Disk (first_disk durable.disks, second_disk durable.disks)) (on_disks D.Disk result.0) sink.old sink.new result.1.0 }
    ensures moves { D.tells → Legs (LeaveBoth (OpensToEither catalogue.now by (lasting durable)))
        (stories durable.disks) (two (D.story result.0.0) (D.story result.0.1)) }
    ensures stays { ¬ MayShift by (lasting durable) → D.tells → Legs (LeaveBoth (OpensTo (actuators catalogue.now) (digest_of catalogue.now) (lasting durable)))
        (stories durable.disks) (two (D.story result.0.0) (D.story result.0.1)) }
{
    match durable.keep() {
        Ok(kept) => shift_kept_state(alloc, catalogue, by, durable, kept, sink),
        Err(NoMemory) => (durable.close(), Status::NO_MEMORY),
    }
}

/// The same, with what lasts of the journal as plain lists.
fn shift_kept_state<D: Disk, K: Sink>(
    alloc: Global,
    catalogue: &Catalogue,
    by: u64,
    durable: Durable<D>,
    kept: Kept,
    sink: &mut K,
) -> ((D, D), Status)
    requires plant { durable.engine.plant ≡ actuators catalogue.now }
    requires digest { durable.disks.digest ≡ digest_of catalogue.now }
    requires going { durable.disks.stopped ≡ false }
    requires keeps { (any : List Event) → counted (length any) ≡ durable.disks.events → keeps durable any }
    requires leaves { leaves durable (lasting durable) (lasting durable) }
    requires kept { seen kept ≡ lasting durable }
    requires sound { IsSoundPersistent durable.engine.plant (lasting durable) }
    ensures comes { ComesTo K.Sink catalogue.now by (lasting durable) durable.disks.events
        (on_disks D.Disk (first_disk durable.disks, second_disk durable.disks)) (on_disks D.Disk result.0) sink.old sink.new result.1.0 }
    ensures moves { D.tells → Legs (LeaveBoth (OpensToEither catalogue.now by (lasting durable)))
        (stories durable.disks) (two (D.story result.0.0) (D.story result.0.1)) }
    ensures stays { ¬ MayShift by (lasting durable) → D.tells → Legs (LeaveBoth (OpensTo (actuators catalogue.now) (digest_of catalogue.now) (lasting durable)))
        (stories durable.disks) (two (D.story result.0.0) (D.story result.0.1)) }
{
    let most = most_shift(&kept);
    if by > most {
        let status = say_too_far(alloc, sink, most);
        return (durable.close(), status);
    }
    shift_within(alloc, catalogue, by, durable, kept, sink)
}

/// The same where the moments can be taken back so far. The line is made first, so that none is wanting once the state is written.
fn shift_within<D: Disk, K: Sink>(
    alloc: Global,
    catalogue: &Catalogue,
    by: u64,
    durable: Durable<D>,
    kept: Kept,
    sink: &mut K,
) -> ((D, D), Status)
    requires plant { durable.engine.plant ≡ actuators catalogue.now }
    requires digest { durable.disks.digest ≡ digest_of catalogue.now }
    requires going { durable.disks.stopped ≡ false }
    requires keeps { (any : List Event) → counted (length any) ≡ durable.disks.events → keeps durable any }
    requires leaves { leaves durable (lasting durable) (lasting durable) }
    requires kept { seen kept ≡ lasting durable }
    requires sound { IsSoundPersistent durable.engine.plant (lasting durable) }
    requires may { MayShift by (lasting durable) }
    ensures comes { ComesTo K.Sink catalogue.now by (lasting durable) durable.disks.events
        (on_disks D.Disk (first_disk durable.disks, second_disk durable.disks)) (on_disks D.Disk result.0) sink.old sink.new result.1.0 }
    ensures moves { D.tells → Legs (LeaveBoth (OpensToEither catalogue.now by (lasting durable)))
        (stories durable.disks) (two (D.story result.0.0) (D.story result.0.1)) }
{
    let events = one_more(durable.events());
    let now = durable.now() - by;
    match shifted_line(alloc, events, now, durable.leases(), durable.pending()) {
        Ok(line) => take_and_say(alloc, catalogue, by, durable, kept, &line, sink),
        Err(NoMemory) => (durable.close(), Status::NO_MEMORY),
    }
}

/// The same, with the line that tells of it. The state counts as one event more, so that who follows the journal by the number of its
/// last event is sent it.
fn take_and_say<D: Disk, K: Sink>(
    alloc: Global,
    catalogue: &Catalogue,
    by: u64,
    durable: Durable<D>,
    kept: Kept,
    line: &[u8],
    sink: &mut K,
) -> ((D, D), Status)
    requires plant { durable.engine.plant ≡ actuators catalogue.now }
    requires digest { durable.disks.digest ≡ digest_of catalogue.now }
    requires going { durable.disks.stopped ≡ false }
    requires keeps { (any : List Event) → counted (length any) ≡ durable.disks.events → keeps durable any }
    requires leaves { leaves durable (lasting durable) (lasting durable) }
    requires kept { seen kept ≡ lasting durable }
    requires sound { IsSoundPersistent durable.engine.plant (lasting durable) }
    requires may { MayShift by (lasting durable) }
    requires line { line.now ≡ shifted_line (counted (durable.disks.events + 1)) (shifted by (lasting durable)) }
    ensures comes { ComesTo K.Sink catalogue.now by (lasting durable) durable.disks.events
        (on_disks D.Disk (first_disk durable.disks, second_disk durable.disks)) (on_disks D.Disk result.0) sink.old sink.new result.1.0 }
    ensures moves { D.tells → Legs (LeaveBoth (OpensToEither catalogue.now by (lasting durable)))
        (stories durable.disks) (two (D.story result.0.0) (D.story result.0.1)) }
{
    let mut durable = durable;
    let events = one_more(durable.events());
    let shifted = shift_state(alloc, kept, by);
    let taken = durable.take_state(catalogue, &shifted, events);
    let status = say_taken(sink, line, taken);
    (durable.close(), status)
}

/// So many events and one, as far as they are counted.
fn one_more(events: u64) -> u64
    requires { events ≤ 2 ^ 62 }
    ensures { result ≡ counted (events + 1) }
{
    LAST_NUMBER.min(events + 1)
}
