ghost use Rattle.std.specs.Prelude.{◌≡◌, ◌<◌, ◌&&◌, length, fold, vec_capacity};
ghost use Rattle.std.specs.List.{AllByRecursion};
ghost use Rattle.boss_booking.specs.Bookable.{IsBookable, IsInformed};
ghost use Rattle.boss_booking.specs.Books.{after_what, booked, is_end};
ghost use Rattle.boss_booking.specs.Gathered.{booked_all, CanBook, CanTell};
ghost use Rattle.boss_stages.specs.Stages.{is_over, kept_as};

use crate::processes::Processes;
use boss_booking::{Happening, Telling, put_in_order};
use boss_model::What;
use boss_stages::Stages;

/// Books what was gathered, one after another in the order in which it is told: the records are changed, the owners are told,
/// and where the last part of a transaction ended its owner is told that it is done. It takes no memory.
#[inline(always)]
pub fn book_all(stages: &mut Stages, processes: &mut Processes, told: &mut Vec<Telling>)
    requires { IsBookable stages.old processes.old told.old.items }
    ensures books { record { stages = stages.new; processes = processes.new } ≡ booked_all stages.old processes.old told.old.items }
    ensures capacity { vec_capacity told.new ≡ vec_capacity told.old }
{
    if !told.is_empty() {
        book_some(stages, processes, told);
    }
}

/// The same where something was gathered. It stands apart, since mostly nothing was.
#[inline(never)]
fn book_some(stages: &mut Stages, processes: &mut Processes, told: &mut Vec<Telling>)
    requires { IsBookable stages.old processes.old told.old.items }
    ensures books { record { stages = stages.new; processes = processes.new } ≡ booked_all stages.old processes.old told.old.items }
    ensures capacity { vec_capacity told.new ≡ vec_capacity told.old }
{
    put_in_order(told);
    book_in_turn(stages, processes, told);
}

fn book_in_turn(stages: &mut Stages, processes: &mut Processes, told: &[Telling])
    requires can { CanBook (record { stages = stages.old; processes = processes.old }) told.now }
    requires informed { AllByRecursion (IsInformed (length processes.old)) told.now }
    ensures { record { stages = stages.new; processes = processes.new }
        ≡ fold booked (record { stages = stages.old; processes = processes.old }) told.now }
{
    for telling in told {
        book(stages, processes, telling);
    }
}

fn book(stages: &mut Stages, processes: &mut Processes, telling: &Telling)
    requires can { CanTell telling.now.happening.txn telling.now.happening.told stages.old }
    requires owner { telling.now.happening.owner < length processes.old }
    ensures books { record { stages = stages.new; processes = processes.new }
        ≡ booked (record { stages = stages.old; processes = processes.old }) telling.now }
    ensures processes { length processes.new ≡ length processes.old }
{
    let happening = telling.happening;
    let done = record_end(stages, &happening, telling.reverts);
    processes.tell(&happening);
    if done {
        processes.tell(&happening.all_done());
    }
}

/// Notes in the records what ended. The answer is whether a part ended and the transaction is done now.
fn record_end(stages: &mut Stages, happening: &Happening, reverts: bool) -> bool
    requires { CanTell happening.now.txn happening.now.told stages.old }
    ensures records { stages.new ≡ after_what happening.now.txn happening.now.at reverts happening.now.told stages.old }
    ensures done { result ≡ (is_end happening.now.told && is_over (kept_as happening.now.txn stages.new.kept)) }
{
    match happening.what {
        What::Ended { point, cause } => {
            stages.lease_ended(happening.txn, point, cause, happening.at, reverts)
        }
        What::Reverted { point } | What::Cut { point, .. } => {
            stages.reversion_ended(happening.txn, point)
        }
        What::Fault { .. } | What::Done => false,
    }
}
