ghost use Rattle.std.specs.Prelude.{◌≡◌, ◌≤◌, true, false};
ghost use Rattle.boss_model.specs.Limits.{last_moment};
ghost use Rattle.boss_model.specs.Seen.{seen};
ghost use Rattle.boss_model.specs.Sound.{IsSoundPersistent, Rising};
ghost use Rattle.boss_model.specs.State.{lease_slot, pending_slot};
ghost use Rattle.boss_state_check.specs.Searches.{kept_rank};
ghost use Rattle.boss_state_check.specs.Whole.{numbers_pass, orders_pass, slots_pass, records_pass, done_passes, processes_pass, all_pass};

use crate::done::{are_distinct, are_recorded, are_settled};
use crate::leases::{are_alone, are_leases, are_pending};
use crate::processes::{are_processes, have_own_names};
use crate::records::are_transactions;
use crate::searches::{leases_rise, pending_rise, transactions_rise};
use crate::telling::{leases_are_told, pending_are_told};
use boss_model::{Actuator, DONE_KEPT, Kept, LAST_MOMENT, LAST_NUMBER, MOST_PROCESSES};

/// Whether these lists are a sound state over the points of this plant. It takes no memory, and time that grows with the
/// lists and their logarithms: what is looked up is found by halves, in lists that were found to rise before.
pub fn is_sound(plant: &[Actuator], kept: &Kept) -> bool
    ensures sound { result ≡ true → IsSoundPersistent plant.now (seen kept.entry.now) }
    ensures unsound { result ≡ false → ¬ IsSoundPersistent plant.now (seen kept.entry.now) }
{
    all_pass(plant, kept)
}

/// Whether each of the tests passes.
fn all_pass(plant: &[Actuator], kept: &Kept) -> bool
    ensures { result ≡ all_pass plant.now kept.entry.now }
{
    if !numbers_pass(kept) {
        return false;
    }
    if !orders_pass(kept) {
        return false;
    }
    slots_pass(plant, kept)
        && records_pass(plant, kept)
        && done_passes(kept)
        && processes_pass(plant, kept)
}

/// Whether the moment and the next number are within their limits.
fn numbers_pass(kept: &Kept) -> bool
    ensures { result ≡ numbers_pass kept.entry.now }
{
    kept.now <= LAST_MOMENT && 1 <= kept.next.0 && kept.next.0 <= LAST_NUMBER
}

/// Whether leases and reversions stand in the order of their slots, and records in that of their numbers.
fn orders_pass(kept: &Kept) -> bool
    ensures { result ≡ orders_pass kept.entry.now }
{
    leases_rise(kept.leases.slice())
        && pending_rise(kept.pending.slice())
        && transactions_rise(kept.txns.slice())
}

/// Whether each lease and each reversion may be there, and no slot has both.
fn slots_pass(plant: &[Actuator], kept: &Kept) -> bool
    requires now { kept.now.now ≤ last_moment }
    requires leases { Rising lease_slot kept.now.leases }
    ensures { result ≡ slots_pass plant.now kept.entry.now }
{
    are_leases(plant, kept.now, kept.leases.slice())
        && are_pending(plant, kept.now, kept.pending.slice())
        && are_alone(kept.leases.slice(), kept.pending.slice())
}

/// Whether each record may be there, and each lease and each reversion is in the record of its transaction.
fn records_pass(plant: &[Actuator], kept: &Kept) -> bool
    requires leases { Rising lease_slot kept.now.leases }
    requires txns { Rising kept_rank kept.now.txns }
    ensures { result ≡ records_pass plant.now kept.entry.now }
{
    are_transactions(plant, kept)
        && leases_are_told(kept.txns.slice(), kept.leases.slice())
        && pending_are_told(kept.txns.slice(), kept.pending.slice())
}

/// Whether the done ones are those that have nothing left, each once, and not too many.
fn done_passes(kept: &Kept) -> bool
    requires pending { Rising pending_slot kept.now.pending }
    requires txns { Rising kept_rank kept.now.txns }
    ensures { result ≡ done_passes kept.entry.now }
{
    let done = kept.done.slice();
    done.len() <= DONE_KEPT
        && are_distinct(done)
        && are_recorded(kept.txns.slice(), done)
        && are_settled(kept.pending.slice(), done, kept.txns.slice())
}

/// Whether each process may be there, each name once, and not too many.
fn processes_pass(plant: &[Actuator], kept: &Kept) -> bool
    ensures { result ≡ processes_pass plant.now kept.entry.now }
{
    let processes = kept.processes.slice();
    processes.len() <= MOST_PROCESSES
        && have_own_names(processes)
        && are_processes(plant.len(), kept.now, processes)
}
