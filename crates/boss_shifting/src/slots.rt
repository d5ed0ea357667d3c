//! Leases that end earlier, and reversions that started earlier.

ghost use Rattle.std.specs.Prelude.{◌≡◌, map};
ghost use Rattle.law_shift.specs.Shifted.{shifted_lease, shifted_pending};

use boss_model::{Items, Lease, Pending};

/// These leases, ending as much earlier.
pub(crate) fn shifted_leases(leases: Items<Lease>, by: u64) -> Items<Lease>
    ensures { result ≡ map (shifted_lease by) leases }
{
    let mut leases = leases.into_vec();
    shift_leases(leases.as_mut_slice(), by);
    Items::from_vec(leases)
}

fn shift_leases(leases: &mut [Lease], by: u64)
    ensures { leases.new ≡ map (shifted_lease by) leases.old }
{
    for lease in leases.iter_mut() {
        shift_lease(lease, by);
    }
}

fn shift_lease(lease: &mut Lease, by: u64)
    ensures { lease.new ≡ shifted_lease by lease.old }
{
    lease.until = lease.until.saturating_sub(by);
}

/// These reversions, started as much earlier.
pub(crate) fn shifted_pending(pending: Items<Pending>, by: u64) -> Items<Pending>
    ensures { result ≡ map (shifted_pending by) pending }
{
    let mut pending = pending.into_vec();
    shift_pending(pending.as_mut_slice(), by);
    Items::from_vec(pending)
}

fn shift_pending(pending: &mut [Pending], by: u64)
    ensures { pending.new ≡ map (shifted_pending by) pending.old }
{
    for reversion in pending.iter_mut() {
        shift_reversion(reversion, by);
    }
}

fn shift_reversion(reversion: &mut Pending, by: u64)
    ensures { reversion.new ≡ shifted_pending by reversion.old }
{
    reversion.start = reversion.start.saturating_sub(by);
}
