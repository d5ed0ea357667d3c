ghost use Rattle.std.specs.Prelude.{◌≡◌, ◌≤◌, Some};
ghost use Rattle.boss_model.specs.Limits.{last_moment};
ghost use Rattle.boss_model.specs.Devices.{doubted, took_at};
ghost use Rattle.boss_model.specs.Settle.{fresh};
ghost use Rattle.boss_marks.specs.Proxy.{recommand, report_of, after_report, is_due};

use boss_model::{Mark, Proxy, RETRY_AFTER, Took};

/// What a report of a device's write comes to.
#[derive(Clone, Copy, Debug, PartialEq, Eq)]
pub enum Reported {
    /// It is of a version that no longer counts, or of a point that is to be written anew.
    Old,
    /// The device took the commanded value.
    Settled,
    /// The device did not take the commanded value, and this version had not failed before.
    FirstFailure,
    /// The device did not take the commanded value again.
    LaterFailure,
}

/// A device that has not been told anything yet, and is to have this value.
pub fn fresh(target: i64) -> Proxy
    ensures { result ≡ fresh target }
{
    Proxy {
        version: 1,
        commanded: target,
        mark: Mark::Pending,
        failed: false,
        retry_at: 0,
        differed: 0,
        took: None,
    }
}

/// The device is to have this value: a new version, which has not failed. Versions count modulo 2^64.
pub fn recommand(proxy: &mut Proxy, target: i64)
    ensures { proxy.new ≡ recommand target proxy.old }
{
    proxy.version = proxy.version.wrapping_add(1);
    proxy.commanded = target;
    proxy.mark = Mark::Pending;
    proxy.failed = false;
}

/// What the device has taken as it takes the commanded value at moment `n`: since before, where it had this value already.
fn took_at(proxy: &Proxy, n: u64) -> Took
    ensures { Some result ≡ took_at n proxy.now proxy.now.took }
{
    match proxy.took {
        Some(took) if took.value == proxy.commanded => took,
        _ => Took {
            value: proxy.commanded,
            since: n,
        },
    }
}

/// What the device says of the present version at moment `n`.
pub fn report(proxy: &mut Proxy, ok: bool, n: u64) -> Reported
    requires { n ≤ last_moment }
    ensures answer { result ≡ report_of ok proxy.old }
    ensures after { proxy.new ≡ after_report ok n proxy.old }
{
    if ok {
        proxy.mark = Mark::Settled;
        proxy.took = Some(took_at(proxy, n));
        return Reported::Settled;
    }
    let answer = match proxy.failed {
        true => Reported::LaterFailure,
        false => Reported::FirstFailure,
    };
    proxy.mark = Mark::Failed;
    proxy.failed = true;
    proxy.retry_at = n + RETRY_AFTER;
    answer
}

/// Whether the device's write failed and is to be tried again at moment `n`.
pub fn is_due(proxy: &Proxy, n: u64) -> bool
    ensures { result ≡ is_due n proxy.now }
{
    proxy.mark == Mark::Failed && proxy.retry_at <= n
}

/// The device is to be written again, with the same version and value: that it fails to take it then concerns no process. Where it was
/// found with another value, that is counted, modulo 2^64.
pub fn doubt(proxy: &mut Proxy, differs: bool)
    ensures { proxy.new ≡ doubted differs (0, proxy.old) }
{
    proxy.mark = Mark::Pending;
    proxy.failed = true;
    if differs {
        proxy.differed = proxy.differed.wrapping_add(1);
    }
}
