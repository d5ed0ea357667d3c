ghost use Rattle.std.specs.Prelude.{◌≡◌, ◌<◌, ◌≤◌, ◌^◌, length, is_some, IfOk};
ghost use Rattle.std.specs.List.{AllByRecursion};
ghost use Rattle.std.specs.Option.{option_map};
ghost use Rattle.boss_model.specs.Devices.{is_settled, proxy_of};
ghost use Rattle.boss_model.specs.Limits.{last_moment};
ghost use Rattle.boss_model.specs.Sound.{Distinct};
ghost use Rattle.boss_marks.specs.Wants.{least_wanting};
ghost use Rattle.boss_marks.specs.Marks.{IsEarly, opened, started, settled, want_of, first_want, handed_out, answer_to, after_reporting, doubted_at, retried_at, retried_all};

use crate::proxy::{Reported, doubt, fresh, is_due, recommand, report};
use crate::wants::Wants;
use boss_model::{DriverId, Items, Mark, NoMemory, PointId, Proxy, Took};
use std::alloc::Global;
use std::marker::Model;

/// What a driver is to write: this value to the point's device. The report of it has to name this version.
#[derive(Clone, Copy, Debug, PartialEq, Eq)]
pub struct Want {
    /// The point whose device is to be written.
    pub point: PointId,
    /// The version of the value: from 1, one more at each change of the point's target, modulo 2^64.
    pub version: u64,
    /// The value, in thousandths of the unit for an analog point, a state's number otherwise.
    pub value: i64,
}

/// Where the devices of points stand, and which points want their device to be written, in order of arrival.
#[derive(Drop)]
pub struct Marks {
    proxies: Vec<Proxy>,
    wants: Wants,
    /// No failed write is to be tried again before this moment, in milliseconds.
    next_retry: u64,
}

impl Model for Marks {
    ghost use Rattle.boss_marks.specs.Marks.{Marks as Standing};

    ghost Value = { Standing };

    ghost view = { λ m. record { drivers = m.wants.drivers; proxies = m.proxies.items; wants = m.wants.points } };

    ghost use Rattle.boss_marks.specs.Marks.{IsMarks};

    ghost invariant = { λ m. IsMarks m.proxies.items m.wants.drivers m.next_retry };
}

impl Marks {
    /// The points with these drivers and Relinquish_Defaults (ASHRAE 135, clause 19.2), each of which wants its device to
    /// be written at the default. There may be 2^32.
    pub fn new(alloc: Global, points: &Items<(DriverId, i64)>) -> Result<Marks, NoMemory>
        requires { length points.now ≤ 2 ^ 32 }
        ensures { IfOk result (λ marks. marks ≡ opened points.now) }
    {
        let count = points.slice().len();
        let mut drivers = Vec::with_capacity(alloc, count)?;
        let mut proxies = Vec::with_capacity(alloc, count)?;
        for (driver, default) in points.slice() {
            drivers.push_reserved(*driver);
            proxies.push_reserved(fresh(*default));
        }
        let mut wants = Wants::new(alloc, drivers)?;
        for point in 0..count {
            wants.put_last(PointId(point as u32));
        }
        Ok(Marks {
            proxies,
            wants,
            next_retry: u64::MAX,
        })
    }

    /// The number of points. Each has a driver, and wants its device to be written at most once.
    pub fn count(&self) -> usize
        ensures number { result ≡ length self.now.proxies }
        ensures served { length self.now.drivers ≡ length self.now.proxies }
        ensures few { length self.now.proxies ≤ 2 ^ 32 }
        ensures known { AllByRecursion (λ want. want < length self.now.proxies) self.now.wants }
        ensures once { Distinct self.now.wants }
    {
        self.wants.points()
    }

    /// The point's device is to be told this target as if it had not been told anything yet: as version 1, which has not
    /// failed. It takes no memory.
    pub fn start(&mut self, point: PointId, target: i64)
        requires { point < length self.old.drivers }
        ensures { self.new ≡ started point target self.old }
    {
        self.proxies[point.0 as usize] = fresh(target);
        self.wants.put_last(point);
    }

    /// The point's device is to be told this target, as a new version, unless it is the commanded value. It takes no
    /// memory.
    pub fn settle(&mut self, point: PointId, target: i64)
        requires { point < length self.old.drivers }
        ensures after { self.new ≡ settled point target self.old }
        ensures drivers { self.new.drivers ≡ self.old.drivers }
    {
        let place = point.0 as usize;
        if self.proxies[place].commanded == target {
            return;
        }
        recommand(&mut self.proxies[place], target);
        self.wants.put_last(point);
    }

    /// The driver's first want, which is handed out; none where the driver has none. It takes no memory.
    pub fn next(&mut self, driver: DriverId) -> Option<Want>
        ensures want { result ≡ option_map (want_of self.old) (first_want driver self.old) }
        ensures after { self.new ≡ handed_out driver self.old }
        ensures drivers { self.new.drivers ≡ self.old.drivers }
    {
        let point = self.wants.first(driver)?;
        self.wants.remove(point);
        let proxy = &self.proxies[point.0 as usize];
        Some(Want {
            point,
            version: proxy.version,
            value: proxy.commanded,
        })
    }

    /// What a driver says at moment `n`, at most 2^60, of its write of this version: whether the device took it. A failed
    /// write is tried again 5,000 milliseconds later. A report of another version, or of a point that is to be written
    /// anew, changes nothing. It takes no memory.
    pub fn report(&mut self, point: PointId, version: u64, ok: bool, n: u64) -> Reported
        requires point { point < length self.old.drivers }
        requires moment { n ≤ last_moment }
        ensures answer { result ≡ answer_to point version ok self.old }
        ensures after { self.new ≡ after_reporting point version ok n self.old }
        ensures drivers { self.new.drivers ≡ self.old.drivers }
    {
        let place = point.0 as usize;
        if self.proxies[place].version != version || self.wants.contains(point) {
            return Reported::Old;
        }
        let reported = report(&mut self.proxies[place], ok, n);
        if !ok {
            self.next_retry = self.next_retry.min(self.proxies[place].retry_at);
        }
        reported
    }

    /// The point's device is to be written again, with the version and the value that it took, if it is settled: whether it
    /// is, is told. Where `differs`, it was found with another value, which is counted. A point that is not settled stays
    /// as it is. It takes no memory.
    pub fn doubt(&mut self, point: PointId, differs: bool) -> bool
        requires { point < length self.old.drivers }
        ensures answer { result ≡ is_settled (proxy_of self.old.proxies point).mark }
        ensures after { self.new ≡ doubted_at point differs self.old }
        ensures drivers { self.new.drivers ≡ self.old.drivers }
    {
        if self.mark(point) != Mark::Settled {
            return false;
        }
        doubt(&mut self.proxies[point.0 as usize], differs);
        self.wants.put_last(point);
        true
    }

    /// The points whose failed write is due at moment `n` want their devices to be written again, by rising point. It
    /// takes no memory.
    #[inline(always)]
    pub fn retry_due(&mut self, n: u64)
        ensures { self.new ≡ retried_all n self.old }
    {
        if n < self.next_retry {
            return;
        }
        for point in 0..self.proxies.len() {
            self.retry_if_due(PointId(point as u32), n);
        }
        self.next_retry = first_retry(&self.proxies);
    }

    /// The point's device is to be written again if its failed write is due at moment `n`.
    fn retry_if_due(&mut self, point: PointId, n: u64)
        requires { point < length self.old.drivers }
        ensures { self.new ≡ retried_at point n self.old }
    {
        let place = point.0 as usize;
        if is_due(&self.proxies[place], n) {
            self.proxies[place].mark = Mark::Pending;
            self.wants.put_last(point);
        }
    }

    /// How often the point's device was found with another value than it took, modulo 2^64.
    pub fn differed(&self, point: PointId) -> u64
        requires { point < length self.now.drivers }
        ensures { result ≡ (proxy_of self.now.proxies point).differed }
    {
        self.proxies[point.0 as usize].differed
    }

    /// What the point's device took last, since the state was opened.
    pub fn took(&self, point: PointId) -> Option<Took>
        requires { point < length self.now.drivers }
        ensures { result ≡ (proxy_of self.now.proxies point).took }
    {
        self.proxies[point.0 as usize].took
    }

    /// How far the point's device has come.
    pub fn mark(&self, point: PointId) -> Mark
        requires { point < length self.now.drivers }
        ensures { result ≡ (proxy_of self.now.proxies point).mark }
    {
        self.proxies[point.0 as usize].mark
    }

    /// Whether the driver has a want.
    pub fn has_want(&self, driver: DriverId) -> bool
        ensures { result ≡ is_some (first_want driver self.now) }
    {
        self.wants.first(driver).is_some()
    }

    /// A moment before which no failed write is to be tried again, in milliseconds.
    pub fn next_retry(&self) -> u64
        ensures { AllByRecursion (IsEarly result) self.now.proxies }
    {
        self.next_retry
    }

    /// The least driver that has a want.
    pub fn wanting(&self) -> Option<DriverId>
        ensures { result ≡ least_wanting self.now.drivers self.now.wants }
    {
        self.wants.least_driver()
    }
}

/// A moment before which no failed write is to be tried again: the first one where there is one.
fn first_retry(proxies: &[Proxy]) -> u64
    ensures { AllByRecursion (IsEarly result) proxies.now }
{
    let mut first = u64::MAX;
    for proxy in proxies {
        if proxy.mark == Mark::Failed {
            first = first.min(proxy.retry_at);
        }
    }
    first
}
