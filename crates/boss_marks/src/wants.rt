ghost use Rattle.std.specs.Prelude.{◌≡◌, ℕ, ◌<◌, ◌≤◌, ◌^◌, ◌∷◌, [], true, length, slice_index, is_some, IfOk, IfSome};
ghost use Rattle.std.specs.List.{position_from, AllByRecursion};
ghost use Rattle.boss_model.specs.Lists.{member, without};
ghost use Rattle.boss_model.specs.Sound.{Distinct};
ghost use Rattle.boss_marks.specs.Line.{behind};
ghost use Rattle.boss_marks.specs.Wants.{first_of, least_wanting};
ghost use Rattle.boss_marks.specs.Marks.{wanted_last};

use crate::line::Line;
use boss_model::{DriverId, NoMemory, PointId};
use std::alloc::Global;
use std::marker::Model;

/// The points that want their device to be written, in order of arrival. The first want of each driver is kept, so that
/// it is found without a walk over the wants of others: a want is passed at most once for each driver.
#[derive(Drop)]
pub struct Wants {
    drivers: Vec<DriverId>,
    line: Line,
    firsts: Vec<Option<PointId>>,
}

impl Model for Wants {
    ghost use Rattle.boss_marks.specs.Wants.{Wants as Waiting, IsWants};

    ghost Value = { Waiting };

    ghost view = { λ w. record { drivers = w.drivers.items; points = w.line.points } };

    ghost invariant = { λ w. IsWants w.drivers.items w.line w.firsts.items };
}

impl Wants {
    /// No want, for points with these drivers.
    pub fn new(alloc: Global, drivers: Vec<DriverId>) -> Result<Wants, NoMemory>
        ensures { IfOk result (λ wants. wants ≡ record { drivers = drivers.items; points = [] }) }
    {
        let line = Line::new(alloc, drivers.len())?;
        let firsts = vec![in alloc; None; count(&drivers)]?;
        Ok(Wants {
            drivers,
            line,
            firsts,
        })
    }

    /// The number of points. Each wants its device to be written at most once.
    pub fn points(&self) -> usize
        ensures number { result ≡ length self.now.drivers }
        ensures known { AllByRecursion (λ want. want < length self.now.drivers) self.now.points }
        ensures once { Distinct self.now.points }
    {
        self.drivers.len()
    }

    /// Whether the point wants its device to be written.
    pub fn contains(&self, point: PointId) -> bool
        requires { point < length self.now.drivers }
        ensures { result ≡ member point self.now.points }
    {
        self.line.contains(point)
    }

    /// The driver's first want.
    pub fn first(&self, driver: DriverId) -> Option<PointId>
        ensures first { result ≡ first_of self.now.drivers driver self.now.points }
        ensures known { IfSome result (λ point. point < length self.now.drivers) }
    {
        match self.firsts.get(driver.0 as usize) {
            Some(first) => *first,
            None => None,
        }
    }

    /// The least driver that has a want.
    pub fn least_driver(&self) -> Option<DriverId>
        ensures { result ≡ least_wanting self.now.drivers self.now.points }
    {
        match first_some(&self.firsts) {
            Some(driver) => Some(DriverId(driver as u16)),
            None => None,
        }
    }

    /// The point's want comes last. An older want of it is taken out.
    pub fn put_last(&mut self, point: PointId)
        requires { point < length self.old.drivers }
        ensures { self.new ≡ record self.old { points = wanted_last point self.old.points } }
    {
        self.remove(point);
        let driver = self.drivers[point.0 as usize];
        let first = &mut self.firsts[driver.0 as usize];
        *first = Some(first.unwrap_or(point));
        self.line.push(point);
    }

    /// The point wants nothing any more.
    pub fn remove(&mut self, point: PointId)
        requires { point < length self.old.drivers }
        ensures { self.new ≡ record self.old { points = without point self.old.points } }
    {
        if !self.line.contains(point) {
            return;
        }
        let first = self.first_without(point);
        let driver = self.drivers[point.0 as usize];
        self.firsts[driver.0 as usize] = first;
        self.line.remove(point);
    }

    /// The first want of the point's driver, but for that of the point.
    fn first_without(&self, point: PointId) -> Option<PointId>
        requires { member point self.now.points ≡ true }
        ensures { result ≡ first_of self.now.drivers (slice_index self.now.drivers point) (without point self.now.points) }
    {
        let driver = self.drivers[point.0 as usize];
        let first = self.firsts[driver.0 as usize];
        if first == Some(point) {
            return self.first_behind(driver, point);
        }
        first
    }

    /// The driver's first want behind this one.
    fn first_behind(&self, driver: DriverId, point: PointId) -> Option<PointId>
        requires { member point self.now.points ≡ true }
        ensures { result ≡ first_of self.now.drivers driver (behind point self.now.points) }
    {
        let mut next = self.line.after(point);
        while let Some(want) = next {
            if self.drivers[want.0 as usize] == driver {
                return Some(want);
            }
            next = self.line.after(want);
        }
        None
    }
}

/// How many drivers there are: one more than the greatest of these.
fn count(drivers: &[DriverId]) -> usize
    ensures above { (point : ℕ) → point < length drivers.now → slice_index drivers.now point < result }
    ensures few { result ≤ 2 ^ 16 }
{
    let mut count = 0;
    for driver in drivers {
        count = (driver.0 as usize + 1).max(count);
    }
    count
}

/// The place of the first that is there.
fn first_some(firsts: &[Option<PointId>]) -> Option<usize>
    ensures place { result ≡ position_from (λ first. is_some first) 0 firsts.now }
    ensures within { IfSome result (λ place. place < length firsts.now) }
{
    firsts.iter().position(|first| first.is_some())
}
