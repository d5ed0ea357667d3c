ghost use Rattle.std.specs.Prelude.{◌≡◌, ◌+◌, ◌-◌, ◌^◌, ◌≤◌, ◌++◌, min, map, IfOk, IsTrue, IsErr, is_err};
ghost use Rattle.std.specs.List.{AllByRecursion};
ghost use Rattle.boss_model.specs.Limits.{last_moment};
ghost use Rattle.boss_outside.specs.Counts.{HasCause, Joins};
ghost use Rattle.boss_outside.specs.Plan.{fails_next, after_call, after_join};
ghost use Rattle.boss_outside_server.specs.Clocks.{Gains, GivesNext, new_readings, moment_at};

use crate::Clock;
use crate::log::{Log, Room};
use boss_model::{Items, NoMemory};
use boss_outside::{Failed, FaultPlan};
use std::alloc::Global;
use std::marker::Model;

/// A clock in memory. It gives its moments in order, and after the last one that moment again; without a moment it gives
/// 0. Each part gives the whole list from its start, and has the same failing readings by its own count. A reading that
/// fails passes over no moment.
#[derive(Drop)]
pub struct ListClock {
    alloc: Global,
    moments: Items<u64>,
    made: usize,
    given: Log<u64>,
    plan: FaultPlan,
}

impl Model for ListClock {
    ghost use Rattle.std.specs.Prelude.{◌≤◌, All};
    ghost use Rattle.boss_model.specs.Limits.{last_moment};
    ghost use Rattle.boss_outside_server.specs.Clocks.{Readings};

    ghost Value = { Readings };

    ghost view = { λ c. record { moments = c.moments; made = c.made; given = c.given; plan = c.plan } };

    ghost invariant = { λ c. All (λ moment. moment ≤ last_moment) c.moments };
}

impl ListClock {
    /// A clock of these moments, each at most `2 ^ 60`, of which the readings with these numbers fail, counted from 1.
    pub fn new(
        alloc: Global,
        contents: Items<u64>,
        fails: Items<u64>,
    ) -> Result<ListClock, NoMemory>
        requires { AllByRecursion (λ moment. moment ≤ last_moment) contents }
        ensures { IfOk result (λ clock. clock ≡ new_readings contents fails) }
    {
        Ok(ListClock {
            alloc,
            moments: contents,
            made: 0,
            given: Log::new(),
            plan: FaultPlan::new(fails),
        })
    }

    /// The moments that it gave, in order.
    pub fn given(&self, alloc: Global) -> Result<Vec<&u64>, NoMemory>
        ensures { IfOk result (λ given. map (λ moment. moment.now) given.items ≡ self.now.given) }
    {
        self.given.entries(alloc)
    }

    /// The moment that the next reading gives.
    fn next_moment(&self) -> u64
        ensures value { result ≡ moment_at self.now.moments self.now.made }
        ensures bound { result ≤ last_moment }
    {
        let moments = self.moments.slice();
        let place = self.made.min(moments.len().saturating_sub(1));
        moments.get(place).copied().unwrap_or(0)
    }
}

impl Clock for ListClock {
    ghost tells = { Unit {0} };

    ghost given = { λ clock. clock.given };

    ghost faults = { λ clock. clock.plan.faults };

    /// It gives its moments as they are.
    fn begin(&mut self, _least: u64)
        ensures { self.new ≡ self.old }
    {}

    fn now(&mut self) -> Result<u64, Failed>
        ensures bound { IfOk result (λ moment. moment ≤ last_moment) }
        ensures moments { Gains self.old.given self.new.given result }
        ensures cause { HasCause self.old.plan.faults self.new.plan.faults result }
        ensures next { GivesNext self.old self.new result }
        ensures fails { IsTrue (fails_next self.old.plan) → IsErr result }
        ensures plan { self.new.plan ≡ after_call self.old.plan (is_err result) }
    {
        self.plan.call()?;
        let Ok(room) = Room::new(self.alloc) else {
            return Err(self.plan.fault());
        };
        let moment = self.next_moment();
        self.made = self.made.saturating_add(1);
        self.given.push(moment, room);
        Ok(moment)
    }

    fn join(&mut self, other: Self)
        ensures moments { self.new.given ≡ self.old.given ++ other.given }
        ensures cause { Joins self.old.plan.faults other.plan.faults self.new.plan.faults }
        ensures sum { min (self.old.plan.faults + other.plan.faults) (2 ^ 64 - 1) ≤ self.new.plan.faults }
        ensures same { self.new
            ≡ record self.old { given = self.old.given ++ other.given; plan = after_join self.old.plan other.plan } }
    {
        let ListClock { given, plan, .. } = other;
        self.given.append(given);
        self.plan.join(plan);
    }

    fn split(&mut self, alloc: Global) -> Result<Self, NoMemory>
        ensures part { IfOk result (λ part. part ≡ new_readings self.old.moments self.old.plan.fails) }
        ensures same { self.new ≡ self.old }
    {
        let moments = self.moments.slice().to_vec(alloc)?;
        Ok(ListClock {
            alloc,
            moments: Items::from_vec(moments),
            made: 0,
            given: Log::new(),
            plan: self.plan.split(alloc)?,
        })
    }
}
